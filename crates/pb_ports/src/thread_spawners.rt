//! Threads as a spawner. A program's `main` makes one:
//!
//! ```text
//! let mut spawner = ThreadSpawner::new(rt.alloc());
//! ```
ghost use Rattle.std.specs.Prelude.{◌≡◌};
ghost use Rattle.pb_ports.specs.Counts.{one_more};

use crate::counts::count_on;
use crate::spawners::Spawner;
use std::alloc::Global;

/// Starts each job in a thread of the system. A job is handed back where no thread can be made, or no memory is left for handing the job
/// over. A thread that was started goes on until its job is done or the program ends.
#[derive(Drop)]
pub struct ThreadSpawner {
    alloc: Global,
    refusals: u64,
}

impl ThreadSpawner {
    /// A spawner that has handed back no job so far.
    pub fn new(alloc: Global) -> ThreadSpawner
        ensures { result.refusals ≡ 0 }
    {
        ThreadSpawner { alloc, refusals: 0 }
    }

    /// How many jobs were handed back.
    pub fn faults(&self) -> u64
        ensures { result ≡ self.now.refusals }
    {
        self.refusals
    }
}

impl Spawner for ThreadSpawner {
    ghost refusals = { λ s. s.refusals };

    ghost starts_none = { λ _. ⊥ };

    fn memory(&self) -> Option<Global> {
        Some(self.alloc)
    }

    fn refuse(&mut self)
        ensures { self.new.refusals ≡ one_more self.old.refusals }
    {
        self.refusals = count_on(self.refusals);
    }
}
