ghost use Rattle.std.specs.Prelude.{◌≡◌, ◌+◌};
ghost use Rattle.pb_ports.specs.Counts.{one_more};

use crate::counts::count_on;
use crate::spawners::Spawner;
use std::alloc::Global;

/// A spawner that hands every job back.
#[derive(Debug, Drop)]
pub struct NoSpawner {
    refusals: u64,
}

impl NoSpawner {
    /// A spawner that has handed back none so far.
    pub fn new() -> NoSpawner
        ensures { result.refusals ≡ 0 }
    {
        NoSpawner { refusals: 0 }
    }

    /// How many jobs were handed back.
    pub fn faults(&self) -> u64
        ensures { result ≡ self.now.refusals }
    {
        self.refusals
    }
}

impl Spawner for NoSpawner {
    ghost refusals = { λ s. s.refusals };

    ghost starts_none = { λ _. Unit {0} };

    fn memory(&self) -> Option<Global> {
        None
    }

    fn refuse(&mut self)
        ensures { self.new.refusals ≡ one_more self.old.refusals }
    {
        self.refusals = count_on(self.refusals);
    }
}
