ghost use Rattle.std.specs.Prelude.{◌≡◌, ◌≤◌, ℕ, Bool, IsTrue, IsErr, IsNone};

use crate::starting::start_job;
use std::alloc::Global;
use std::sync::Wait;
use std::thread::Threads;

/// Work for a thread of its own.
pub trait Job {
    /// Does the work. It may never return.
    fn work<R: Threads + Wait + Copy + Send>(self, rt: R);
}

/// Starts jobs, each in a thread of its own.
pub trait Spawner {
    ghost use Rattle.pb_ports.specs.Counts.{one_more};
    ghost use Rattle.pb_ports.specs.Starting.{HandsBack};

    /// How many jobs were handed back, kept at the end of its range.
    ghost refusals: { Self → ℕ };

    /// It hands back every job.
    ghost starts_none: { Self → Type 0 };

    /// The memory that starting a thread takes, or `None` where none is to be started.
    fn memory(&self) -> Option<Global>
        ensures { starts_none self.now → IsNone result };

    /// Counts a job that is handed back.
    fn refuse(&mut self)
        ensures { refusals self.new ≡ one_more (refusals self.old) };

    /// Starts the job in a thread of its own, or hands it back and counts that.
    final fn start<R: Threads + Wait + Copy + Send + 'static, J: Job + Send + Drop + 'static>(
        &mut self,
        rt: R,
        job: J,
    ) -> Result<(), J>
        ensures told { HandsBack job result (refusals self.old) (refusals self.new) }
        ensures none { starts_none self.old → IsErr result }
    {
        start_job(self, rt, job)
    }
}
