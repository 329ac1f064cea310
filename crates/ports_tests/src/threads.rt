use pb_ports::{Job, Spawner, ThreadSpawner};
use std::alloc::{AllocError, Global};
use std::process::Abort;
use std::sync::atomic::{AtomicU64, Ordering};
use std::sync::{Arc, Wait};
use std::test::Fail;
use std::thread::{Threads, yield_now};

/// How often a thread looks at what another one sets, at the most.
const LOOKS: u64 = 100_000_000;

/// A job that counts one, and then waits until two are counted.
#[derive(Drop)]
pub struct Mark {
    count: Arc<AtomicU64, Global>,
}

impl Mark {
    /// The first job of a new count.
    pub fn new(alloc: Global) -> Result<Mark, AllocError> {
        Ok(Mark {
            count: Arc::new(alloc, AtomicU64::new(0))?,
        })
    }

    /// The count.
    pub fn again(&self) -> Result<Arc<AtomicU64, Global>, AllocError> {
        Arc::try_clone(&self.count)
    }

    /// Another job of this count.
    pub fn other(&self) -> Result<Mark, AllocError> {
        Ok(Mark {
            count: self.again()?,
        })
    }
}

impl Job for Mark {
    fn work<R: Threads + Wait + Copy + Send>(self, _rt: R) {
        self.count.fetch_add(1, Ordering::SeqCst);
        if is_reached(&self.count, 2) {
            self.count.fetch_add(10, Ordering::SeqCst);
        }
    }
}

/// Looks until the count has come so far.
fn is_reached(count: &AtomicU64, wanted: u64) -> bool {
    for _ in 0..LOOKS {
        if wanted <= count.load(Ordering::SeqCst) {
            return true;
        }
        yield_now();
    }
    false
}

// Each job waits for the other, so they come to 22 only where both run at once.
#[test]
fn two_jobs_run_at_once(rt: HostRuntime) -> Result<(), Fail> {
    let mut spawner = ThreadSpawner::new(rt.alloc());
    let job = Mark::new(rt.alloc())?;
    let other = job.other()?;
    let count = job.again()?;
    assert!(rt; spawner.start(rt, job).is_ok());
    assert!(rt; spawner.start(rt, other).is_ok());
    assert!(rt; is_reached(&count, 22));
    assert!(rt; spawner.faults() == 0);
    Ok(())
}
