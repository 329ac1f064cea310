ghost use Rattle.std.specs.Prelude.{◌≡◌, IsErr};
ghost use Rattle.pb_ports.specs.Starting.{HandsBack};

use crate::spawners::{Job, Spawner};
use pb_words::OutOfMemory;
use std::alloc::{AllocError, Global};
use std::sync::{Arc, Condvar, Mutex, Wait};
use std::thread;
use std::thread::Threads;

/// Hands a job over to its thread.
#[derive(Drop)]
struct Slot<J> {
    job: Mutex<Option<J>>,
    filled: Condvar,
}

/// Starts the job in a thread of its own, or hands it back. The thread is started first and gets its job then, since a thread that
/// can't be started keeps nothing.
pub(crate) fn start_job<
    S: Spawner,
    R: Threads + Wait + Copy + Send + 'static,
    J: Job + Send + Drop + 'static,
>(spawner: &mut S, rt: R, job: J) -> Result<(), J>
    ensures told { HandsBack job result (S.refusals spawner.old) (S.refusals spawner.new) }
    ensures none { S.starts_none spawner.old → IsErr result }
{
    let Some(alloc) = spawner.memory() else {
        spawner.refuse();
        return Err(job);
    };
    let Some(slot) = start_thread(alloc, rt) else {
        spawner.refuse();
        return Err(job);
    };
    *slot.job.lock(&rt) = Some(job);
    slot.filled.notify_one();
    Ok(())
}

/// A thread that waits for its job, and the slot where it looks for it.
fn start_thread<R: Threads + Wait + Copy + Send + 'static, J: Job + Send + Drop + 'static>(
    alloc: Global,
    rt: R,
) -> Option<Arc<Slot<J>, Global>> {
    let slot = Arc::new(
        alloc,
        Slot {
            job: Mutex::new(None),
            filled: Condvar::new(),
        },
    )
    .ok()?;
    let theirs = Arc::try_clone(&slot).ok()?;
    match thread::spawn(&rt, move || work_on(rt, theirs)) {
        Ok(_) => Some(slot),
        Err(_) => None,
    }
}

/// Waits until the slot has a job, and works on it.
fn work_on<R: Threads + Wait + Copy + Send + 'static, J: Job + Send + Drop + 'static>(
    rt: R,
    slot: Arc<Slot<J>, Global>,
) {
    let mut held = slot
        .filled
        .wait_while(&rt, slot.job.lock(&rt), |job| job.is_none());
    let job = held.take();
    drop(held);
    if let Some(job) = job {
        job.work(rt);
    }
}
