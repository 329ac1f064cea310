ghost use Rattle.std.specs.Prelude.{◌≡◌, ◌≤◌, ◌<◌, ◌+◌, ◌++◌, ◌∷◌, [], IsErr, IfOk, IfSome, IfNone, IsErrOf, vec_len};
ghost use Rattle.pb_ports.specs.Counts.{one_more};
ghost use Rattle.pb_core.specs.Sessions.{IsSession};

use crate::jobs::{CaptureJob, SessionJob, Side};
use crate::seats::Seat;
use pb_core::Server;
use pb_ports::{Door, Pacer, Spawner};
use pb_turn::Turn;
use pb_words::OutOfMemory;
use std::alloc::Global;
use std::sync::Wait;
use std::thread::Threads;

/// Why the workers aren't started. Those that were started before go on.
#[derive(Clone, Copy, Debug, PartialEq, Eq)]
pub enum StartFault {
    /// The spawner handed a job back.
    Refused,
    /// There is no memory.
    OutOfMemory,
}

impl From<OutOfMemory> for StartFault {
    ghost use Rattle.pb_serve.specs.declared.starting.StartFault.TheVariants as faults;

    ghost from_gives = { λ _ e. e ≡ faults.OutOfMemory };

    fn from(_e: OutOfMemory) -> StartFault {
        StartFault::OutOfMemory
    }
}

/// A part of the turn for each worker, and one that is left over.
const PARTS: u64 = 18;

/// Starts one worker that captures, and one for each door, of which either port has at most eight: the doors of a port get the ids
/// from 1 on. The value is the one that they all serve. The first job that is handed back ends it, and is the only one that counts.
pub fn start_workers<
    V: Server + Send + Drop + 'static,
    D: Door + Send + Drop + 'static,
    P: Pacer + Copy + Send + Drop + 'static,
    W: Spawner,
    R: Threads + Wait + Copy + Send + 'static,
>(
    rt: R,
    alloc: Global,
    value: V,
    control: Vec<D>,
    records: Vec<D>,
    pacer: P,
    spawner: &mut W,
) -> Result<(), StartFault>
where
    D::In: Send,
    D::Out: Send,
    requires opening { V.stands value [] }
    requires control { vec_len control ≤ 8 }
    requires records { vec_len records ≤ 8 }
    ensures started { IfOk result (λ _. W.refusals spawner.new ≡ W.refusals spawner.old) }
    ensures refused { IsErrOf result StartFault.Refused → W.refusals spawner.new ≡ one_more (W.refusals spawner.old) }
    ensures lack { IsErrOf result StartFault.OutOfMemory → W.refusals spawner.new ≡ W.refusals spawner.old }
    ensures none { W.starts_none spawner.old → IsErr result }
{
    let (turn, pass) = match Turn::new(alloc, value, PARTS) {
        Ok(made) => made,
        Err(_value) => return Err(StartFault::OutOfMemory),
    };
    let seat = Seat::new(alloc, turn, pass)?;
    match start_all(rt, alloc, seat, control, records, pacer, spawner) {
        Ok(_seat) => Ok(()),
        Err(fault) => Err(fault),
    }
}

/// Starts the worker that captures and those of both ports, and gives back the seat with the parts that are left.
fn start_all<
    V: Server + Send + Drop + 'static,
    D: Door + Send + Drop + 'static,
    P: Pacer + Copy + Send + Drop + 'static,
    W: Spawner,
    R: Threads + Wait + Copy + Send + 'static,
>(
    rt: R,
    alloc: Global,
    seat: Seat<V>,
    control: Vec<D>,
    records: Vec<D>,
    pacer: P,
    spawner: &mut W,
) -> Result<Seat<V>, StartFault>
where
    D::In: Send,
    D::Out: Send,
    requires control { vec_len control ≤ 8 }
    requires records { vec_len records ≤ 8 }
    requires parts { 1 + vec_len control + vec_len records < seat.pass.parts }
    ensures parts { IfOk result (λ left. left.pass.parts + (1 + vec_len control + vec_len records) ≡ seat.pass.parts) }
    ensures started { IfOk result (λ _. W.refusals spawner.new ≡ W.refusals spawner.old) }
    ensures refused { IsErrOf result StartFault.Refused → W.refusals spawner.new ≡ one_more (W.refusals spawner.old) }
    ensures lack { IsErrOf result StartFault.OutOfMemory → W.refusals spawner.new ≡ W.refusals spawner.old }
    ensures none { W.starts_none spawner.old → IsErr result }
{
    let (seat, mine) = seat.split()?;
    match spawner.start(rt, CaptureJob { seat: mine, pacer }) {
        Ok(()) => {}
        Err(_capture) => return Err(StartFault::Refused),
    }
    let seat = match start_sessions(rt, alloc, seat, Side::Control, control, pacer, spawner) {
        Ok(seat) => seat,
        Err(fault) => return Err(fault),
    };
    start_sessions(rt, alloc, seat, Side::Data, records, pacer, spawner)
}

/// Starts a worker for each door of a port, and gives back the seat with the parts that are left.
fn start_sessions<
    V: Server + Send + Drop + 'static,
    D: Door + Send + Drop + 'static,
    P: Pacer + Copy + Send + Drop + 'static,
    W: Spawner,
    R: Threads + Wait + Copy + Send + 'static,
>(
    rt: R,
    alloc: Global,
    seat: Seat<V>,
    side: Side,
    doors: Vec<D>,
    pacer: P,
    spawner: &mut W,
) -> Result<Seat<V>, StartFault>
where
    D::In: Send,
    D::Out: Send,
    requires doors { vec_len doors ≤ 8 }
    requires parts { vec_len doors < seat.pass.parts }
    ensures parts { IfOk result (λ left. left.pass.parts + vec_len doors ≡ seat.pass.parts) }
    ensures started { IfOk result (λ _. W.refusals spawner.new ≡ W.refusals spawner.old) }
    ensures refused { IsErrOf result StartFault.Refused → W.refusals spawner.new ≡ one_more (W.refusals spawner.old) }
    ensures lack { IsErrOf result StartFault.OutOfMemory → W.refusals spawner.new ≡ W.refusals spawner.old }
{
    let mut seat = seat;
    let mut doors = doors;
    while let Some((id, door)) = last_door(&mut doors) {
        let (rest, mine) = seat.split()?;
        let job = SessionJob::new(alloc, mine, side, id, door, pacer);
        match spawner.start(rt, job) {
            Ok(()) => {}
            Err(_session) => return Err(StartFault::Refused),
        }
        seat = rest;
    }
    Ok(seat)
}

/// Takes the last of a port's doors off, with its id, which is its place counted from 1.
fn last_door<D>(doors: &mut Vec<D>) -> Option<(u32, D)>
    requires { vec_len doors.old ≤ 8 }
    ensures id { IfSome result (λ last. IsSession last.0 × (last.0 ≡ vec_len doors.old)) }
    ensures door { IfSome result (λ last. doors.old.items ≡ doors.new.items ++ last.1 ∷ []) }
    ensures none { IfNone result (vec_len doors.old ≡ 0) }
{
    let id = doors.len() as u32;
    match doors.pop() {
        Some(door) => Some((id, door)),
        None => None,
    }
}
