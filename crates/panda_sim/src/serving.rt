ghost use Rattle.std.specs.Prelude.{◌≡◌, ◌≤◌, ◌+◌, [], IfOk, IfErr, IsErrOf, vec_len};
ghost use Rattle.pb_ports.specs.Counts.{one_more};
ghost use Rattle.pb_ports.specs.Ports.{Rose};
ghost use Rattle.pb_core.specs.History.{StandsFor};
ghost use Rattle.panda_sim.specs.Serve.{Ends, Opened, ReadsStimulus};

use crate::running::{ReadError, read_all};
use crate::statuses::Status;
use pb_cli::{Ports, PortsFault, read_ports};
use pb_core::{Core, cores_begin_with_no_history};
use pb_ports::{Door, Listen, Pacer, Source, Spawner};
use pb_serve::{StartFault, start_workers};
use pb_stim::{StimFault, Stimulus};
use pb_words::Text;
use std::alloc::Global;
use std::sync::Wait;
use std::thread::{Parker, Threads};

/// How many sessions each port serves at the same time.
const SESSIONS: usize = 8;

/// Serves both ports with the words `serve` and what follows: it reads the stimulus to its end, opens the ports, and starts a thread
/// that captures and eight for the sessions of each port. Then it doesn't return, since the threads end with the program.
pub fn serve<
    S: Source,
    N: Listen,
    P: Pacer + Copy + Send + Drop + 'static,
    W: Spawner,
    R: Threads + Wait + Copy + Send + 'static,
>(
    rt: R,
    alloc: Global,
    words: &[Text],
    stimulus: &mut S,
    net: &mut N,
    pacer: P,
    spawner: &mut W,
) -> Status
where
    <N::Way as Door>::In: Send,
    <N::Way as Door>::Out: Send,
    ensures ends { Ends result words.now (S.left stimulus.old) (S.left stimulus.new) }

    // A fault has its cause in the stimulus, the net or the spawner.
    ensures read_cause { result ≡ Status.ReadFault → Rose (S.faults stimulus.old) (S.faults stimulus.new) }
    ensures port_cause { result ≡ Status.PortFault → Rose (N.faults net.old) (N.faults net.new) }
    ensures spawn_cause { result ≡ Status.SpawnFault → W.refusals spawner.new ≡ one_more (W.refusals spawner.old) }
{
    match start(rt, alloc, words, stimulus, net, pacer, spawner) {
        Ok(()) => {}
        Err(status) => return status,
    }
    let idle = Parker::new();
    for _ in rt.forever() {
        idle.park(&rt);
    }
    unreachable!()
}

/// Starts the threads, or tells what keeps them from being started.
fn start<
    S: Source,
    N: Listen,
    P: Pacer + Copy + Send + Drop + 'static,
    W: Spawner,
    R: Threads + Wait + Copy + Send + 'static,
>(
    rt: R,
    alloc: Global,
    words: &[Text],
    stimulus: &mut S,
    net: &mut N,
    pacer: P,
    spawner: &mut W,
) -> Result<(), Status>
where
    <N::Way as Door>::In: Send,
    <N::Way as Door>::Out: Send,
    ensures ends { IfErr result (λ status. Ends status words.now (S.left stimulus.old) (S.left stimulus.new)) }
    ensures read_cause { IsErrOf result Status.ReadFault → Rose (S.faults stimulus.old) (S.faults stimulus.new) }
    ensures port_cause { IsErrOf result Status.PortFault → Rose (N.faults net.old) (N.faults net.new) }
    ensures spawn_cause { IsErrOf result Status.SpawnFault → W.refusals spawner.new ≡ one_more (W.refusals spawner.old) }
{
    let ports = match read_ports(alloc, words) {
        Ok(ports) => ports,
        Err(PortsFault::Usage) => return Err(Status::Usage),
        Err(PortsFault::OutOfMemory) => return Err(Status::OutOfMemory),
    };
    let core = match open_core(alloc, stimulus) {
        Ok(core) => core,
        Err(status) => return Err(status),
    };
    let (control, records) = match open_ports(alloc, net, ports) {
        Ok(doors) => doors,
        Err(DoorsFault::Port) => return Err(Status::PortFault),
        Err(DoorsFault::OutOfMemory) => return Err(Status::OutOfMemory),
    };
    match start_workers(rt, alloc, core, control, records, pacer, spawner) {
        Ok(()) => Ok(()),
        Err(StartFault::Refused) => Err(Status::SpawnFault),
        Err(StartFault::OutOfMemory) => Err(Status::OutOfMemory),
    }
}

/// Reads the stimulus to its end, and opens a core with its rows.
fn open_core<S: Source>(alloc: Global, stimulus: &mut S) -> Result<Core, Status>
    ensures ok { IfOk result (λ core. ReadsStimulus (S.left stimulus.old) (S.left stimulus.new)) }
    ensures stands { IfOk result (λ core. StandsFor core []) }
    ensures err { IfErr result (λ status. Opened status (S.left stimulus.old) (S.left stimulus.new)) }
    ensures cause { IsErrOf result Status.ReadFault → Rose (S.faults stimulus.old) (S.faults stimulus.new) }
{
    cores_begin_with_no_history();
    let text = match read_all(alloc, stimulus) {
        Ok(text) => text,
        Err(ReadError::Fault) => return Err(Status::ReadFault),
        Err(ReadError::OutOfMemory) => return Err(Status::OutOfMemory),
    };
    let rows = match Stimulus::parse(alloc, text.bytes()) {
        Ok(rows) => rows,
        Err(StimFault::Line { line, cause }) => return Err(Status::Script { line, cause }),
        Err(StimFault::OutOfMemory) => return Err(Status::OutOfMemory),
    };
    match Core::new(alloc, rows) {
        Ok(core) => Ok(core),
        Err(_rows) => Err(Status::OutOfMemory),
    }
}

/// Why the doors of a port can't be had.
#[derive(Clone, Copy, Debug, PartialEq, Eq)]
enum DoorsFault {
    /// The port can't be opened.
    Port,
    /// There is no memory.
    OutOfMemory,
}

/// Eight doors of either port.
#[tactic(auto, using(crate::proofs::DoorLemmas::rose_after))]
fn open_ports<N: Listen>(
    alloc: Global,
    net: &mut N,
    ports: Ports,
) -> Result<(Vec<N::Way>, Vec<N::Way>), DoorsFault>
    ensures control { IfOk result (λ doors. vec_len doors.0 ≡ SESSIONS) }
    ensures records { IfOk result (λ doors. vec_len doors.1 ≡ SESSIONS) }
    ensures cause { IsErrOf result DoorsFault.Port → Rose (N.faults net.old) (N.faults net.new) }
{
    let control = match open_doors(alloc, net, ports.control) {
        Ok(doors) => doors,
        Err(fault) => return Err(fault),
    };
    match open_doors(alloc, net, ports.records) {
        Ok(records) => Ok((control, records)),
        Err(fault) => Err(fault),
    }
}

/// Eight doors of a port.
fn open_doors<N: Listen>(alloc: Global, net: &mut N, port: u16) -> Result<Vec<N::Way>, DoorsFault>
    ensures doors { IfOk result (λ doors. vec_len doors ≡ SESSIONS) }
    ensures cause { IsErrOf result DoorsFault.Port → Rose (N.faults net.old) (N.faults net.new) }
    ensures count { N.faults net.old ≤ N.faults net.new }
{
    let mut doors = Vec::new(alloc);
    for _ in 0..SESSIONS {
        match add_door(net, port, &mut doors) {
            Ok(()) => {}
            Err(fault) => return Err(fault),
        }
    }
    Ok(doors)
}

/// Opens one more door of a port.
fn add_door<N: Listen>(net: &mut N, port: u16, doors: &mut Vec<N::Way>) -> Result<(), DoorsFault>
    ensures more { IfOk result (λ _. vec_len doors.new ≡ vec_len doors.old + 1) }
    ensures cause { IsErrOf result DoorsFault.Port → Rose (N.faults net.old) (N.faults net.new) }
    ensures count { N.faults net.old ≤ N.faults net.new }
{
    let door = match net.door(port) {
        Ok(door) => door,
        Err(_) => return Err(DoorsFault::Port),
    };
    match doors.push(door) {
        Ok(()) => Ok(()),
        Err(_) => Err(DoorsFault::OutOfMemory),
    }
}
