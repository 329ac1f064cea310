ghost use Rattle.std.specs.Prelude.{◌≡◌, ◌<◌, ◌≤◌, IfSome, IfNone};
ghost use Rattle.pb_ports.specs.Ports.{Rose};
ghost use Rattle.pb_core.specs.Sessions.{IsSession};
ghost use Rattle.pb_session.specs.Calls.{Keeps};
ghost use Rattle.pb_session.specs.Workers.{ServesControl, ServesData, Advances};

use crate::controls::control_session;
use crate::endings::{DataEnded, Ended};
use crate::happening::happen;
use crate::streams::data_session;
use pb_core::{Event, Server};
use pb_ports::{Door, Pacer};
use pb_turn::{Pass, Turn};
use pb_words::Steps;
use std::alloc::Global;
use std::sync::Wait;
use std::sync::ledger::Ledger;

/// Serves the next connection of a control door, with this id, 1 to 8. Where there is none it pauses.
pub fn control_worker<V: Server, D: Door, P: Pacer, R: Wait>(
    rt: &R,
    alloc: Global,
    turn: &Turn<V>,
    pass: Pass<V>,
    id: u32,
    door: &mut D,
    pacer: &mut P,
) -> (Pass<V>, Option<(Ended, D::In, D::Out)>)
    requires turn { pass.turn ≡ turn.now }
    requires id { IsSession id }
    ensures pass { Keeps pass result.0 }
    ensures served { IfSome result.1 (λ served. ServesControl V.opening id pass served.0 result.0 (D.ways door.old) (D.ways door.new) (D.In.left served.1) (D.Out.held served.2)) }
    ensures none { IfNone result.1 ((result.0 ≡ pass) × (D.ways door.new ≡ D.ways door.old) × Rose (D.faults door.old) (D.faults door.new)) }
    ensures read_cause { IfSome result.1 (λ served. served.0 ≡ Ended.ReadFault → 0 < D.In.faults served.1) }
    ensures write_cause { IfSome result.1 (λ served. served.0 ≡ Ended.WriteFault → 0 < D.Out.faults served.2) }
    ensures count { D.faults door.old ≤ D.faults door.new }
{
    match door.accept(rt) {
        Ok((mut source, mut sink)) => {
            let (pass, ended) = control_session(rt, alloc, turn, pass, id, &mut source, &mut sink);
            (pass, Some((ended, source, sink)))
        }
        Err(_) => {
            pacer.pause(rt);
            (pass, None)
        }
    }
}

/// Serves the next connection of a data door, with this id, 1 to 8. Where there is none it pauses.
pub fn data_worker<V: Server, D: Door, P: Pacer, R: Wait>(
    rt: &R,
    alloc: Global,
    turn: &Turn<V>,
    pass: Pass<V>,
    id: u32,
    door: &mut D,
    pacer: &mut P,
) -> (Pass<V>, Option<(DataEnded, D::In, D::Out)>)
    requires turn { pass.turn ≡ turn.now }
    requires id { IsSession id }
    ensures pass { Keeps pass result.0 }
    ensures served { IfSome result.1 (λ served. ServesData V.opening id pass served.0 result.0 (D.ways door.old) (D.ways door.new) (D.In.left served.1) (D.Out.held served.2)) }
    ensures none { IfNone result.1 ((result.0 ≡ pass) × (D.ways door.new ≡ D.ways door.old) × Rose (D.faults door.old) (D.faults door.new)) }
    ensures read_cause { IfSome result.1 (λ served. served.0 ≡ DataEnded.ReadFault → 0 < D.In.faults served.1) }
    ensures write_cause { IfSome result.1 (λ served. served.0 ≡ DataEnded.WriteFault → 0 < D.Out.faults served.2) }
    ensures count { D.faults door.old ≤ D.faults door.new }
{
    match door.accept(rt) {
        Ok((mut source, mut sink)) => {
            let (pass, ended) = data_session(
                rt,
                alloc,
                turn,
                pass,
                id,
                &mut source,
                &mut sink,
                pacer,
            );
            (pass, Some((ended, source, sink)))
        }
        Err(_) => {
            pacer.pause(rt);
            (pass, None)
        }
    }
}

/// The most eventful ticks of one turn of a capture worker, so that others have the turn in between.
const MOST: u64 = 10_000;

/// Takes box time on, so many times, each time to the tick that the pacer gives but over at most 10,000 eventful ticks, and then
/// pauses. Box time may lag behind the clock.
pub fn capture_worker<V: Server, P: Pacer, R: Wait, L: Ledger>(
    rt: &R,
    turn: &Turn<V>,
    pass: Pass<V>,
    pacer: &mut P,
    turns: u64,
    steps: &mut Steps<L>,
) -> Pass<V>
    requires turn { pass.turn ≡ turn.now }
    ensures pass { Keeps pass result }
    ensures advances { Advances V.opening turns pass result (P.moments pacer.old) (P.moments pacer.new) }
{
    let mut pass = pass;
    for _round in 0..turns {
        let to = pacer.now();
        let (next, _reached) = happen(rt, turn, pass, Event::Advance { to, most: MOST }, steps);
        pass = next;
        pacer.pause(rt);
    }
    pass
}
