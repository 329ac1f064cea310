ghost use Rattle.std.specs.Prelude.{◌≡◌, ◌≤◌, ◌∷◌, [], ℕ, List, Option};
ghost use Rattle.pb_ports.specs.Ports.{Rose};
ghost use Rattle.pb_turn.specs.Seeing.{Known};
ghost use Rattle.pb_core.specs.declared.Event.TheVariants as events;
ghost use Rattle.pb_core.specs.declared.Entry.{Entry};
ghost use Rattle.pb_core.specs.History.{IsTaking};
ghost use Rattle.pb_core.specs.Sessions.{IsSession};
ghost use Rattle.pb_session.specs.Calls.{Adds, entry};
ghost use Rattle.pb_session.specs.Streaming.{Going, HasTaken, HasTakenOnce};

use crate::endings::DataEnded;
use crate::happening::happen;
use pb_core::{Answer, Event, Server};
use pb_ports::{Pacer, Sink};
use pb_turn::{Pass, Turn};
use pb_words::{OutOfMemory, Steps};
use std::sync::Wait;
use std::sync::ledger::Ledger;

/// Takes and writes pieces until there is an end to it.
pub(crate) fn take_all<V: Server, K: Sink, P: Pacer, R: Wait, L: Ledger>(
    rt: &R,
    turn: &Turn<V>,
    pass: Pass<V>,
    id: u32,
    sink: &mut K,
    pacer: &mut P,
    steps: &mut Steps<L>,
) -> (Pass<V>, DataEnded)
    requires turn { pass.turn ≡ turn.now }
    requires id { IsSession id }
    ensures taken { (start : Known Entry V) (before : List Entry) → Adds V.opening start pass before
        → HasTaken V.opening id start result.1 result.0 before (K.held sink.old) (K.held sink.new) }
    ensures turn { result.0.turn ≡ turn.now }
    ensures cause { result.1 ≡ DataEnded.WriteFault → Rose (K.faults sink.old) (K.faults sink.new) }
    ensures count { K.faults sink.old ≤ K.faults sink.new }
{
    let mut pass = pass;
    for _ in rt.forever() {
        let (next, ended) = take_once(rt, turn, pass, id, sink, pacer, steps);
        pass = next;
        match ended {
            None => {}
            Some(ended) => return (pass, ended),
        }
    }
    unreachable!()
}

/// Takes, and writes what there is. Where there is none yet it pauses. It says how the session ends, if it does.
fn take_once<V: Server, K: Sink, P: Pacer, R: Wait, L: Ledger>(
    rt: &R,
    turn: &Turn<V>,
    pass: Pass<V>,
    id: u32,
    sink: &mut K,
    pacer: &mut P,
    steps: &mut Steps<L>,
) -> (Pass<V>, Option<DataEnded>)
    requires turn { pass.turn ≡ turn.now }
    requires id { IsSession id }
    ensures taken { (start : Known Entry V) (before : List Entry) (held : Option (List ℕ)) → Going V.opening id start pass before held (K.held sink.old)
        → HasTakenOnce V.opening id start result.1 result.0 before held (K.held sink.new) }
    ensures turn { result.0.turn ≡ turn.now }
    ensures cause { result.1 ≡ Some DataEnded.WriteFault → Rose (K.faults sink.old) (K.faults sink.new) }
    ensures count { K.faults sink.old ≤ K.faults sink.new }
{
    let (pass, taken) = take(rt, turn, pass, id, steps);
    match taken {
        Ok(Answer::Piece(text)) => match sink.write_all(text.bytes()) {
            Ok(()) => (pass, None),
            Err(_) => (pass, Some(DataEnded::WriteFault)),
        },
        Ok(Answer::NotYet) => {
            pacer.pause(rt);
            (pass, None)
        }
        Ok(Answer::Finished) => (pass, Some(DataEnded::Finished)),
        Ok(Answer::Closed) => (pass, Some(DataEnded::Displaced)),
        Ok(_) => unreachable!(),
        Err(_) => (pass, Some(DataEnded::NoMemory)),
    }
}

/// The session takes.
fn take<V: Server, R: Wait, L: Ledger>(
    rt: &R,
    turn: &Turn<V>,
    pass: Pass<V>,
    id: u32,
    steps: &mut Steps<L>,
) -> (Pass<V>, Result<Answer, OutOfMemory>)
    requires turn { pass.turn ≡ turn.now }
    requires id { IsSession id }
    ensures adds { Adds V.opening pass result.0 (entry (events.Take id) result.1 ∷ []) }
    ensures taking { IsTaking result.1 }
    ensures turn { result.0.turn ≡ turn.now }
{
    happen(rt, turn, pass, Event::Take { id }, steps)
}
