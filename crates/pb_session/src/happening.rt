ghost use Rattle.std.specs.Prelude.{◌≡◌, ◌∷◌, []};
ghost use Rattle.pb_core.specs.Answer.{CoreState, CanHappen};
ghost use Rattle.pb_core.specs.History.{IsNext};
ghost use Rattle.pb_session.specs.Calls.{Adds, entry};

use pb_core::{Answer, Entry, Event, Server};
use pb_turn::{Pass, Turn};
use pb_words::{OutOfMemory, Steps};
use std::sync::Wait;
use std::sync::ledger::Ledger;

/// Takes the turn, lets the event happen, and gives the turn back.
pub(crate) fn happen<V: Server, R: Wait, L: Ledger>(
    rt: &R,
    turn: &Turn<V>,
    pass: Pass<V>,
    event: Event,
    steps: &mut Steps<L>,
) -> (Pass<V>, Result<Answer, OutOfMemory>)
    requires turn { pass.turn ≡ turn.now }
    requires can { CanHappen event }
    ensures adds { Adds V.opening pass result.0 (entry event result.1 ∷ []) }
    ensures comes { (core : CoreState) × IsNext core (entry event result.1) }
{
    let mut held = turn.enter(rt, pass);
    let result = held.value().serve(&event, steps);
    let done = Entry { event, result };
    let pass = held.leave(&done);
    let Entry { event: _, result } = done;
    (pass, result)
}
