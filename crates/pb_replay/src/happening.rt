ghost use Rattle.std.specs.Prelude.{◌≡◌, ◌+◌, ◌<◌, ◌≤◌, ◌^◌, [], ◌∷◌, Some, IfOk, OnOk};
ghost use Rattle.pb_ports.specs.Ports.{Rose};
ghost use Rattle.pb_going.specs.Sims.{outdated};
ghost use Rattle.pb_core.specs.Kept.{Agrees};
ghost use Rattle.pb_core.specs.Costs.{CostsLittle};
ghost use Rattle.pb_core.specs.Answer.{CoreState, CanHappen, answer, after, bytes_of};
ghost use Rattle.pb_core.specs.Sessions.{IsSession};
ghost use Rattle.pb_core.specs.declared.Event.TheVariants as events;
ghost use Rattle.pb_replay.specs.Events.{going_to};
ghost use Rattle.pb_replay.specs.Output.{receiver_of, written, section};
ghost use Rattle.pb_replay.specs.Pending.{PlaysOn, IsQuiet, IsAnswered, goes_on};
ghost use Rattle.pb_replay.specs.Tallies.{tally, AddsCalls, IsReady, Went, Turns};

use crate::played::{Played, Told};
use crate::players::Player;
use crate::sections::{Port, write_section};
use pb_core::{Answer, Core, Event, Why};
use pb_ports::Sink;
use pb_words::{OutOfMemory, Steps};
use std::sync::ledger::Ledger;

/// How many eventful ticks a script may have: the next one is the limit.
const MOST: u64 = 9_999_999;

impl Player {
    /// The box goes to this tick, and then this happens, of which no session is told.
    pub(crate) fn happens_at<L: Ledger>(
        &mut self,
        tick: u64,
        event: &Event,
        steps: &mut Steps<L>,
    ) -> Played
        requires small { tick < 2 ^ 62 }
        requires can { CanHappen event.now }
        requires quiet { IsQuiet event.now }
        ensures core { result ≡ Played.Ok → (state : CoreState) → Agrees self.old.core state → Agrees self.new.core (after (after state (going_to tick)) event.now) }
        ensures went { (state : CoreState) → Agrees self.old.core state → IsReady state self.old.eventful →
            Went 0 (Unit {0}) result state (going_to tick ∷ event.now ∷ []) (tally self.old.core self.old.eventful steps.old) (tally self.new.core self.new.eventful steps.new) }
        ensures known { ¬ (result ≡ Played.WriteFault) }
        ensures assemblers { self.new.assemblers ≡ self.old.assemblers }
        ensures pending { self.new.pending ≡ self.old.pending }
    {
        match self.advance(tick, steps) {
            Played::Ok => self.happens(event, steps).played(),
            end => end,
        }
    }

    /// This happens, of which no session is told.
    pub(crate) fn happens<L: Ledger>(&mut self, event: &Event, steps: &mut Steps<L>) -> Told
        requires can { CanHappen event.now }
        requires quiet { IsQuiet event.now }
        ensures core { result ≡ Told.Ok → (state : CoreState) → Agrees self.old.core state → Agrees self.new.core (after state event.now) }
        ensures calls { (state : CoreState) → Agrees self.old.core state →
            AddsCalls 0 (tally self.old.core self.old.eventful steps.old) (tally self.new.core self.new.eventful steps.new) }
        ensures known { ¬ (result ≡ Told.WriteFault) }
        ensures assemblers { self.new.assemblers ≡ self.old.assemblers }
        ensures pending { self.new.pending ≡ self.old.pending }
    {
        match self.core.apply(event, steps) {
            Ok(_answer) => Told::Ok,
            Err(_) => Told::OutOfMemory,
        }
    }

    /// The box goes to this tick, over one eventful tick after the other, unless memory is wanting for a record on the way, or
    /// the limit comes.
    pub(crate) fn advance<L: Ledger>(&mut self, to: u64, steps: &mut Steps<L>) -> Played
        requires { to < 2 ^ 62 }
        ensures core { result ≡ Played.Ok → (state : CoreState) → Agrees self.old.core state → Agrees self.new.core (after state (going_to to)) }
        ensures went { (state : CoreState) → Agrees self.old.core state → IsReady state self.old.eventful →
            Went 0 (Unit {0}) result state (going_to to ∷ []) (tally self.old.core self.old.eventful steps.old) (tally self.new.core self.new.eventful steps.new) }
        ensures known { ¬ (result ≡ Played.WriteFault) }
        ensures assemblers { self.new.assemblers ≡ self.old.assemblers }
        ensures pending { self.new.pending ≡ self.old.pending }
    {
        for _number in self.eventful..MOST {
            if to <= self.core.now() {
                return Played::Ok;
            }
            if !turn(&mut self.core, to, steps) {
                return Played::OutOfMemory;
            }
            self.eventful += 1;
        }
        let tick = self.core.now();
        if to <= tick {
            Played::Ok
        } else {
            Played::EventLimit { tick }
        }
    }

    /// The event happens that is kept, and a session is told the answer.
    pub(crate) fn tell<K: Sink, L: Ledger>(
        &mut self,
        port: Port,
        session: u32,
        output: &mut K,
        steps: &mut Steps<L>,
    ) -> Told
        requires can { CanHappen self.old.event }
        requires session { IsSession session }
        requires told { receiver_of self.old.event ≡ Some (record { port = port; session = session }) }
        ensures plays { (state : CoreState) → Agrees self.old.core state →
            PlaysOn (written state self.old.event) result self.old.pending (K.held output.old) self.new.pending (K.held output.new) }
        ensures core { result ≡ Told.Ok → (state : CoreState) → Agrees self.old.core state → Agrees self.new.core (after state self.old.event) }
        ensures calls { (state : CoreState) → Agrees self.old.core state →
            AddsCalls 21 (tally self.old.core self.old.eventful steps.old) (tally self.new.core self.new.eventful steps.new) }
        ensures assemblers { self.new.assemblers ≡ self.old.assemblers }
        ensures cause { result ≡ Told.WriteFault → Rose (K.faults output.old) (K.faults output.new) }
        ensures count { K.faults output.old ≤ K.faults output.new }
    {
        let tick = self.core.now();
        match answer(&mut self.core, &self.event, steps) {
            Ok(answer) => self.hand_out(tick, port, session, answer, output),
            Err(_) => Told::OutOfMemory,
        }
    }

    /// A session is told an answer. The core gets its memory back.
    fn hand_out<K: Sink>(
        &mut self,
        tick: u64,
        port: Port,
        session: u32,
        answer: Answer,
        output: &mut K,
    ) -> Told
        requires { IsSession session }
        ensures plays { PlaysOn (section tick port session (bytes_of answer)) result self.old.pending (K.held output.old) self.new.pending (K.held output.new) }
        ensures core { self.new.core ≡ self.old.core }
        ensures eventful { self.new.eventful ≡ self.old.eventful }
        ensures assemblers { self.new.assemblers ≡ self.old.assemblers }
        ensures cause { result ≡ Told.WriteFault → Rose (K.faults output.old) (K.faults output.new) }
        ensures count { K.faults output.old ≤ K.faults output.new }
    {
        let played = write_section(
            tick,
            port,
            session,
            answer.bytes(),
            &mut self.pending,
            output,
        );
        self.core.give_back(answer);
        played
    }
}

/// What the core answers to an event of which a session is told.
pub(crate) fn answer<L: Ledger>(
    core: &mut Core,
    event: &Event,
    steps: &mut Steps<L>,
) -> Result<Answer, OutOfMemory>
    requires can { CanHappen event.now }
    requires told { IsAnswered event.now }
    ensures ok { (state : CoreState) → Agrees core.old state → IfOk result (λ told. told ≡ answer state event.now) }
    ensures core { (state : CoreState) → Agrees core.old state → OnOk result (Agrees core.new (after state event.now)) }
    ensures costs { (state : CoreState) → Agrees core.old state → CostsLittle event.now core.old core.new steps.old steps.new }
{
    core.apply(event, steps)
}

/// The box goes on towards this tick over one eventful tick. Where memory is wanting for a record on the way the answer is false.
fn turn<L: Ledger>(core: &mut Core, to: u64, steps: &mut Steps<L>) -> bool
    requires small { to < 2 ^ 62 }
    requires ahead { core.old.sim.tick < to }
    ensures { (state : CoreState) → Agrees core.old state →
        Turns result state to core.new (steps.old + outdated core.old.sim) (steps.new + outdated core.new.sim) }
{
    match core.apply(&Event::Advance { to, most: 1 }, steps) {
        Ok(answer) => goes_on(&answer),
        Err(_) => false,
    }
}

/// Whether memory sufficed for an advance.
fn goes_on(answer: &Answer) -> bool
    ensures { result ≡ goes_on answer.now }
{
    match answer {
        Answer::Reached { tick: _, why } => matches!(why, Why::Target | Why::Events),
        _ => false,
    }
}
