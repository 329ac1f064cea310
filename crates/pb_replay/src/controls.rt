ghost use Rattle.std.specs.Prelude.{◌≡◌, ℕ, ◌<◌, ◌≤◌, ◌^◌, List, true, false};
ghost use Rattle.pb_ports.specs.Ports.{Rose};
ghost use Rattle.pb_grammar.specs.Grammar.{IsText};
ghost use Rattle.pb_grammar.specs.Feeding.{Completed, HasWhole};
ghost use Rattle.pb_core.specs.Kept.{Agrees};
ghost use Rattle.pb_core.specs.Answer.{CoreState, after, after_all};
ghost use Rattle.pb_core.specs.Sessions.{IsSession, is_open};
ghost use Rattle.pb_replay.specs.Script.{Timed, Command, CloseControl};
ghost use Rattle.pb_replay.specs.Events.{waits_after, sent, events_of};
ghost use Rattle.pb_replay.specs.Output.{written, sections};
ghost use Rattle.pb_replay.specs.Plays.{Plays};
ghost use Rattle.pb_replay.specs.Pending.{PlaysOn, PlaysLine, IsSilent};
ghost use Rattle.pb_replay.specs.Tallies.{tally, AddsCalls, IsReady, Went};
ghost use Rattle.pb_replay.specs.Waiting.{AreFed, kept_of};

use crate::feeding::put_command;
use crate::played::{Played, Told};
use crate::players::Player;
use crate::sections::Port;
use pb_core::Event;
use pb_ports::Sink;
use pb_words::{OutOfMemory, Steps};
use std::sync::ledger::Ledger;

impl Player {
    /// Plays a line of a control session.
    pub(crate) fn play_line<K: Sink, L: Ledger>(
        &mut self,
        tick: u64,
        session: u32,
        text: &[u8],
        output: &mut K,
        steps: &mut Steps<L>,
    ) -> Played
        requires small { tick < 2 ^ 62 }
        requires session { IsSession session }
        requires text { IsText text.now }
        ensures plays { (state : CoreState) → Agrees self.old.core state → (waiting : List (List ℕ)) → AreFed self.old.assemblers waiting →
            PlaysLine (sections state (events_of state waiting (Timed tick (Command session text.now)))) result self.old.pending (K.held output.old) self.new.pending (K.held output.new) }
        ensures core { result ≡ Played.Ok → (state : CoreState) → Agrees self.old.core state → (waiting : List (List ℕ)) → AreFed self.old.assemblers waiting →
            Agrees self.new.core (after_all state (events_of state waiting (Timed tick (Command session text.now)))) }
        ensures fed { result ≡ Played.Ok → (waiting : List (List ℕ)) → AreFed self.old.assemblers waiting → AreFed self.new.assemblers (waits_after waiting (Timed tick (Command session text.now))) }
        ensures went { (state : CoreState) → Agrees self.old.core state → IsReady state self.old.eventful → (waiting : List (List ℕ)) → AreFed self.old.assemblers waiting →
            Went 21 (IsSilent self.old.pending (K.held output.old) self.new.pending (K.held output.new)) result state (events_of state waiting (Timed tick (Command session text.now))) (tally self.old.core self.old.eventful steps.old) (tally self.new.core self.new.eventful steps.new) }
        ensures cause { result ≡ Played.WriteFault → Rose (K.faults output.old) (K.faults output.new) }
        ensures count { K.faults output.old ≤ K.faults output.new }
    {
        if self.core.is_open(session) {
            self.play_next_line(tick, session, text, output, steps)
        } else {
            self.play_first_line(tick, session, text, output, steps)
        }
    }

    /// Plays a line of a control session that is open.
    pub(crate) fn play_next_line<K: Sink, L: Ledger>(
        &mut self,
        tick: u64,
        session: u32,
        text: &[u8],
        output: &mut K,
        steps: &mut Steps<L>,
    ) -> Played
        requires small { tick < 2 ^ 62 }
        requires session { IsSession session }
        requires text { IsText text.now }
        requires open { is_open self.old.core.sessions session ≡ true }
        ensures plays { (state : CoreState) → Agrees self.old.core state → (waiting : List (List ℕ)) → AreFed self.old.assemblers waiting →
            PlaysLine (sections state (events_of state waiting (Timed tick (Command session text.now)))) result self.old.pending (K.held output.old) self.new.pending (K.held output.new) }
        ensures core { result ≡ Played.Ok → (state : CoreState) → Agrees self.old.core state → (waiting : List (List ℕ)) → AreFed self.old.assemblers waiting →
            Agrees self.new.core (after_all state (events_of state waiting (Timed tick (Command session text.now)))) }
        ensures fed { result ≡ Played.Ok → (waiting : List (List ℕ)) → AreFed self.old.assemblers waiting → AreFed self.new.assemblers (waits_after waiting (Timed tick (Command session text.now))) }
        ensures went { (state : CoreState) → Agrees self.old.core state → IsReady state self.old.eventful → (waiting : List (List ℕ)) → AreFed self.old.assemblers waiting →
            Went 21 (IsSilent self.old.pending (K.held output.old) self.new.pending (K.held output.new)) result state (events_of state waiting (Timed tick (Command session text.now))) (tally self.old.core self.old.eventful steps.old) (tally self.new.core self.new.eventful steps.new) }
        ensures cause { result ≡ Played.WriteFault → Rose (K.faults output.old) (K.faults output.new) }
        ensures count { K.faults output.old ≤ K.faults output.new }
    {
        if !self.assemblers.feed(session, text) {
            return Played::Ok;
        }
        match self.advance(tick, steps) {
            Played::Ok => self.send_command(session, output, steps).played(),
            end => end,
        }
    }

    /// Plays the first line of a control session: it opens at this tick.
    pub(crate) fn play_first_line<K: Sink, L: Ledger>(
        &mut self,
        tick: u64,
        session: u32,
        text: &[u8],
        output: &mut K,
        steps: &mut Steps<L>,
    ) -> Played
        requires small { tick < 2 ^ 62 }
        requires session { IsSession session }
        requires text { IsText text.now }
        requires open { is_open self.old.core.sessions session ≡ false }
        ensures plays { (state : CoreState) → Agrees self.old.core state → (waiting : List (List ℕ)) → AreFed self.old.assemblers waiting →
            PlaysLine (sections state (events_of state waiting (Timed tick (Command session text.now)))) result self.old.pending (K.held output.old) self.new.pending (K.held output.new) }
        ensures core { result ≡ Played.Ok → (state : CoreState) → Agrees self.old.core state → (waiting : List (List ℕ)) → AreFed self.old.assemblers waiting →
            Agrees self.new.core (after_all state (events_of state waiting (Timed tick (Command session text.now)))) }
        ensures fed { result ≡ Played.Ok → (waiting : List (List ℕ)) → AreFed self.old.assemblers waiting → AreFed self.new.assemblers (waits_after waiting (Timed tick (Command session text.now))) }
        ensures went { (state : CoreState) → Agrees self.old.core state → IsReady state self.old.eventful → (waiting : List (List ℕ)) → AreFed self.old.assemblers waiting →
            Went 21 (IsSilent self.old.pending (K.held output.old) self.new.pending (K.held output.new)) result state (events_of state waiting (Timed tick (Command session text.now))) (tally self.old.core self.old.eventful steps.old) (tally self.new.core self.new.eventful steps.new) }
        ensures cause { result ≡ Played.WriteFault → Rose (K.faults output.old) (K.faults output.new) }
        ensures count { K.faults output.old ≤ K.faults output.new }
    {
        match self.happens_at(tick, &Event::OpenControl { id: session }, steps) {
            Played::Ok => {}
            end => return end,
        }
        if !self.assemblers.feed(session, text) {
            return Played::Ok;
        }
        self.send_command(session, output, steps).played()
    }

    /// The session sends the command that is whole.
    pub(crate) fn send_command<K: Sink, L: Ledger>(
        &mut self,
        session: u32,
        output: &mut K,
        steps: &mut Steps<L>,
    ) -> Told
        requires session { IsSession session }
        requires whole { HasWhole (kept_of self.old.assemblers session) }
        ensures plays { (state : CoreState) → Agrees self.old.core state → (bytes : List ℕ) → Completed (kept_of self.old.assemblers session) bytes →
            PlaysOn (written state (sent session bytes)) result self.old.pending (K.held output.old) self.new.pending (K.held output.new) }
        ensures core { result ≡ Told.Ok → (state : CoreState) → Agrees self.old.core state → (bytes : List ℕ) → Completed (kept_of self.old.assemblers session) bytes →
            Agrees self.new.core (after state (sent session bytes)) }
        ensures calls { (state : CoreState) → Agrees self.old.core state →
            AddsCalls 21 (tally self.old.core self.old.eventful steps.old) (tally self.new.core self.new.eventful steps.new) }
        ensures assemblers { self.new.assemblers ≡ self.old.assemblers }
        ensures cause { result ≡ Told.WriteFault → Rose (K.faults output.old) (K.faults output.new) }
        ensures count { K.faults output.old ≤ K.faults output.new }
    {
        match put_command(&self.assemblers, session, &mut self.event, self.alloc) {
            Ok(()) => self.tell(Port::Control, session, output, steps),
            Err(_) => Told::OutOfMemory,
        }
    }

    /// A control session closes, and forgets what it has sent of a command.
    pub(crate) fn close_control<L: Ledger>(
        &mut self,
        tick: u64,
        session: u32,
        steps: &mut Steps<L>,
    ) -> Played
        requires small { tick < 2 ^ 62 }
        requires session { IsSession session }
        ensures core { result ≡ Played.Ok → (state : CoreState) → Agrees self.old.core state → (waiting : List (List ℕ)) →
            Agrees self.new.core (after_all state (events_of state waiting (Timed tick (CloseControl session)))) }
        ensures went { (state : CoreState) → Agrees self.old.core state → IsReady state self.old.eventful → (waiting : List (List ℕ)) →
            Went 21 (Unit {0}) result state (events_of state waiting (Timed tick (CloseControl session))) (tally self.old.core self.old.eventful steps.old) (tally self.new.core self.new.eventful steps.new) }
        ensures known { ¬ (result ≡ Played.WriteFault) }
        ensures pending { self.new.pending ≡ self.old.pending }
        ensures fed { result ≡ Played.Ok → (waiting : List (List ℕ)) → AreFed self.old.assemblers waiting → AreFed self.new.assemblers (waits_after waiting (Timed tick (CloseControl session))) }
    {
        self.assemblers.clear(session);
        self.happens_at(tick, &Event::CloseControl { id: session }, steps)
    }
}
