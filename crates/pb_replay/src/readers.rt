ghost use Rattle.std.specs.Prelude.{◌≡◌, ℕ, ◌<◌, ◌≤◌, ◌^◌, List, true, false};
ghost use Rattle.pb_ports.specs.Ports.{Rose};
ghost use Rattle.pb_core.specs.Kept.{Agrees};
ghost use Rattle.pb_core.specs.Answer.{CoreState, answer, after, after_all};
ghost use Rattle.pb_core.specs.Sessions.{IsSession, session_ids};
ghost use Rattle.pb_core.specs.declared.Event.TheVariants as events;
ghost use Rattle.pb_replay.specs.Script.{Timed, OpenData, Take, CloseData, End};
ghost use Rattle.pb_replay.specs.Events.{events_of, is_piece, takes_of, takes_of_all, takes_up_to, most_takes};
ghost use Rattle.pb_replay.specs.Output.{written, sections};
ghost use Rattle.pb_replay.specs.Pending.{PlaysOn, PlaysLine, IsSilent};
ghost use Rattle.pb_replay.specs.Tallies.{tally, AddsCalls, IsReady, Went};

use crate::happening::answer;
use crate::played::{Played, Told};
use crate::players::Player;
use crate::sections::{Port, write_section};
use pb_core::{Answer, Event};
use pb_ports::Sink;
use pb_words::{OutOfMemory, Steps, Text};
use std::mem;
use std::sync::ledger::Ledger;

impl Player {
    /// A data session opens with this options line. It closes before, if it is open.
    pub(crate) fn open_data<K: Sink, L: Ledger>(
        &mut self,
        tick: u64,
        session: u32,
        options: &[u8],
        output: &mut K,
        steps: &mut Steps<L>,
    ) -> Played
        requires small { tick < 2 ^ 62 }
        requires session { IsSession session }
        ensures plays { (state : CoreState) → Agrees self.old.core state → (waiting : List (List ℕ)) →
            PlaysLine (sections state (events_of state waiting (Timed tick (OpenData session options.now)))) result self.old.pending (K.held output.old) self.new.pending (K.held output.new) }
        ensures core { result ≡ Played.Ok → (state : CoreState) → Agrees self.old.core state → (waiting : List (List ℕ)) →
            Agrees self.new.core (after_all state (events_of state waiting (Timed tick (OpenData session options.now)))) }
        ensures went { (state : CoreState) → Agrees self.old.core state → IsReady state self.old.eventful → (waiting : List (List ℕ)) →
            Went 21 (IsSilent self.old.pending (K.held output.old) self.new.pending (K.held output.new)) result state (events_of state waiting (Timed tick (OpenData session options.now))) (tally self.old.core self.old.eventful steps.old) (tally self.new.core self.new.eventful steps.new) }
        ensures assemblers { self.new.assemblers ≡ self.old.assemblers }
        ensures cause { result ≡ Played.WriteFault → Rose (K.faults output.old) (K.faults output.new) }
        ensures count { K.faults output.old ≤ K.faults output.new }
    {
        let was_open = self.core.is_reading(session);
        match self.advance(tick, steps) {
            Played::Ok => {}
            end => return end,
        }
        if was_open {
            self.open_again(session, options, output, steps).played()
        } else {
            self.open_reader(session, options, output, steps).played()
        }
    }

    /// A data session that is open closes, and opens again with this options line.
    fn open_again<K: Sink, L: Ledger>(
        &mut self,
        session: u32,
        options: &[u8],
        output: &mut K,
        steps: &mut Steps<L>,
    ) -> Told
        requires session { IsSession session }
        ensures plays { (state : CoreState) → Agrees self.old.core state →
            PlaysOn (written (after state (events.CloseData session)) (events.OpenData session options.now)) result self.old.pending (K.held output.old) self.new.pending (K.held output.new) }
        ensures core { result ≡ Told.Ok → (state : CoreState) → Agrees self.old.core state → Agrees self.new.core (after (after state (events.CloseData session)) (events.OpenData session options.now)) }
        ensures calls { (state : CoreState) → Agrees self.old.core state →
            AddsCalls 21 (tally self.old.core self.old.eventful steps.old) (tally self.new.core self.new.eventful steps.new) }
        ensures assemblers { self.new.assemblers ≡ self.old.assemblers }
        ensures cause { result ≡ Told.WriteFault → Rose (K.faults output.old) (K.faults output.new) }
        ensures count { K.faults output.old ≤ K.faults output.new }
    {
        match self.happens(&Event::CloseData { id: session }, steps) {
            Told::Ok => self.open_reader(session, options, output, steps),
            end => end,
        }
    }

    /// A data session opens with this options line.
    pub(crate) fn open_reader<K: Sink, L: Ledger>(
        &mut self,
        session: u32,
        options: &[u8],
        output: &mut K,
        steps: &mut Steps<L>,
    ) -> Told
        requires session { IsSession session }
        ensures plays { (state : CoreState) → Agrees self.old.core state →
            PlaysOn (written state (events.OpenData session options.now)) result self.old.pending (K.held output.old) self.new.pending (K.held output.new) }
        ensures core { result ≡ Told.Ok → (state : CoreState) → Agrees self.old.core state → Agrees self.new.core (after state (events.OpenData session options.now)) }
        ensures calls { (state : CoreState) → Agrees self.old.core state →
            AddsCalls 21 (tally self.old.core self.old.eventful steps.old) (tally self.new.core self.new.eventful steps.new) }
        ensures assemblers { self.new.assemblers ≡ self.old.assemblers }
        ensures cause { result ≡ Told.WriteFault → Rose (K.faults output.old) (K.faults output.new) }
        ensures count { K.faults output.old ≤ K.faults output.new }
    {
        let mut text = Text::new(self.alloc);
        if text.append(options).is_err() {
            return Told::OutOfMemory;
        }
        self.event = Event::OpenData {
            id: session,
            options: text,
        };
        self.tell(Port::Data, session, output, steps)
    }

    /// A data session takes one piece.
    pub(crate) fn take<K: Sink, L: Ledger>(
        &mut self,
        tick: u64,
        session: u32,
        output: &mut K,
        steps: &mut Steps<L>,
    ) -> Played
        requires small { tick < 2 ^ 62 }
        requires session { IsSession session }
        ensures plays { (state : CoreState) → Agrees self.old.core state → (waiting : List (List ℕ)) →
            PlaysLine (sections state (events_of state waiting (Timed tick (Take session)))) result self.old.pending (K.held output.old) self.new.pending (K.held output.new) }
        ensures core { result ≡ Played.Ok → (state : CoreState) → Agrees self.old.core state → (waiting : List (List ℕ)) →
            Agrees self.new.core (after_all state (events_of state waiting (Timed tick (Take session)))) }
        ensures went { (state : CoreState) → Agrees self.old.core state → IsReady state self.old.eventful → (waiting : List (List ℕ)) →
            Went 21 (IsSilent self.old.pending (K.held output.old) self.new.pending (K.held output.new)) result state (events_of state waiting (Timed tick (Take session))) (tally self.old.core self.old.eventful steps.old) (tally self.new.core self.new.eventful steps.new) }
        ensures assemblers { self.new.assemblers ≡ self.old.assemblers }
        ensures cause { result ≡ Played.WriteFault → Rose (K.faults output.old) (K.faults output.new) }
        ensures count { K.faults output.old ≤ K.faults output.new }
    {
        match self.advance(tick, steps) {
            Played::Ok => {}
            end => return end,
        }
        let kept = mem::replace(&mut self.event, Event::Take { id: session });
        let told = self.tell(Port::Data, session, output, steps);
        self.event = kept;
        told.played()
    }

    /// A data session closes.
    pub(crate) fn close_data<L: Ledger>(
        &mut self,
        tick: u64,
        session: u32,
        steps: &mut Steps<L>,
    ) -> Played
        requires small { tick < 2 ^ 62 }
        requires session { IsSession session }
        ensures core { result ≡ Played.Ok → (state : CoreState) → Agrees self.old.core state → (waiting : List (List ℕ)) →
            Agrees self.new.core (after_all state (events_of state waiting (Timed tick (CloseData session)))) }
        ensures went { (state : CoreState) → Agrees self.old.core state → IsReady state self.old.eventful → (waiting : List (List ℕ)) →
            Went 21 (Unit {0}) result state (events_of state waiting (Timed tick (CloseData session))) (tally self.old.core self.old.eventful steps.old) (tally self.new.core self.new.eventful steps.new) }
        ensures known { ¬ (result ≡ Played.WriteFault) }
        ensures assemblers { self.new.assemblers ≡ self.old.assemblers }
        ensures pending { self.new.pending ≡ self.old.pending }
    {
        self.happens_at(tick, &Event::CloseData { id: session }, steps)
    }

    /// The end: each data session that is open takes until there is no piece.
    pub(crate) fn end<K: Sink, L: Ledger>(
        &mut self,
        tick: u64,
        output: &mut K,
        steps: &mut Steps<L>,
    ) -> Played
        requires small { tick < 2 ^ 62 }
        ensures plays { (state : CoreState) → Agrees self.old.core state → (waiting : List (List ℕ)) →
            PlaysLine (sections state (events_of state waiting (Timed tick End))) result self.old.pending (K.held output.old) self.new.pending (K.held output.new) }
        ensures core { result ≡ Played.Ok → (state : CoreState) → Agrees self.old.core state → (waiting : List (List ℕ)) →
            Agrees self.new.core (after_all state (events_of state waiting (Timed tick End))) }
        ensures went { (state : CoreState) → Agrees self.old.core state → IsReady state self.old.eventful → (waiting : List (List ℕ)) →
            Went 21 (IsSilent self.old.pending (K.held output.old) self.new.pending (K.held output.new)) result state (events_of state waiting (Timed tick End)) (tally self.old.core self.old.eventful steps.old) (tally self.new.core self.new.eventful steps.new) }
        ensures assemblers { self.new.assemblers ≡ self.old.assemblers }
        ensures cause { result ≡ Played.WriteFault → Rose (K.faults output.old) (K.faults output.new) }
        ensures count { K.faults output.old ≤ K.faults output.new }
    {
        match self.advance(tick, steps) {
            Played::Ok => self.take_rest(output, steps).played(),
            end => end,
        }
    }

    /// Each data session that is open takes until there is no piece.
    pub(crate) fn take_rest<K: Sink, L: Ledger>(
        &mut self,
        output: &mut K,
        steps: &mut Steps<L>,
    ) -> Told
        ensures plays { (state : CoreState) → Agrees self.old.core state →
            PlaysOn (sections state (takes_of_all state session_ids)) result self.old.pending (K.held output.old) self.new.pending (K.held output.new) }
        ensures core { result ≡ Told.Ok → (state : CoreState) → Agrees self.old.core state → Agrees self.new.core (after_all state (takes_of_all state session_ids)) }
        ensures calls { (state : CoreState) → Agrees self.old.core state →
            AddsCalls 0 (tally self.old.core self.old.eventful steps.old) (tally self.new.core self.new.eventful steps.new) }
        ensures assemblers { self.new.assemblers ≡ self.old.assemblers }
        ensures cause { result ≡ Told.WriteFault → Rose (K.faults output.old) (K.faults output.new) }
        ensures count { K.faults output.old ≤ K.faults output.new }
    {
        for session in 1..9u32 {
            match self.take_all(session, output, steps) {
                Told::Ok => {}
                end => return end,
            }
        }
        Told::Ok
    }

    /// A data session takes until there is no piece, if it is open.
    pub(crate) fn take_all<K: Sink, L: Ledger>(
        &mut self,
        session: u32,
        output: &mut K,
        steps: &mut Steps<L>,
    ) -> Told
        requires { IsSession session }
        ensures plays { (state : CoreState) → Agrees self.old.core state →
            PlaysOn (sections state (takes_of state session)) result self.old.pending (K.held output.old) self.new.pending (K.held output.new) }
        ensures core { result ≡ Told.Ok → (state : CoreState) → Agrees self.old.core state → Agrees self.new.core (after_all state (takes_of state session)) }
        ensures calls { (state : CoreState) → Agrees self.old.core state →
            AddsCalls 0 (tally self.old.core self.old.eventful steps.old) (tally self.new.core self.new.eventful steps.new) }
        ensures assemblers { self.new.assemblers ≡ self.old.assemblers }
        ensures cause { result ≡ Told.WriteFault → Rose (K.faults output.old) (K.faults output.new) }
        ensures count { K.faults output.old ≤ K.faults output.new }
    {
        if self.core.is_reading(session) {
            self.take_pieces(session, output, steps)
        } else {
            Told::Ok
        }
    }

    /// A data session takes until there is no piece.
    pub(crate) fn take_pieces<K: Sink, L: Ledger>(
        &mut self,
        session: u32,
        output: &mut K,
        steps: &mut Steps<L>,
    ) -> Told
        requires { IsSession session }
        ensures plays { (state : CoreState) → Agrees self.old.core state →
            PlaysOn (sections state (takes_up_to most_takes state session)) result self.old.pending (K.held output.old) self.new.pending (K.held output.new) }
        ensures core { result ≡ Told.Ok → (state : CoreState) → Agrees self.old.core state → Agrees self.new.core (after_all state (takes_up_to most_takes state session)) }
        ensures calls { (state : CoreState) → Agrees self.old.core state →
            AddsCalls 0 (tally self.old.core self.old.eventful steps.old) (tally self.new.core self.new.eventful steps.new) }
        ensures assemblers { self.new.assemblers ≡ self.old.assemblers }
        ensures cause { result ≡ Told.WriteFault → Rose (K.faults output.old) (K.faults output.new) }
        ensures count { K.faults output.old ≤ K.faults output.new }
    {
        for _turn in 0..u64::MAX {
            let (told, more) = self.take_piece(session, output, steps);
            match told {
                Told::Ok => {}
                end => return end,
            }
            if !more {
                return Told::Ok;
            }
        }
        Told::Ok
    }

    /// A data session takes. Whether it was handed a piece is answered too.
    pub(crate) fn take_piece<K: Sink, L: Ledger>(
        &mut self,
        session: u32,
        output: &mut K,
        steps: &mut Steps<L>,
    ) -> (Told, bool)
        requires { IsSession session }
        ensures plays { (state : CoreState) → Agrees self.old.core state →
            PlaysOn (written state (events.Take session)) result.0 self.old.pending (K.held output.old) self.new.pending (K.held output.new) }
        ensures core { result.0 ≡ Told.Ok → (state : CoreState) → Agrees self.old.core state → Agrees self.new.core (after state (events.Take session)) }
        ensures piece { result.0 ≡ Told.Ok → (state : CoreState) → Agrees self.old.core state → result.1 ≡ is_piece (answer state (events.Take session)) }
        ensures calls { (state : CoreState) → Agrees self.old.core state →
            AddsCalls 0 (tally self.old.core self.old.eventful steps.old) (tally self.new.core self.new.eventful steps.new) }
        ensures assemblers { self.new.assemblers ≡ self.old.assemblers }
        ensures cause { result.0 ≡ Told.WriteFault → Rose (K.faults output.old) (K.faults output.new) }
        ensures count { K.faults output.old ≤ K.faults output.new }
    {
        let tick = self.core.now();
        match answer(&mut self.core, &Event::Take { id: session }, steps) {
            Ok(answer) => {
                let told = write_section(
                    tick,
                    Port::Data,
                    session,
                    answer.bytes(),
                    &mut self.pending,
                    output,
                );
                (told, is_piece(&answer))
            }
            Err(_) => (Told::OutOfMemory, false),
        }
    }
}

/// Whether the answer is a piece.
fn is_piece(answer: &Answer) -> bool
    ensures { result ≡ is_piece answer.now }
{
    matches!(answer, Answer::Piece(_))
}
