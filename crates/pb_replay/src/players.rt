ghost use Rattle.std.specs.Prelude.{◌≡◌, ℕ, ◌+◌, ◌<◌, ◌≤◌, List, [], length, map, All, IfOk};
ghost use Rattle.pb_ports.specs.Ports.{Rose};
ghost use Rattle.pb_still.specs.Eventful.{IsEventful};
ghost use Rattle.pb_going.specs.Sims.{outdated};
ghost use Rattle.pb_core.specs.Kept.{Agrees};
ghost use Rattle.pb_core.specs.Answer.{CoreState, opening, moment_of, after_all};
ghost use Rattle.pb_replay.specs.Script.{Command, CloseControl, OpenData, Take, CloseData, End, is_end};
ghost use Rattle.pb_replay.specs.Steps.{IsStep, IsSpan, act_deed, step_line, text_at as text_of_span};
ghost use Rattle.pb_replay.specs.Events.{nothing_waits, waits_after, events_of, events_from};
ghost use Rattle.pb_replay.specs.Output.{written, sections};
ghost use Rattle.pb_replay.specs.Plays.{Plays};
ghost use Rattle.pb_replay.specs.Pending.{PlaysLine, IsStopped, IsSilent};
ghost use Rattle.pb_replay.specs.Tallies.{tally, IsReady, Went, Spends};
ghost use Rattle.pb_replay.specs.Waiting.{AreFed};

use crate::assemblers::Assemblers;
use crate::feeding::no_command;
use crate::played::{Played, Told};
use crate::scripts::{Act, Span, Step};
use crate::sections::write_pending;
use pb_core::{Core, Event};
use pb_ports::Sink;
use pb_stim::Stimulus;
use pb_words::{OutOfMemory, Steps, Text};
use std::alloc::Global;
use std::sync::ledger::Ledger;

/// What stands while a script is played. The texts keep their memory from line to line.
#[derive(Drop)]
pub(crate) struct Player {
    pub(crate) alloc: Global,
    pub(crate) core: Core,
    pub(crate) assemblers: Assemblers,
    /// What a session was told of last: a command, or a reader that opened.
    pub(crate) event: Event,
    /// The sections that are still to be written.
    pub(crate) pending: Text,
    /// How many eventful ticks were made.
    pub(crate) eventful: u64,
}

impl Player {
    /// At the beginning of a script with this stimulus.
    pub(crate) fn new(alloc: Global, stimulus: Stimulus) -> Result<Player, OutOfMemory>
        ensures core { IfOk result (λ player. Agrees player.core (opening stimulus)) }
        ensures fed { IfOk result (λ player. AreFed player.assemblers nothing_waits) }
        ensures pending { IfOk result (λ player. player.pending ≡ []) }
        ensures first { IfOk result (λ player. player.eventful ≡ 0) }
        ensures known { IfOk result (λ player. outdated player.core.sim ≡ 0) }
    {
        let assemblers = Assemblers::new(alloc)?;
        match Core::new(alloc, stimulus) {
            Ok(core) => Ok(Player {
                alloc,
                core,
                assemblers,
                event: no_command(alloc),
                pending: Text::new(alloc),
                eventful: 0,
            }),
            Err(_) => Err(OutOfMemory),
        }
    }

    /// Plays the steps of a script of these bytes from its beginning to its end, and writes what is still to be written.
    pub(crate) fn play_steps<K: Sink, L: Ledger>(
        &mut self,
        bytes: &[u8],
        moments: &[Step],
        output: &mut K,
        steps: &mut Steps<L>,
    ) -> Played
        requires steps { All (IsStep bytes.now) moments.now }
        requires fed { AreFed self.old.assemblers nothing_waits }
        requires pending { self.old.pending ≡ [] }
        requires first { self.old.eventful ≡ 0 }
        ensures plays { (state : CoreState) → Agrees self.old.core state → IsEventful (moment_of state) →
            Plays state (events_from state nothing_waits (map (step_line bytes.now) moments.now)) result (K.held output.old) (K.held output.new) }
        ensures calls { (state : CoreState) → Agrees self.old.core state → IsEventful (moment_of state) →
            Spends state (events_from state nothing_waits (map (step_line bytes.now) moments.now)) (length moments.now) (steps.old + outdated self.old.core.sim) steps.new }
        ensures cause { result ≡ Played.WriteFault → Rose (K.faults output.old) (K.faults output.new) }
        ensures count { K.faults output.old ≤ K.faults output.new }
    {
        for moment in moments {
            match self.play_step(bytes, *moment, output, steps) {
                Played::Ok => {}
                Played::EventLimit { tick } => return self.stop_at(tick, output),
                end => return end,
            }
            if is_last(moment.act) {
                return write_pending(&mut self.pending, output).played();
            }
        }
        write_pending(&mut self.pending, output).played()
    }

    /// Writes what is still to be written, at the limit.
    fn stop_at<K: Sink>(&mut self, tick: u64, output: &mut K) -> Played
        ensures plays { IsStopped tick self.old.pending result (K.held output.old) (K.held output.new) }
        ensures cause { result ≡ Played.WriteFault → Rose (K.faults output.old) (K.faults output.new) }
        ensures count { K.faults output.old ≤ K.faults output.new }
    {
        match write_pending(&mut self.pending, output) {
            Told::Ok => Played::EventLimit { tick },
            end => end.played(),
        }
    }

    fn play_step<K: Sink, L: Ledger>(
        &mut self,
        bytes: &[u8],
        moment: Step,
        output: &mut K,
        steps: &mut Steps<L>,
    ) -> Played
        requires { IsStep bytes.now moment }
        ensures plays { (state : CoreState) → Agrees self.old.core state → (waiting : List (List ℕ)) → AreFed self.old.assemblers waiting →
            PlaysLine (sections state (events_of state waiting (step_line bytes.now moment))) result self.old.pending (K.held output.old) self.new.pending (K.held output.new) }
        ensures core { result ≡ Played.Ok → (state : CoreState) → Agrees self.old.core state → (waiting : List (List ℕ)) → AreFed self.old.assemblers waiting →
            Agrees self.new.core (after_all state (events_of state waiting (step_line bytes.now moment))) }
        ensures fed { result ≡ Played.Ok → (waiting : List (List ℕ)) → AreFed self.old.assemblers waiting → AreFed self.new.assemblers (waits_after waiting (step_line bytes.now moment)) }
        ensures went { (state : CoreState) → Agrees self.old.core state → IsReady state self.old.eventful → (waiting : List (List ℕ)) → AreFed self.old.assemblers waiting →
            Went 21 (IsSilent self.old.pending (K.held output.old) self.new.pending (K.held output.new)) result state (events_of state waiting (step_line bytes.now moment)) (tally self.old.core self.old.eventful steps.old) (tally self.new.core self.new.eventful steps.new) }
        ensures cause { result ≡ Played.WriteFault → Rose (K.faults output.old) (K.faults output.new) }
        ensures count { K.faults output.old ≤ K.faults output.new }
    {
        match moment.act {
            Act::Command(session, span) => {
                self.play_line(moment.tick, session, text_at(bytes, span), output, steps)
            }
            Act::CloseControl(session) => self.close_control(moment.tick, session, steps),
            Act::OpenData(session, span) => {
                self.open_data(moment.tick, session, text_at(bytes, span), output, steps)
            }
            Act::Take(session) => self.take(moment.tick, session, output, steps),
            Act::CloseData(session) => self.close_data(moment.tick, session, steps),
            Act::End => self.end(moment.tick, output, steps),
        }
    }
}

fn text_at(bytes: &[u8], span: Span) -> &[u8]
    requires { IsSpan bytes.now span }
    ensures { result.now ≡ text_of_span bytes.now span }
{
    &bytes[span.from..span.to]
}

/// Whether the script ends with this.
fn is_last(act: Act) -> bool
    ensures { (bytes : List ℕ) → result ≡ is_end (act_deed bytes act) }
{
    matches!(act, Act::End)
}
