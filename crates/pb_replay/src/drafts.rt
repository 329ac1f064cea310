use crate::lines::{ReadDeed, ReadLine};
use crate::scripts::{Act, Script, Span, Step};
use pb_stim::Stimulus;
use pb_words::{OutOfMemory, Text};
use std::alloc::Global;

/// A script of which some lines have been read.
#[derive(Debug, Drop)]
pub(crate) struct Draft<'a> {
    /// The bytes of the script, among which the texts of its lines stand.
    pub(crate) bytes: &'a [u8],
    pub(crate) stimulus: Stimulus,
    pub(crate) steps: Vec<Step>,
}

ghost use Rattle.std.specs.Prelude.{◌≡◌, ◌+◌, ◌-◌, ◌<◌, ◌≤◌, ◌^◌, [], ◌∷◌, ◌++◌, map, length, slice_range, All, OnOk, IfOk};
ghost use Rattle.pb_stim.specs.Stimulus.{last_tick};
ghost use Rattle.pb_replay.specs.Script.{Timed};
ghost use Rattle.pb_replay.specs.Lines.{line_of, deed_of, IsReadLine, IsReadDeed};
ghost use Rattle.pb_replay.specs.Kept.{rows_of, played_of};
ghost use Rattle.pb_replay.specs.Steps.{step_line, IsStep, IsSpan, text_at};
ghost use Rattle.pb_replay.specs.Adding.{EndsAt, TextEndsAt, MayBeAdded};

impl<'a> Draft<'a> {
    /// No lines of this script.
    pub(crate) fn new(alloc: Global, bytes: &'a [u8]) -> Draft<'a>
        ensures bytes { result.bytes.now ≡ bytes.now }
        ensures rows { result.stimulus ≡ [] }
        ensures steps { result.steps.items ≡ [] }
    {
        Draft {
            bytes,
            stimulus: Stimulus::new(alloc),
            steps: Vec::new(alloc),
        }
    }

    /// Adds a line whose newline stands at this place of the script.
    pub(crate) fn add(&mut self, line: ReadLine<'_>, end: usize) -> Result<(), OutOfMemory>
        requires line { IsReadLine line }
        requires place { MayBeAdded self.old.bytes.now end (last_tick 0 self.old.stimulus) line }
        requires steps { All (IsStep self.old.bytes.now) self.old.steps.items }
        ensures bytes { OnOk result (self.new.bytes.now ≡ self.old.bytes.now) }
        ensures rows { OnOk result (self.new.stimulus ≡ self.old.stimulus ++ rows_of (line_of line.entry)) }
        ensures lines { OnOk result (map (step_line self.old.bytes.now) self.new.steps.items ≡ map (step_line self.old.bytes.now) self.old.steps.items ++ played_of (line_of line.entry)) }
        ensures steps { OnOk result (All (IsStep self.old.bytes.now) self.new.steps.items) }
    {
        match line {
            ReadLine::Skipped => Ok(()),
            ReadLine::Timed(tick, deed) => self.add_deed(tick, deed, end),
        }
    }

    fn add_deed(&mut self, tick: u64, deed: ReadDeed<'_>, end: usize) -> Result<(), OutOfMemory>
        requires small { tick < 2 ^ 62 }
        requires deed { IsReadDeed deed }
        requires order { last_tick 0 self.old.stimulus ≤ tick }
        requires text { TextEndsAt self.old.bytes.now end deed }
        requires steps { All (IsStep self.old.bytes.now) self.old.steps.items }
        ensures bytes { OnOk result (self.new.bytes.now ≡ self.old.bytes.now) }
        ensures rows { OnOk result (self.new.stimulus ≡ self.old.stimulus ++ rows_of (Timed tick (deed_of deed.entry))) }
        ensures lines { OnOk result (map (step_line self.old.bytes.now) self.new.steps.items ≡ map (step_line self.old.bytes.now) self.old.steps.items ++ played_of (Timed tick (deed_of deed.entry))) }
        ensures steps { OnOk result (All (IsStep self.old.bytes.now) self.new.steps.items) }
    {
        match deed {
            ReadDeed::Level(input, value) => self.stimulus.push(tick, input, value),
            ReadDeed::Command(session, text) => self.add_act(
                tick,
                Act::Command(session, span_of(text, end)),
            ),
            ReadDeed::CloseControl(session) => self.add_act(tick, Act::CloseControl(session)),
            ReadDeed::OpenData(session, options) => self.add_act(
                tick,
                Act::OpenData(session, span_of(options, end)),
            ),
            ReadDeed::Take(session) => self.add_act(tick, Act::Take(session)),
            ReadDeed::CloseData(session) => self.add_act(tick, Act::CloseData(session)),
            ReadDeed::End => self.add_act(tick, Act::End),
        }
    }

    fn add_act(&mut self, tick: u64, act: Act) -> Result<(), OutOfMemory>
        requires step { IsStep self.old.bytes.now (record { tick = tick; act = act }) }
        requires steps { All (IsStep self.old.bytes.now) self.old.steps.items }
        ensures bytes { OnOk result (self.new.bytes.now ≡ self.old.bytes.now) }
        ensures rows { OnOk result (self.new.stimulus ≡ self.old.stimulus) }
        ensures lines { OnOk result (map (step_line self.old.bytes.now) self.new.steps.items ≡ map (step_line self.old.bytes.now) self.old.steps.items ++ step_line self.old.bytes.now (record { tick = tick; act = act }) ∷ []) }
        ensures steps { OnOk result (All (IsStep self.old.bytes.now) self.new.steps.items) }
    {
        self.steps.push(Step { tick, act })?;
        Ok(())
    }

    /// The script of these lines, with its bytes.
    pub(crate) fn keep(self, alloc: Global) -> Result<Script, OutOfMemory>
        requires { All (IsStep self.bytes.now) self.steps.items }
        ensures { IfOk result (λ script. script ≡ record { rows = self.entry.stimulus; lines = map (step_line self.entry.bytes.now) self.entry.steps.items }) }
    {
        let mut bytes = Text::new(alloc);
        bytes.append(self.bytes)?;
        Ok(Script {
            stimulus: self.stimulus,
            bytes,
            steps: self.steps,
        })
    }
}

/// Where a text stands that ends there.
fn span_of(text: &[u8], end: usize) -> Span
    requires { length text.now ≤ end }
    ensures from { result.from ≡ end - length text.now }
    ensures to { result.to ≡ end }
{
    Span {
        from: end - text.len(),
        to: end,
    }
}
