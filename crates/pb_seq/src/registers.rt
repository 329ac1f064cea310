ghost use Rattle.std.specs.Prelude.{◌≡◌, ◌<◌};
ghost use Rattle.pb_seq.specs.Seq as definition;
ghost use Rattle.pb_seq.specs.Parts as parts;
ghost use Rattle.pb_tables.specs.Bodies.{AreWords};

use crate::settings::SeqSettings;
use crate::triggers::is_met;
use pb_buses::Inputs;
use pb_names::{seq, seq_state};
use pb_tables::{Rows, SeqRow};

/// What a SEQ is at.
#[derive(Clone, Copy, Debug, PartialEq, Eq)]
pub enum SeqState {
    /// Its table is empty.
    Unready,
    WaitEnable,
    WaitTrigger,
    Phase1,
    Phase2,
}

/// What ticks change of a SEQ.
#[derive(Clone, Copy, Debug, PartialEq, Eq)]
pub struct SeqRegisters {
    /// STATE.
    pub state: SeqState,
    /// TABLE_LINE: the row that is run, counted from 1.
    pub line: u16,
    /// LINE_REPEAT: which repeat of the row this is, counted from 1.
    pub line_repeat: u32,
    /// TABLE_REPEAT: which repeat of the table this is, counted from 1.
    pub table_repeat: u32,
    /// The ticks of 8 ns for which the phase still lasts.
    pub ticks_left: u64,
    /// OUTA to OUTF, as bits 0 to 5.
    pub out: u8,
    /// ACTIVE.
    pub active: bool,
    /// ENABLE as it was seen at the tick before.
    pub enable_before: bool,
    /// The table was written since the last tick.
    pub written: bool,
}

/// Whether there is one more repeat after this one.
fn goes_on(repeats: u32, repeat: u32) -> bool
    ensures { result ≡ definition.goes_on repeats repeat }
{
    repeats == 0 || repeat < repeats
}

impl SeqState {
    pub(crate) fn label(self) -> u8
        ensures { result ≡ definition.state_label self }
    {
        match self {
            SeqState::Unready => seq_state::UNREADY,
            SeqState::WaitEnable => seq_state::WAIT_ENABLE,
            SeqState::WaitTrigger => seq_state::WAIT_TRIGGER,
            SeqState::Phase1 => seq_state::PHASE1,
            SeqState::Phase2 => seq_state::PHASE2,
        }
    }
}

impl SeqRegisters {
    /// The row of the present line, and a row of zeros where there is none.
    fn present_row(self, rows: &Rows) -> SeqRow
        requires { AreWords rows.now }
        ensures value { result ≡ definition.present_row rows.now self }
        ensures first { result.out1 < 64 }
        ensures second { result.out2 < 64 }
    {
        let i = usize::from(self.line).saturating_sub(1);
        if 4 * i < rows.len() {
            rows.row(i)
        } else {
            SeqRow {
                repeats: 0,
                trigger: 0,
                out1: 0,
                out2: 0,
                position: 0,
                time1: 0,
                time2: 0,
            }
        }
    }

    fn cleared(self, state: SeqState) -> SeqRegisters
        ensures { result ≡ definition.clear self state }
    {
        SeqRegisters {
            state,
            line: 0,
            line_repeat: 0,
            table_repeat: 0,
            ticks_left: 0,
            out: 0,
            active: false,
            ..self
        }
    }

    fn phase_one(self, settings: &SeqSettings, row: SeqRow) -> SeqRegisters
        ensures { result ≡ definition.phase_one settings.now row self }
    {
        SeqRegisters {
            state: SeqState::Phase1,
            ticks_left: settings.ticks(row.time1),
            out: row.out1,
            ..self
        }
    }

    fn phase_two(self, settings: &SeqSettings, row: SeqRow) -> SeqRegisters
        ensures { result ≡ definition.phase_two settings.now row self }
    {
        SeqRegisters {
            state: SeqState::Phase2,
            ticks_left: settings.ticks(row.time2.max(1)),
            out: row.out2,
            ..self
        }
    }

    /// The trigger of the present line is tested.
    fn try_trigger(self, settings: &SeqSettings, rows: &Rows, inputs: &Inputs) -> SeqRegisters
        requires words { AreWords rows.now }
        requires shows { self.out < 64 }
        ensures value { result ≡ definition.try settings.now rows.now self inputs.now }
        ensures shows { result.out < 64 }
    {
        let row = self.present_row(rows);
        if !is_met(row, inputs) {
            return SeqRegisters {
                state: SeqState::WaitTrigger,
                ticks_left: 0,
                ..self
            };
        }
        if row.time1 == 0 {
            self.phase_two(settings, row)
        } else {
            self.phase_one(settings, row)
        }
    }

    /// Enabled while it waits for that.
    fn started(self, settings: &SeqSettings, rows: &Rows, inputs: &Inputs) -> SeqRegisters
        requires words { AreWords rows.now }
        requires shows { self.out < 64 }
        ensures value { result ≡ definition.wait_enable settings.now rows.now self inputs.now }
        ensures shows { result.out < 64 }
    {
        if self.enable_before || !inputs.bits[seq::ENABLE as usize] {
            return self;
        }
        let begun = SeqRegisters {
            line: 1,
            line_repeat: 1,
            table_repeat: 1,
            active: true,
            ..self
        };
        begun.try_trigger(settings, rows, inputs)
    }

    fn next_line_repeat(self) -> SeqRegisters
        ensures { result ≡ definition.next_line_repeat self }
    {
        SeqRegisters {
            line_repeat: self.line_repeat.wrapping_add(1),
            ..self
        }
    }

    fn next_line(self) -> SeqRegisters
        requires { self.line < 0xffff }
        ensures { result ≡ definition.next_line self }
    {
        SeqRegisters {
            line: self.line + 1,
            line_repeat: 1,
            ..self
        }
    }

    fn next_table_repeat(self) -> SeqRegisters
        ensures { result ≡ definition.next_table_repeat self }
    {
        SeqRegisters {
            line: 1,
            line_repeat: 1,
            table_repeat: self.table_repeat.wrapping_add(1),
            ..self
        }
    }

    /// A repeat of the row is over.
    fn end_of_repeat(self, settings: &SeqSettings, rows: &Rows, inputs: &Inputs) -> SeqRegisters
        requires words { AreWords rows.now }
        requires shows { self.out < 64 }
        ensures value { result ≡ definition.end_of_repeat settings.now rows.now self inputs.now }
        ensures shows { result.out < 64 }
    {
        let row = self.present_row(rows);
        if goes_on(u32::from(row.repeats), self.line_repeat) {
            self.next_line_repeat().try_trigger(settings, rows, inputs)
        } else {
            self.end_of_line(settings, rows, inputs)
        }
    }

    /// So is its last repeat.
    fn end_of_line(self, settings: &SeqSettings, rows: &Rows, inputs: &Inputs) -> SeqRegisters
        requires words { AreWords rows.now }
        requires shows { self.out < 64 }
        ensures value { result ≡ definition.end_of_line settings.now rows.now self inputs.now }
        ensures shows { result.out < 64 }
    {
        if usize::from(self.line) < rows.len() / 4 {
            self.next_line().try_trigger(settings, rows, inputs)
        } else {
            self.end_of_table(settings, rows, inputs)
        }
    }

    /// So is the last line.
    fn end_of_table(self, settings: &SeqSettings, rows: &Rows, inputs: &Inputs) -> SeqRegisters
        requires words { AreWords rows.now }
        requires shows { self.out < 64 }
        ensures value { result ≡ definition.end_of_table settings.now rows.now self inputs.now }
        ensures shows { result.out < 64 }
    {
        if goes_on(settings.repeats, self.table_repeat) {
            self.next_table_repeat().try_trigger(settings, rows, inputs)
        } else {
            self.cleared(SeqState::WaitEnable)
        }
    }

    /// The table was written since the last tick.
    fn rewritten(self, rows: &Rows) -> SeqRegisters
        ensures { result ≡ definition.rewritten rows.now self }
    {
        if rows.len() == 0 {
            self.cleared(SeqState::Unready)
        } else {
            self.cleared(SeqState::WaitEnable)
        }
    }

    fn one_tick_fewer(self) -> SeqRegisters
        requires { 0 < self.ticks_left }
        ensures { result ≡ definition.one_tick_fewer self }
    {
        SeqRegisters {
            ticks_left: self.ticks_left - 1,
            ..self
        }
    }

    /// Enabled, in a phase.
    fn in_phase(self, settings: &SeqSettings, rows: &Rows, inputs: &Inputs) -> SeqRegisters
        requires words { AreWords rows.now }
        requires shows { self.out < 64 }
        ensures value { result ≡ parts.in_phase settings.now rows.now self inputs.now }
        ensures shows { result.out < 64 }
    {
        if self.ticks_left > 1 {
            return self.one_tick_fewer();
        }
        if self.state == SeqState::Phase1 {
            self.phase_two(settings, self.present_row(rows))
        } else {
            self.end_of_repeat(settings, rows, inputs)
        }
    }

    /// The registers one tick later, but for the kept input and the mark.
    fn turned(self, settings: &SeqSettings, rows: &Rows, inputs: &Inputs) -> SeqRegisters
        requires words { AreWords rows.now }
        requires shows { self.out < 64 }
        ensures value { result ≡ definition.turned settings.now rows.now self inputs.now }
        ensures shows { result.out < 64 }
    {
        if self.written {
            return self.rewritten(rows);
        }
        if self.state == SeqState::Unready {
            return self;
        }
        if !inputs.bits[seq::ENABLE as usize] {
            return self.cleared(SeqState::WaitEnable);
        }
        match self.state {
            SeqState::Unready => self,
            SeqState::WaitEnable => self.started(settings, rows, inputs),
            SeqState::WaitTrigger => self.try_trigger(settings, rows, inputs),
            SeqState::Phase1 | SeqState::Phase2 => self.in_phase(settings, rows, inputs),
        }
    }

    /// The registers one tick later.
    pub(crate) fn after(self, settings: &SeqSettings, rows: &Rows, inputs: &Inputs) -> SeqRegisters
        requires words { AreWords rows.now }
        requires shows { self.out < 64 }
        ensures value { result ≡ definition.registers_after settings.now rows.now self inputs.now }
        ensures shows { result.out < 64 }
    {
        SeqRegisters {
            enable_before: inputs.bits[seq::ENABLE as usize],
            written: false,
            ..self.turned(settings, rows, inputs)
        }
    }
}
