ghost use Rattle.std.specs.Prelude.{◌≡◌, ◌<◌, ◌+◌, ◌^◌, IfOk, OnOk, IfErr, OnErr};
ghost use Rattle.pb_tables.specs.Tables.{IsWritten, IsRefused};
ghost use Rattle.pb_tables.specs.Computed.{written, answer_of};

use crate::registers::{SeqRegisters, SeqState};
use crate::settings::SeqSettings;
use pb_buses::{Emit, Inputs, Machine, Outputs};
use pb_names::seq;
use pb_tables::Rows;
use pb_words::{OutOfMemory, Refusal, Steps};
use std::alloc::Global;
use std::marker::Model;
use std::sync::ledger::Ledger;

/// A SEQ: outputs by a table.
#[derive(Drop)]
pub struct Seq {
    settings: SeqSettings,
    registers: SeqRegisters,
    rows: Rows,
}

impl Model for Seq {
    ghost use Rattle.pb_seq.specs.Seq.{Sequencer};
    ghost use Rattle.pb_seq.specs.Parts.{CanShow};
    ghost use Rattle.pb_tables.specs.Bodies.{AreWords};

    ghost Value = { Sequencer };

    ghost view = { λ b. record { settings = b.settings; registers = b.registers; table = b.rows } };

    ghost invariant = { λ b. CanShow b.registers × AreWords b.rows };
}

impl Seq {
    ghost use Rattle.pb_seq.specs.Seq as definition;

    /// A SEQ as the box opens. It takes all the memory that it needs.
    pub fn new(alloc: Global) -> Result<Seq, OutOfMemory>
        ensures { IfOk result (λ sequencer. sequencer ≡ definition.opening) }
    {
        let rows = Rows::new(alloc)?;
        Ok(Seq {
            settings: SeqSettings {
                prescale: 0,
                repeats: 1,
            },
            registers: SeqRegisters {
                state: SeqState::Unready,
                line: 0,
                line_repeat: 0,
                table_repeat: 0,
                ticks_left: 0,
                out: 0,
                active: false,
                enable_before: false,
                written: false,
            },
            rows,
        })
    }

    /// Writes the words of a body, numbers or base64, in place of the table's or behind them, and refuses a body
    /// as `Rows::write` does; then nothing changes. After an accepted write, also of an empty body, the
    /// sequencer stops at the next tick.
    #[tactic(auto, using(crate::proofs::WrittenLemmas::written_left, crate::proofs::WrittenLemmas::refused_left))]
    pub fn write(&mut self, append: bool, base64: bool, body: &[u8]) -> Result<(), Refusal>
        ensures ok { OnOk result (IsWritten self.old.table append base64 body.now self.new.table) }
        ensures marked { OnOk result (self.new ≡ definition.with_table self.old self.new.table) }
        ensures err { IfErr result (IsRefused self.old.table append base64 body.now) }
        ensures same { OnErr result (self.new ≡ self.old) }
        ensures told { result ≡ answer_of (written self.old.table append base64 body.now) }
        ensures left { self.new ≡ definition.with_written (written self.old.table append base64 body.now) self.old }
    {
        match self.rows.write(append, base64, body) {
            Ok(()) => {}
            Err(refusal) => return Err(refusal),
        }
        self.registers.written = true;
        Ok(())
    }

    /// The table.
    pub fn rows(&self) -> &Rows
        ensures { result.now ≡ self.now.table }
    {
        &self.rows
    }

    /// The value of a read field, by its place in the catalogue: STATE, as the number of its label,
    /// TABLE_LINE, LINE_REPEAT or TABLE_REPEAT.
    pub fn read(&self, field: u8) -> u64
        requires { definition.IsRead field }
        ensures value { result ≡ definition.value_read self.now field }
        ensures bound { result < 2 ^ 32 }
    {
        match field {
            seq::STATE => u64::from(self.registers.state.label()),
            seq::TABLE_LINE => u64::from(self.registers.line),
            seq::LINE_REPEAT => u64::from(self.registers.line_repeat),
            seq::TABLE_REPEAT => u64::from(self.registers.table_repeat),
            _ => unreachable!(),
        }
    }

    /// One tick of the block, which emits nothing.
    pub fn advance<L: Ledger>(&mut self, inputs: &Inputs, tick: u64, steps: &mut Steps<L>)
        requires { tick < 2 ^ 62 }
        ensures next { self.new ≡ definition.rules.next self.old inputs.now tick }
        ensures counts { steps.new ≡ steps.old + 1 }
    {
        steps.tick();
        self.registers = self.registers.after(&self.settings, &self.rows, inputs);
    }
}

impl Machine for Seq {
    ghost use Rattle.pb_seq.specs.Seq as definition;

    ghost rules = { definition.rules };

    ghost shown = { definition.shown };

    ghost settable = { definition.IsSettable };

    ghost with_field = { definition.with_field };

    fn step<L: Ledger>(&mut self, inputs: &Inputs, tick: u64, steps: &mut Steps<L>) -> Emit {
        self.advance(inputs, tick, steps);
        Emit::Nothing
    }

    fn horizon<L: Ledger>(&self, inputs: &Inputs, tick: u64, steps: &mut Steps<L>) -> Option<u128> {
        steps.tick();
        if !self.registers.is_still(&self.settings, &self.rows, inputs) {
            return Some(0);
        }
        if self.registers.is_in_phase() {
            Some(u128::from(self.registers.ticks_left.saturating_sub(1)))
        } else {
            None
        }
    }

    fn coast<L: Ledger>(&mut self, inputs: &Inputs, tick: u64, ticks: u64, steps: &mut Steps<L>) {
        steps.tick();
        self.registers = self
            .registers
            .coasted(&self.settings, &self.rows, inputs, ticks);
    }

    fn outputs(&self) -> Outputs {
        Outputs {
            bits: self.registers.out + 64 * u8::from(self.registers.active),
            position: 0,
        }
    }

    fn set(&mut self, field: u8, raw: u64) {
        match field {
            seq::PRESCALE => self.settings.prescale = raw as u32,
            seq::REPEATS => self.settings.repeats = raw as u32,
            _ => {}
        }
    }

    ghost counts_unseen = { definition.counts_unseen };
}
