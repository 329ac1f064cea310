ghost use Rattle.std.specs.Prelude.{◌≡◌, ◌≤◌, OnErr};
ghost use Rattle.pb_names.specs.declared.seq.TheConstants as seq;
ghost use Rattle.pb_tables.specs.Computed.{written, answer_of};
ghost use Rattle.pb_model.specs.Units.{words_of};
ghost use Rattle.pb_model.specs.Tick.{kind_of};
ghost use Rattle.pb_model.specs.Arming.{is_capture_idle};
ghost use Rattle.pb_model.specs.Tables.{table_of, block_left, table_left};

use crate::blocks::Block;
use crate::boxes::BoxState;
use crate::places::machine;
use pb_names::seq;
use pb_tables::Rows;
use pb_words::Refusal;

impl BoxState {
    /// The table of the sequencer of this number, 1 or 2.
    pub fn table(&self, instance: u8) -> &Rows
        requires from_one { 1 ≤ instance }
        requires in_count { instance ≤ seq.INSTANCES }
        ensures { result.now ≡ table_of self.now.blocks instance }
    {
        let place = machine(seq::BLOCK, instance);
        self.blocks[place as usize].unit.rows()
    }

    /// Writes the table of the sequencer of this number, 1 or 2, by the words of a body, numbers or base64, in place
    /// of its words or behind them, and refuses a body as `Rows::write` does. A refused write changes nothing. An
    /// accepted one stops the sequencer at the next tick.
    pub fn write_table(
        &mut self,
        instance: u8,
        append: bool,
        base64: bool,
        body: &[u8],
    ) -> Result<(), Refusal>
        requires from_one { 1 ≤ instance }
        requires in_count { instance ≤ seq.INSTANCES }
        ensures told { result ≡ answer_of (written (table_of self.old.blocks instance) append base64 body.now) }
        ensures left { self.new ≡ table_left self.old instance (written (table_of self.old.blocks instance) append base64 body.now) }
        ensures same { OnErr result (self.new ≡ self.old) }
        ensures idle { is_capture_idle self.new.blocks ≡ is_capture_idle self.old.blocks }
    {
        let place = machine(seq::BLOCK, instance);
        let block = &mut self.blocks[place as usize];
        block.write(append, base64, body)
    }
}

impl Block {
    /// Writes the table of a sequencer, as `Rows::write` does. A refused write changes nothing.
    #[tactic(auto, using(crate::proofs::TableLemmas::block_is_left))]
    pub fn write(&mut self, append: bool, base64: bool, body: &[u8]) -> Result<(), Refusal>
        requires { kind_of self.old ≡ seq.BLOCK }
        ensures told { result ≡ answer_of (written (words_of self.old.unit) append base64 body.now) }
        ensures left { self.new ≡ block_left self.old (written (words_of self.old.unit) append base64 body.now) }
    {
        self.unit.write(append, base64, body)
    }
}
