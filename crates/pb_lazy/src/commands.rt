ghost use Rattle.std.specs.Prelude.{◌≡◌, ◌+◌, ◌-◌, ◌^◌, ◌<◌, ◌≤◌, true, false};
ghost use Rattle.pb_names.specs.declared.pcap.TheConstants as pcap;
ghost use Rattle.pb_names.specs.declared.seq.TheConstants as seq;
ghost use Rattle.pb_buses.specs.Rules.{AreCalm};
ghost use Rattle.pb_tables.specs.Computed.{written, answer_of};
ghost use Rattle.pb_model.specs.Changes.{IsSet};
ghost use Rattle.pb_model.specs.Units.{rules, words_of, is_idle};
ghost use Rattle.pb_model.specs.Tick.{kind_of as kind_of_block};
ghost use Rattle.pb_lazy.specs.Lazy.{awake};
ghost use Rattle.pb_lazy.specs.Commands.{set_lazy, armed_lazy, disarmed_lazy, written_lazy};

use crate::lazies::Lazy;
use pb_fields::Slot;
use pb_words::{Refusal, Steps};
use std::sync::ledger::Ledger;

impl Lazy {
    /// A setting takes a raw value at this tick.
    pub fn set<L: Ledger>(&mut self, slot: Slot, raw: u64, tick: u64, steps: &mut Steps<L>)
        requires set { IsSet slot raw }
        requires kind { kind_of_block self.old.block ≡ slot.block }
        requires own { self.old.own ≤ tick }
        requires at { self.old.at ≤ tick }
        requires calm { AreCalm rules self.old.kept self.old.own (tick - self.old.own) self.old.block.unit }
        requires tick { tick < 2 ^ 62 }
        ensures left { self.new ≡ set_lazy slot raw tick self.old }
        ensures one { steps.new ≤ steps.old + 1 }
        ensures none { self.old.own ≡ tick → steps.new ≡ steps.old }
    {
        self.catch_up(tick, steps);
        self.settle(tick);
        self.block.set(slot, raw);
        self.turn = tick;
        self.wired = true;
        self.outdated = true;
    }

    /// PCAP is armed at this tick, with room for so many records.
    pub fn arm<L: Ledger>(&mut self, room: u64, tick: u64, steps: &mut Steps<L>)
        requires kind { kind_of_block self.old.block ≡ pcap.BLOCK }
        requires idle { is_idle (awake tick self.old).block.unit ≡ true }
        requires own { self.old.own ≤ tick }
        requires calm { AreCalm rules self.old.kept self.old.own (tick - self.old.own) self.old.block.unit }
        requires tick { tick < 2 ^ 62 }
        ensures left { self.new ≡ armed_lazy room tick self.old }
        ensures one { steps.new ≤ steps.old + 1 }
        ensures none { self.old.own ≡ tick → steps.new ≡ steps.old }
    {
        self.catch_up(tick, steps);
        self.block.unit.arm(room);
        self.outdated = true;
    }

    /// PCAP becomes idle at this tick.
    pub fn disarm<L: Ledger>(&mut self, tick: u64, steps: &mut Steps<L>)
        requires kind { kind_of_block self.old.block ≡ pcap.BLOCK }
        requires busy { is_idle (awake tick self.old).block.unit ≡ false }
        requires own { self.old.own ≤ tick }
        requires calm { AreCalm rules self.old.kept self.old.own (tick - self.old.own) self.old.block.unit }
        requires tick { tick < 2 ^ 62 }
        ensures left { self.new ≡ disarmed_lazy tick self.old }
        ensures one { steps.new ≤ steps.old + 1 }
        ensures none { self.old.own ≡ tick → steps.new ≡ steps.old }
    {
        self.catch_up(tick, steps);
        self.block.unit.disarm();
        self.outdated = true;
    }

    /// Writes the table of a sequencer at this tick, as `Rows::write` does. A refused write changes nothing of the block.
    pub fn write<L: Ledger>(
        &mut self,
        append: bool,
        base64: bool,
        body: &[u8],
        tick: u64,
        steps: &mut Steps<L>,
    ) -> Result<(), Refusal>
        requires kind { kind_of_block self.old.block ≡ seq.BLOCK }
        requires own { self.old.own ≤ tick }
        requires calm { AreCalm rules self.old.kept self.old.own (tick - self.old.own) self.old.block.unit }
        requires tick { tick < 2 ^ 62 }
        ensures told { result ≡ answer_of (written (words_of (awake tick self.old).block.unit) append base64 body.now) }
        ensures left { self.new ≡ written_lazy tick (written (words_of (awake tick self.old).block.unit) append base64 body.now) self.old }
        ensures one { steps.new ≤ steps.old + 1 }
        ensures none { self.old.own ≡ tick → steps.new ≡ steps.old }
    {
        self.catch_up(tick, steps);
        match self.block.unit.write(append, base64, body) {
            Ok(()) => {
                self.outdated = true;
                Ok(())
            }
            Err(refusal) => Err(refusal),
        }
    }
}
