ghost use Rattle.std.specs.Prelude.{◌≡◌, ◌≤◌, false, true, Some};
ghost use Rattle.pb_names.specs.declared.seq.TheConstants as seq;
ghost use Rattle.pb_tables.specs.Computed.{written, answer_of};
ghost use Rattle.pb_model.specs.declared.Change.TheVariants as changes;
ghost use Rattle.pb_model.specs.Changes.{IsChange, IsSet};
ghost use Rattle.pb_model.specs.Tables.{table_of, sequencer};
ghost use Rattle.pb_model.specs.Arming.{is_capture_idle, idle_by};
ghost use Rattle.pb_still.specs.Eventful.{Moment};
ghost use Rattle.pb_going.specs.Sims.{Agrees, now_of};
ghost use Rattle.pb_jump.specs.Changing.{changed_moment, written_moment, concerned, Costs, IsLeft, IsWritten};

use crate::sims::Sim;
use pb_fields::Slot;
use pb_model::{Change, machine};
use pb_names::{bits, pcap, seq};
use pb_words::{Refusal, Steps};
use std::sync::ledger::Ledger;

impl Sim {
    /// Takes a change. PCAP is armed only where it is idle, and disarmed only where it isn't. An event stands at
    /// now afterwards. At most one block call, and none where the block that is concerned stands at now already.
    pub fn change<L: Ledger>(&mut self, change: Change, steps: &mut Steps<L>)
        requires { IsChange (now_of self.old).blocks change }
        ensures agrees { (moment : Moment) → Agrees self.old moment → Agrees self.new (changed_moment moment change) }
        ensures tick { self.new.tick ≡ self.old.tick }
        ensures idle { is_capture_idle (now_of self.new).blocks ≡ idle_by change (is_capture_idle (now_of self.old).blocks) }
        ensures costs { Costs (concerned change) self.old self.new steps.old steps.new }
    {
        match change {
            Change::Set { slot, raw } => self.set(slot, raw, steps),
            Change::Arm { room } => self.arm(room, steps),
            Change::Disarm => self.disarm(steps),
        }
    }

    /// Writes the table of the sequencer of this number, 1 or 2, as `Rows::write` does. A refused write changes nothing of what
    /// stands. Where it is accepted an event stands at now afterwards. At most one block call, and none where the sequencer
    /// stands at now already.
    pub fn write_table<L: Ledger>(
        &mut self,
        instance: u8,
        append: bool,
        base64: bool,
        body: &[u8],
        steps: &mut Steps<L>,
    ) -> Result<(), Refusal>
        requires from_one { 1 ≤ instance }
        requires in_count { instance ≤ seq.INSTANCES }
        ensures told { result ≡ answer_of (written (table_of (now_of self.old).blocks instance) append base64 body.now) }
        ensures agrees { (moment : Moment) → Agrees self.old moment →
            Agrees self.new (written_moment moment instance (written (table_of (now_of self.old).blocks instance) append base64 body.now)) }
        ensures tick { self.new.tick ≡ self.old.tick }
        ensures idle { is_capture_idle (now_of self.new).blocks ≡ is_capture_idle (now_of self.old).blocks }
        ensures costs { Costs (Some (sequencer instance)) self.old self.new steps.old steps.new }
    {
        self.write(instance, append, base64, body, steps)
    }

    /// A setting takes a raw value.
    fn set<L: Ledger>(&mut self, slot: Slot, raw: u64, steps: &mut Steps<L>)
        requires { IsSet slot raw }
        ensures { IsLeft (changes.Set slot raw) self.old self.new steps.old steps.new }
    {
        self.stood = true;
        if slot.block == bits::BLOCK {
            self.settings[slot.field as usize] = raw == 1;
            return;
        }
        let place = machine(slot.block, slot.instance);
        let tick = self.tick;
        let lazy = &mut self.lazies[place as usize];
        lazy.set(slot, raw, tick, steps);
    }

    /// PCAP is armed, with room for so many records.
    fn arm<L: Ledger>(&mut self, room: u64, steps: &mut Steps<L>)
        requires { is_capture_idle (now_of self.old).blocks ≡ true }
        ensures { IsLeft (changes.Arm room) self.old self.new steps.old steps.new }
    {
        self.stood = true;
        let place = machine(pcap::BLOCK, pcap::INSTANCES);
        let tick = self.tick;
        let lazy = &mut self.lazies[place as usize];
        lazy.arm(room, tick, steps);
    }

    /// PCAP becomes idle.
    fn disarm<L: Ledger>(&mut self, steps: &mut Steps<L>)
        requires { is_capture_idle (now_of self.old).blocks ≡ false }
        ensures { IsLeft changes.Disarm self.old self.new steps.old steps.new }
    {
        self.stood = true;
        let place = machine(pcap::BLOCK, pcap::INSTANCES);
        let tick = self.tick;
        let lazy = &mut self.lazies[place as usize];
        lazy.disarm(tick, steps);
    }

    /// Writes the table of a sequencer, which is an event where it is accepted.
    fn write<L: Ledger>(
        &mut self,
        instance: u8,
        append: bool,
        base64: bool,
        body: &[u8],
        steps: &mut Steps<L>,
    ) -> Result<(), Refusal>
        requires from_one { 1 ≤ instance }
        requires in_count { instance ≤ seq.INSTANCES }
        ensures told { result ≡ answer_of (written (table_of (now_of self.old).blocks instance) append base64 body.now) }
        ensures left { IsWritten instance (written (table_of (now_of self.old).blocks instance) append base64 body.now)
            self.old self.new steps.old steps.new }
    {
        let place = machine(seq::BLOCK, instance);
        let tick = self.tick;
        let lazy = &mut self.lazies[place as usize];
        let told = lazy.write(append, base64, body, tick, steps);
        self.stood |= told.is_ok();
        told
    }
}
