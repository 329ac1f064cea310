ghost use Rattle.std.specs.Prelude.{◌≡◌, ℕ, ◌+◌, ◌≤◌, Some};
ghost use Rattle.pb_names.specs.declared.lut.TheConstants as lut;
ghost use Rattle.pb_names.specs.declared.pcap.TheConstants as pcap;
ghost use Rattle.pb_fields.specs.Places.{count_of};
ghost use Rattle.pb_fields.specs.Slots.{IsSlot, role_at, kind_of};
ghost use Rattle.pb_fields.specs.Values.{IsRaw};
ghost use Rattle.pb_model.specs.Machines.{name};
ghost use Rattle.pb_model.specs.Settings.{read_of, block_of_slot};
ghost use Rattle.pb_still.specs.Eventful.{Moment};
ghost use Rattle.pb_going.specs.Sims.{Agrees, now_of, outdated};
ghost use Rattle.pb_jump.specs.Changing.{own_of, Costs, IsBrought, IsPeeked, AreAwake};

use crate::sims::Sim;
use pb_fields::{Role, Slot, instances};
use pb_model::machine;
use pb_names::{div, pcomp, pulse, seq};
use pb_words::Steps;
use std::sync::ledger::Ledger;

impl Sim {
    /// The value of a read field now, that of a label being its number. At most one block call, and none where the block
    /// stands at now already.
    pub fn peek<L: Ledger>(&mut self, slot: Slot, steps: &mut Steps<L>) -> u64
        requires slot { IsSlot slot }
        requires read { role_at slot ≡ Role.Read }
        ensures value { result ≡ read_of (now_of self.old).blocks slot }
        ensures in_range { IsRaw (kind_of slot) result }
        ensures now { now_of self.new ≡ now_of self.old }
        ensures agrees { (moment : Moment) → Agrees self.old moment → Agrees self.new moment }
        ensures costs { Costs (Some (block_of_slot slot)) self.old self.new steps.old steps.new }
        ensures known { outdated self.new ≡ outdated self.old }
    {
        self.bring(slot.block, slot.instance, steps);
        self.value(slot)
    }

    /// Brings each block that has read fields to now, for `read`. There are twelve of them.
    pub fn wake<L: Ledger>(&mut self, steps: &mut Steps<L>)
        ensures now { now_of self.new ≡ now_of self.old }
        ensures agrees { (moment : Moment) → Agrees self.old moment → Agrees self.new moment }
        ensures known { outdated self.new ≡ outdated self.old }
        ensures awake { AreAwake self.new }
        ensures counts { steps.new ≤ steps.old + 12 }
    {
        self.bring_kind(div::BLOCK, steps);
        self.bring_kind(pulse::BLOCK, steps);
        self.bring_kind(seq::BLOCK, steps);
        self.bring_kind(pcomp::BLOCK, steps);
    }

    /// The value of a read field now, that of a label being its number, where `wake` was called at this tick.
    pub fn read(&self, slot: Slot) -> u64
        requires slot { IsSlot slot }
        requires read { role_at slot ≡ Role.Read }
        requires awake { AreAwake self.now }
        ensures value { result ≡ read_of (now_of self.now).blocks slot }
        ensures in_range { IsRaw (kind_of slot) result }
    {
        self.value(slot)
    }

    /// The value of a read field of a block that stands at now.
    fn value(&self, slot: Slot) -> u64
        requires slot { IsSlot slot }
        requires read { role_at slot ≡ Role.Read }
        requires own { own_of self.now (block_of_slot slot) ≡ self.now.tick }
        ensures value { result ≡ read_of (now_of self.now).blocks slot }
        ensures in_range { IsRaw (kind_of slot) result }
    {
        let place = machine(slot.block, slot.instance);
        let lazy = &self.lazies[place as usize];
        lazy.block.read(slot)
    }

    /// Brings a block to now.
    fn bring<L: Ledger>(&mut self, kind: u8, instance: u8, steps: &mut Steps<L>)
        requires from_lut { lut.BLOCK ≤ kind }
        requires to_pcap { kind ≤ pcap.BLOCK }
        requires from_one { 1 ≤ instance }
        requires in_count { instance ≤ count_of kind }
        ensures { IsPeeked (name kind instance) self.old self.new steps.old steps.new }
    {
        let place = machine(kind, instance);
        let tick = self.tick;
        let lazy = &mut self.lazies[place as usize];
        lazy.catch_up(tick, steps);
    }

    /// Brings all blocks of a kind to now.
    fn bring_kind<L: Ledger>(&mut self, kind: u8, steps: &mut Steps<L>)
        requires from_lut { lut.BLOCK ≤ kind }
        requires to_pcap { kind ≤ pcap.BLOCK }
        ensures brought { IsBrought self.old self.new }
        ensures awake { (number : ℕ) → 1 ≤ number → number ≤ count_of kind → own_of self.new (name kind number) ≡ self.new.tick }
        ensures counts { steps.new ≤ steps.old + count_of kind }
    {
        for before in 0..instances(kind) {
            self.bring(kind, before + 1, steps);
        }
    }
}
