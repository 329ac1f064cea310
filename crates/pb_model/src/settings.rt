ghost use Rattle.std.specs.Prelude.{◌≡◌, ◌^◌, ◌<◌, ◌≤◌, true, slice_index_or, slice_set};
ghost use Rattle.pb_fields.specs.Slots.{IsSlot, role_at, type_at, kind_of};
ghost use Rattle.pb_fields.specs.Values.{IsRaw};
ghost use Rattle.pb_buses.specs.Delay.{wired, delayed, opening_input};
ghost use Rattle.pb_model.specs.Changes.{IsChange, IsSet};
ghost use Rattle.pb_model.specs.Tick.{kind_of as kind_of_block};
ghost use Rattle.pb_model.specs.Units.{value_read};
ghost use Rattle.pb_model.specs.Arming.{is_capture_idle, idle_by};
ghost use Rattle.pb_model.specs.Settings.{is_pos_mux, position_place, with_value, with_setting, changed, read_of};

use crate::blocks::Block;
use crate::boxes::BoxState;
use crate::changes::Change;
use crate::places::machine;
use pb_buses::{Machine, Mux};
use pb_fields::{FieldType, Role, Slot, field_type};
use pb_names::{ITSELF, bits, pcomp, seq};

impl BoxState {
    /// Takes a change. PCAP is armed only where it is idle, and disarmed only where it isn't.
    #[tactic(auto, using(crate::proofs::ArmLemmas::set_idle))]
    pub fn change(&mut self, change: Change)
        requires { IsChange self.old.blocks change }
        ensures left { self.new ≡ changed self.old change }
        ensures idle { is_capture_idle self.new.blocks ≡ idle_by change (is_capture_idle self.old.blocks) }
    {
        match change {
            Change::Set { slot, raw } => self.set(slot, raw),
            Change::Arm { room } => self.arm(room),
            Change::Disarm => self.disarm(),
        }
    }

    /// The value of a read field at this tick, that of a label being its number.
    pub fn read(&self, slot: Slot) -> u64
        requires slot { IsSlot slot }
        requires read { role_at slot ≡ Role.Read }
        ensures value { result ≡ read_of self.now.blocks slot }
        ensures in_range { IsRaw (kind_of slot) result }
    {
        let place = machine(slot.block, slot.instance);
        self.blocks[place as usize].read(slot)
    }

    /// The setting takes this raw value, and nothing else changes.
    fn set(&mut self, slot: Slot, raw: u64)
        requires { IsSet slot raw }
        ensures { self.new ≡ with_setting self.old slot raw }
    {
        if slot.block == bits::BLOCK {
            self.settings[slot.field as usize] = raw == 1;
        } else {
            let place = machine(slot.block, slot.instance);
            let block = &mut self.blocks[place as usize];
            block.set(slot, raw);
        }
    }
}

impl Block {
    /// The value of a read field of the block at its own tick, that of a label being its number.
    pub fn read(&self, slot: Slot) -> u64
        requires slot { IsSlot slot }
        requires read { role_at slot ≡ Role.Read }
        requires kind { kind_of_block self.now ≡ slot.block }
        ensures value { result ≡ value_read self.now.unit slot.field }
        ensures in_range { IsRaw (kind_of slot) result }
    {
        self.unit.read(slot.field)
    }

    /// The setting takes this raw value, and nothing else changes.
    pub fn set(&mut self, slot: Slot, raw: u64)
        requires set { IsSet slot raw }
        requires kind { kind_of_block self.old ≡ slot.block }
        ensures { self.new ≡ with_value slot raw self.old }
    {
        if slot.attr != ITSELF {
            delay(&mut self.bits, slot.field, raw as u8);
            return;
        }
        match field_type(slot) {
            FieldType::BitMux => wire(&mut self.bits, slot.field, raw as u8),
            FieldType::PosMux => self.positions[position_input(slot) as usize] = raw as u8,
            _ => self.unit.set(slot.field, raw),
        }
    }
}

/// Which position input of its block the field is.
fn position_input(slot: Slot) -> u8
    requires slot { IsSlot slot }
    requires mux { is_pos_mux (type_at slot) ≡ true }
    ensures place { result ≡ position_place slot }
    ensures few { result < 3 }
{
    if slot.block == seq::BLOCK {
        slot.field - seq::POSA
    } else {
        slot.field - pcomp::INP
    }
}

/// A bit input selects another entry from now on.
fn wire(inputs: &mut [Mux; 5], place: u8, select: u8)
    requires { place < 5 }
    ensures { inputs.new ≡ slice_set inputs.old place (wired (slice_index_or inputs.old place opening_input) select) }
{
    let mux = &mut inputs[place as usize];
    mux.wire(select);
}

/// A bit input takes another delay from now on.
fn delay(inputs: &mut [Mux; 5], place: u8, ticks: u8)
    requires place { place < 5 }
    requires ticks { ticks ≤ 31 }
    ensures { inputs.new ≡ slice_set inputs.old place (delayed (slice_index_or inputs.old place opening_input) ticks) }
{
    let mux = &mut inputs[place as usize];
    mux.set_delay(ticks);
}
