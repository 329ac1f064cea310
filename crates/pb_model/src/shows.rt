ghost use Rattle.std.specs.Prelude.{◌≡◌, ◌+◌, ◌<◌, ◌≤◌, ◌++◌, length, slice_index};
ghost use Rattle.std.specs.List.{flat_map};
ghost use Rattle.pb_model.specs.Units.{bit_outputs, position_outputs};
ghost use Rattle.pb_model.specs.Tick.{kind_of, bits_of, positions_of};
ghost use Rattle.pb_model.specs.Machines.{machine_kinds};
ghost use Rattle.pb_model.specs.Kept.{with_bits, with_positions};
ghost use Rattle.pb_model.specs.Parts.{bit_entry, position_entry, shown_at};

use crate::blocks::Block;
use crate::places::COUNTERS;
use pb_buses::{Buses, Machine};
use pb_names::{counter, inenc};

/// The entry of the first bit output of each block, by its place among those with a machine.
static BIT_ENTRIES: [u8; 35] = [
    6, 7, 8, 9, 10, 11, 12, 13, 14, 15, 16, 17, 18, 20, 22, 24, 26, 27, 28, 29, 30, 31, 32, 33, 34,
    35, 36, 37, 38, 39, 40, 47, 54, 56, 58,
];

impl Block {
    /// Puts the block's outputs on the bus at a tick. The block stands at this place among those with a machine.
    pub fn show(&self, place: u8, buses: &mut Buses, tick: u64)
        requires place { place < 35 }
        requires kind { kind_of self.now ≡ slice_index machine_kinds place }
        ensures { buses.new ≡ shown_at place self.now tick buses.old }
    {
        self.show_bits(buses, bit_entry(place), tick);
        self.show_positions(buses, position_entry(place), tick);
    }

    /// Puts the block's bit outputs on the bus at a tick, from this entry on. The entry behind them.
    pub fn show_bits(&self, buses: &mut Buses, entry: u8, tick: u64) -> u8
        requires { entry + bit_outputs (kind_of self.now) ≤ 128 }
        ensures shown { buses.new ≡ with_bits entry (bits_of self.now) tick buses.old }
        ensures next { result ≡ entry + bit_outputs (kind_of self.now) }
    {
        let count = self.unit.bit_outputs();
        let mut rest = self.unit.outputs().bits;
        for k in 0..count {
            buses.put_bit(entry + k, rest % 2 == 1, tick);
            rest /= 2;
        }
        entry + count
    }

    /// Puts the block's position output, where it has one, on the bus at a tick, at this entry. The entry
    /// behind it.
    pub fn show_positions(&self, buses: &mut Buses, entry: u8, tick: u64) -> u8
        requires { entry + position_outputs (kind_of self.now) ≤ 32 }
        ensures shown { buses.new ≡ with_positions entry (positions_of self.now) tick buses.old }
        ensures next { result ≡ entry + position_outputs (kind_of self.now) }
    {
        let count = self.unit.position_outputs();
        if count > 0 {
            buses.put_position(entry, self.unit.outputs().position, tick);
        }
        entry + count
    }
}

/// The entry of the first bit output of the block at a place.
fn bit_entry(place: u8) -> u8
    requires { place < 35 }
    ensures { result ≡ bit_entry place }
{
    BIT_ENTRIES[place as usize]
}

/// The entry of the position output of the block at a place: counters alone have one.
fn position_entry(place: u8) -> u8
    requires { place < 35 }
    ensures { result ≡ position_entry place }
{
    inenc::INSTANCES + place.saturating_sub(COUNTERS).min(counter::INSTANCES)
}

/// Puts the bit outputs of all blocks on the bus at a tick, one block after the other from this entry on.
/// The entry behind them.
pub(crate) fn show_bits(blocks: &[Block], buses: &mut Buses, entry: u8, tick: u64) -> u8
    requires { entry + length (flat_map bits_of blocks.now) ≤ 128 }
    ensures shown { buses.new ≡ with_bits entry (flat_map bits_of blocks.now) tick buses.old }
    ensures next { result ≡ entry + length (flat_map bits_of blocks.now) }
{
    let mut next = entry;
    for block in blocks {
        next = block.show_bits(buses, next, tick);
    }
    next
}

/// Puts the position outputs of all blocks on the bus at a tick, one block after the other from this entry
/// on.
pub(crate) fn show_positions(blocks: &[Block], buses: &mut Buses, entry: u8, tick: u64)
    requires { entry + length (flat_map positions_of blocks.now) ≤ 32 }
    ensures { buses.new ≡ with_positions entry (flat_map positions_of blocks.now) tick buses.old }
{
    let mut next = entry;
    for block in blocks {
        next = block.show_positions(buses, next, tick);
    }
}

/// Puts these values on the bit bus at a tick, from this entry on.
pub fn show_values(values: &[bool], buses: &mut Buses, entry: u8, tick: u64)
    requires { entry + length values.now ≤ 128 }
    ensures { buses.new ≡ with_bits entry values.now tick buses.old }
{
    let mut next = entry;
    for value in values {
        buses.put_bit(next, *value, tick);
        next += 1;
    }
}
