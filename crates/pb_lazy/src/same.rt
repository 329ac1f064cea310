ghost use Rattle.std.specs.Prelude.{◌≡◌, ◌↔◌, ◌+◌, ◌^◌, ◌<◌, true, false, map, length, IsTrue};
ghost use Rattle.std.specs.List.{AllByRecursion};
ghost use Rattle.pb_names.specs.declared.bit_bus.TheConstants as bit_bus;
ghost use Rattle.pb_names.specs.declared.position_bus.TheConstants as position_bus;
ghost use Rattle.pb_buses.specs.Buses.{position, words};
ghost use Rattle.pb_model.specs.Units.{next, emitted};
ghost use Rattle.pb_model.specs.Tick.{or_before};
ghost use Rattle.pb_lazy.specs.Lazy.{HasZero, IsUnwired};

use pb_buses::{Buses, Emit, Inputs, Machine, Mux};
use pb_model::{Block, Unit};
use pb_names::{bit_bus, pcap, position_bus};
use pb_words::Steps;
use std::sync::ledger::Ledger;

/// No entry of either bus stands at ZERO.
pub(crate) fn nothing_stands_at_zero(buses: &Buses)
    ensures { HasZero buses.now.bus }
{
    let bus = buses.bus();
    have_entries(&bus.bits, &bus.positions);
}

/// As many as the buses have.
fn have_entries(bits: &[bool; 128], positions: &[i32; 32])
    ensures bits { length bits.now ≡ 128 }
    ensures positions { length positions.now ≡ 32 }
{}

/// Whether one of the inputs of a block selects another entry than ZERO, or it is PCAP.
pub(crate) fn is_wired(block: &Block) -> bool
    ensures { result ≡ false → IsUnwired block.now }
{
    if block.unit.place() == pcap::BLOCK {
        return true;
    }
    if selects_bits(&block.bits) {
        return true;
    }
    selects_positions(&block.positions)
}

fn selects_bits(inputs: &[Mux; 5]) -> bool
    ensures { result ≡ false → AllByRecursion (λ input. input.select ≡ bit_bus.ZERO) inputs.now }
{
    for mux in inputs {
        if mux.select() != bit_bus::ZERO {
            return true;
        }
    }
    false
}

fn selects_positions(selects: &[u8; 3]) -> bool
    ensures { result ≡ false → AllByRecursion (λ select. select ≡ position_bus.ZERO) selects.now }
{
    for select in selects {
        if *select != position_bus::ZERO {
            return true;
        }
    }
    false
}

/// Whether the position inputs select what was seen of them.
pub(crate) fn select_the_seen(positions: &[u8; 3], kept: &[i32; 3], buses: &Buses) -> bool
    ensures { result ≡ true → map (position buses.now.bus) positions.now ≡ kept.now }
{
    for i in 0..3 {
        if buses.selected_position(positions[i]) != kept[i] {
            return false;
        }
    }
    true
}

/// Whether both buses are as they were seen.
pub(crate) fn are_as_seen(kept: &Inputs, buses: &Buses) -> bool
    ensures { result ≡ true → (buses.now.bus.positions ≡ kept.now.bus) × (words buses.now.bus ≡ kept.now.words) }
{
    are_same_positions(&buses.bus().positions, &kept.bus)
        && are_same_words(&buses.words(), &kept.words)
}

fn are_same_positions(a: &[i32], b: &[i32]) -> bool
    ensures { IsTrue result ↔ (a.now ≡ b.now) }
{
    a == b
}

fn are_same_words(a: &[u32], b: &[u32]) -> bool
    ensures { IsTrue result ↔ (a.now ≡ b.now) }
{
    a == b
}

/// One tick of a unit. What it emits is put in `emit`, which stays as it is where that is nothing.
#[tactic(auto, using(crate::proofs::CallLemmas::quiet_unit))]
pub(crate) fn step_unit<L: Ledger>(
    unit: &mut Unit,
    inputs: &Inputs,
    tick: u64,
    steps: &mut Steps<L>,
    emit: &mut Emit,
)
    requires { tick < 2 ^ 62 }
    ensures next { unit.new ≡ next unit.old inputs.now tick }
    ensures emits { emit.new ≡ or_before emit.old (emitted unit.old inputs.now tick) }
    ensures counts { steps.new ≡ steps.old + 1 }
{
    if unit.is_quiet(inputs) {
        unit.advance(inputs, tick, steps);
        return;
    }
    step_loud(unit, inputs, tick, steps, emit);
}

/// The same of one that emits something.
#[inline(never)]
fn step_loud<L: Ledger>(
    unit: &mut Unit,
    inputs: &Inputs,
    tick: u64,
    steps: &mut Steps<L>,
    emit: &mut Emit,
)
    requires { tick < 2 ^ 62 }
    ensures next { unit.new ≡ next unit.old inputs.now tick }
    ensures emits { emit.new ≡ or_before emit.old (emitted unit.old inputs.now tick) }
    ensures counts { steps.new ≡ steps.old + 1 }
{
    match unit.step(inputs, tick, steps) {
        Emit::Nothing => {}
        emitted => *emit = emitted,
    }
}
