ghost use Rattle.std.specs.Prelude.{◌≡◌, ℕ, true, ◌+◌, ◌-◌, ◌^◌, ◌<◌, map, length};
ghost use Rattle.pb_buses.specs.declared.Emit.TheVariants as emits;
ghost use Rattle.pb_buses.specs.Buses.{IsUnchangedAt};
ghost use Rattle.pb_model.specs.Tick.{Box, IsInputEntry, block_after, emitted_by, emitted_of, handed_on};
ghost use Rattle.pb_model.specs.Tick as definition;
ghost use Rattle.pb_model.specs.Arming.{is_capture_idle, idle_after};
ghost use Rattle.pb_model.specs.Kept.{Agrees, kept_after, stands_of};

use crate::blocks::{Block, nothing_seen};
use crate::boxes::BoxState;
use crate::shows::{show_bits, show_positions, show_values};
use pb_buses::{Buses, Emit};
use pb_names::{inenc, ttlin};
use pb_words::Steps;
use std::sync::ledger::Ledger;

/// One tick of the box: every block steps once, and their outputs and those of BITS go on the bus. The entries
/// of TTLIN and INENC stay; the caller then puts on them what the stimulus gives them at the new tick. What
/// PCAP emits.
pub fn tick<L: Ledger>(state: &mut BoxState, steps: &mut Steps<L>) -> Emit
    requires { state.old.tick < 2 ^ 62 - 1 }
    ensures agrees { (box : Box) → Agrees state.old box → Agrees state.new (definition.tick box) }
    ensures inputs { (box : Box) → Agrees state.old box → (entry : ℕ) → IsInputEntry entry →
        IsUnchangedAt state.new.buses entry (state.old.tick + 1) }
    ensures kept { state.new ≡ kept_after state.old }
    ensures emits { result ≡ emitted_of (stands_of state.old) }
    ensures idle { is_capture_idle state.new.blocks ≡ idle_after result (is_capture_idle state.old.blocks) }
    ensures quiet { is_capture_idle state.old.blocks ≡ true → result ≡ emits.Nothing }
    ensures counts { steps.new ≡ steps.old + 35 }
{
    let emit = step_blocks(&mut state.blocks, &state.buses, state.tick, steps);
    state.tick += 1;
    let entry = show_bits(
        &state.blocks,
        &mut state.buses,
        ttlin::INSTANCES,
        state.tick,
    );
    show_values(&state.settings, &mut state.buses, entry, state.tick);
    show_positions(
        &state.blocks,
        &mut state.buses,
        inenc::INSTANCES,
        state.tick,
    );
    emit
}

/// Every block steps once. What one of them emits.
fn step_blocks<L: Ledger>(
    blocks: &mut Vec<Block>,
    buses: &Buses,
    tick: u64,
    steps: &mut Steps<L>,
) -> Emit
    requires { tick < 2 ^ 62 }
    ensures blocks { blocks.new.items ≡ map (block_after buses.now.bus tick) blocks.old.items }
    ensures emits { result ≡ handed_on emits.Nothing (map (emitted_by buses.now.bus tick) blocks.old.items) }
    ensures counts { steps.new ≡ steps.old + length blocks.old.items }
{
    let mut emit = Emit::Nothing;
    let mut inputs = nothing_seen();
    for block in blocks.iter_mut() {
        if !block.sees_all() {
            block.advance(buses, &mut inputs, tick, steps);
            continue;
        }
        block.step_capture(buses, tick, steps, &mut emit);
    }
    emit
}
