ghost use Rattle.std.specs.Prelude.{◌≡◌, ◌+◌, ◌≤◌, map, length};
ghost use Rattle.std.specs.List.{flat_map};
ghost use Rattle.pb_model.specs.Machines.{machine_kinds};
ghost use Rattle.pb_model.specs.Tick.{kind_of, bits_of, positions_of};
ghost use Rattle.pb_model.specs.Kept.{with_bits, with_positions, buses_with};
ghost use Rattle.pb_going.specs.Sims.{block_in};

use pb_buses::Buses;
use pb_lazy::Lazy;
use pb_model::show_values;
use pb_names::{inenc, ttlin};

/// Puts the outputs of all blocks, and those of BITS, on the buses at a tick.
pub(crate) fn show(lazies: &[Lazy], settings: &[bool], buses: &mut Buses, tick: u64)
    requires kinds { map kind_of (map block_in lazies.now) ≡ machine_kinds }
    requires four { length settings.now ≡ 4 }
    ensures { buses.new ≡ buses_with tick (map block_in lazies.now) settings.now buses.old }
{
    let entry = show_bits(lazies, buses, ttlin::INSTANCES, tick);
    show_values(settings, buses, entry, tick);
    show_positions(lazies, buses, inenc::INSTANCES, tick);
}

/// Puts the bit outputs of all blocks on the bus at a tick, one block after the other from this entry on.
/// The entry behind them.
fn show_bits(lazies: &[Lazy], buses: &mut Buses, entry: u8, tick: u64) -> u8
    requires { entry + length (flat_map bits_of (map block_in lazies.now)) ≤ 128 }
    ensures shown { buses.new ≡ with_bits entry (flat_map bits_of (map block_in lazies.now)) tick buses.old }
    ensures next { result ≡ entry + length (flat_map bits_of (map block_in lazies.now)) }
{
    let mut next = entry;
    for lazy in lazies {
        next = lazy.block.show_bits(buses, next, tick);
    }
    next
}

/// Puts the position outputs of all blocks on the bus at a tick, one block after the other from this entry on.
fn show_positions(lazies: &[Lazy], buses: &mut Buses, entry: u8, tick: u64)
    requires { entry + length (flat_map positions_of (map block_in lazies.now)) ≤ 32 }
    ensures { buses.new ≡ with_positions entry (flat_map positions_of (map block_in lazies.now)) tick buses.old }
{
    let mut next = entry;
    for lazy in lazies {
        next = lazy.block.show_positions(buses, next, tick);
    }
}
