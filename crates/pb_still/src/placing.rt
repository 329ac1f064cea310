ghost use Rattle.std.specs.Prelude.{◌≡◌, ◌+◌, ◌≤◌, ◌<◌, ◌^◌, length, take, drop};
ghost use Rattle.std.specs.List.{AllByRecursion};
ghost use Rattle.pb_stim.specs.declared.Row.{Row};
ghost use Rattle.pb_model.specs.Kept.{with_bits, with_positions};
ghost use Rattle.pb_still.specs.Current.{IsCurrent, values_at, with_row, levels_of, buses_with};

use pb_buses::Buses;
use pb_stim::Stimulus;

/// Gives the targets the values of the rows from `place` on that count at the tick, and
/// answers the place of the first row that comes later.
pub fn put_rows(stimulus: &Stimulus, place: usize, values: &mut [i32; 10], tick: u64) -> usize
    requires within { place ≤ length stimulus.now }
    requires past { AllByRecursion (λ (row : Row). row.tick ≤ tick) (take place stimulus.now) }
    requires levels { values.old ≡ values_at (take place stimulus.now) tick }
    requires small { tick < 2 ^ 62 }
    ensures { IsCurrent stimulus.now result values.new tick }
{
    let count = stimulus.len();
    let mut next = place;
    while next < count {
        let (at, target, value) = stimulus.row(next);
        if tick < at {
            return next;
        }
        put_row(target, value, values);
        next += 1;
    }
    next
}

/// Gives a target its value.
fn put_row(target: u8, value: i32, values: &mut [i32; 10])
    ensures { values.new ≡ with_row values.old target value }
{
    if target < 10 {
        values[target as usize] = value;
    }
}

/// Puts the values of the targets on the buses, at a tick.
pub fn put_values(buses: &mut Buses, values: &[i32; 10], tick: u64)
    ensures { buses.new ≡ buses_with values.now tick buses.old }
{
    put_levels(&levels(values), buses, tick);
    put_positions(&positions(values), buses, tick);
}

/// The TTL inputs: each is high where the value of its target isn't 0.
fn levels(values: &[i32; 10]) -> [bool; 6]
    ensures { result ≡ levels_of values.now }
{
    let mut levels = [false; 6];
    for i in 0..6 {
        levels[i] = values[i] != 0;
    }
    levels
}

/// The positions of the encoders.
fn positions(values: &[i32; 10]) -> [i32; 4]
    ensures { result ≡ drop 6 values.now }
{
    let mut positions = [0; 4];
    for i in 0..4 {
        positions[i] = values[6 + i];
    }
    positions
}

/// Puts these levels on the first entries of the bit bus, at a tick.
fn put_levels(levels: &[bool], buses: &mut Buses, tick: u64)
    requires { length levels.now ≤ 128 }
    ensures { buses.new ≡ with_bits 0 levels.now tick buses.old }
{
    let mut next = 0;
    for level in levels {
        buses.put_bit(next, *level, tick);
        next += 1;
    }
}

/// Puts these values on the first entries of the position bus, at a tick.
fn put_positions(values: &[i32], buses: &mut Buses, tick: u64)
    requires { length values.now ≤ 32 }
    ensures { buses.new ≡ with_positions 0 values.now tick buses.old }
{
    let mut next = 0;
    for value in values {
        buses.put_position(next, *value, tick);
        next += 1;
    }
}
