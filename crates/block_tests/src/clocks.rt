ghost use Rattle.std.specs.Prelude.{◌≡◌, ◌<◌};

use pb_buses::{Inputs, Machine};
use pb_logic::Clock;
use pb_names::clock;
use pb_words::Steps;
use std::marker::Brand;
use std::sync::ledger::{Blank, Ledger};

/// Inputs of a CLOCK with ENABLE at 1.
fn enabled() -> Inputs {
    let mut bits = [false; 5];
    bits[clock::ENABLE as usize] = true;
    Inputs {
        bits,
        positions: [0; 3],
        words: [0; 4],
        bus: [0; 32],
    }
}

/// How long the first pulse of a clock lasts, and what it shows at its end and a tick later.
fn first_pulse<L: Ledger>(blank: Blank, period: u64) -> (u64, u8, u8)
    requires name { blank.name ≡ L.name }
    requires parts { blank.parts ≡ L.parts }
    requires some { 0 < blank.parts }
    requires period { period < 0x1_0000_0000_0000 }
{
    let mut steps: Steps<L> = Steps::new(blank);
    let mut clock = Clock::new();
    clock.set(clock::PERIOD, period);
    let inputs = enabled();
    clock.step(&inputs, 0, &mut steps);
    let ticks = match clock.horizon(&inputs, 1, &mut steps) {
        Some(ticks) if ticks < 0x1_0000_0000_0000 => ticks as u64,
        _ => return (0, 0, 0),
    };
    clock.coast(&inputs, 1, ticks, &mut steps);
    let high = clock.outputs().bits;
    clock.step(&inputs, 1 + ticks, &mut steps);
    (1 + ticks, high, clock.outputs().bits)
}

#[test]
fn a_pulse_of_six_days_takes_no_time(rt: HostRuntime) {
    let (ticks, high, low) = first_pulse::<Brand>(Blank::new(1), 1 << 47);
    assert_eq!(rt; ticks, 1 << 46);
    assert_eq!(rt; high, 1);
    assert_eq!(rt; low, 0);
}
