ghost use Rattle.std.specs.Prelude.{◌≡◌, ◌≤◌, ◌<◌, ◌^◌};

use crate::stepping::{seeing, seeing_at};
use pb_buses::{Emit, Inputs, Machine};
use pb_logic::{Clock, Counter, Div, Lut, Srgate};
use pb_names::{clock, counter, div, lut, pcomp, pulse};
use pb_pcomp::Pcomp;
use pb_pulse::Pulse;
use pb_words::Steps;
use std::alloc::Global;
use std::marker::Brand;
use std::process::Abort;
use std::sync::ledger::{Blank, Ledger};
use std::test::Fail;

/// For how many ticks inputs are held.
const HELD: u64 = 4;

/// Goes over the calm ticks, but not over more than these, and answers how many there were.
pub fn coast_over<L: Ledger, M: Machine>(
    block: &mut M,
    inputs: &Inputs,
    tick: u64,
    most: u64,
    steps: &mut Steps<L>,
) -> u64
    requires tick { tick < 2 ^ 61 }
    requires most { most < 2 ^ 61 }
    ensures { result ≤ most }
{
    let Some(calm) = block.horizon(inputs, tick, steps) else {
        block.coast(inputs, tick, most, steps);
        return most;
    };
    if calm >= u128::from(most) {
        block.coast(inputs, tick, most, steps);
        return most;
    }
    let ticks = calm as u64;
    block.coast(inputs, tick, ticks, steps);
    ticks
}

/// Steps the block so many times. False if it emitted something.
fn step_over<L: Ledger, M: Machine>(
    block: &mut M,
    inputs: &Inputs,
    tick: u64,
    ticks: u64,
    steps: &mut Steps<L>,
) -> bool
    requires tick { tick < 2 ^ 61 }
    requires ticks { ticks < 2 ^ 61 }
{
    for k in 0..ticks {
        if block.step(inputs, tick + k, steps) != Emit::Nothing {
            return false;
        }
    }
    true
}

/// Holds these inputs. One block makes every step, the other coasts over the calm ticks and makes the steps
/// that are left. How many ticks were calm, or 99 if the two show something else after them or at the end.
fn hold<L: Ledger, M: Machine>(
    stepping: &mut M,
    coasting: &mut M,
    inputs: &Inputs,
    tick: u64,
    steps: &mut Steps<L>,
) -> u64
    requires { tick < 2 ^ 60 }
{
    let calm = coast_over(coasting, inputs, tick, HELD, steps);
    if !step_over(stepping, inputs, tick, calm, steps) {
        return 99;
    }
    if stepping.outputs() != coasting.outputs() {
        return 99;
    }
    step_over(stepping, inputs, tick + calm, HELD - calm, steps);
    step_over(coasting, inputs, tick + calm, HELD - calm, steps);
    if stepping.outputs() != coasting.outputs() {
        return 99;
    }
    calm
}

/// Holds each of these inputs, twice the first and then twice the second.
fn calm_by<L: Ledger, M: Machine>(
    blank: Blank,
    stepping: &mut M,
    coasting: &mut M,
    first: &Inputs,
    second: &Inputs,
) -> [u64; 4]
    requires name { blank.name ≡ L.name }
    requires parts { blank.parts ≡ L.parts }
    requires some { 0 < blank.parts }
{
    let mut steps: Steps<L> = Steps::new(blank);
    [
        hold(stepping, coasting, first, 0, &mut steps),
        hold(stepping, coasting, first, HELD, &mut steps),
        hold(stepping, coasting, second, 2 * HELD, &mut steps),
        hold(stepping, coasting, second, 3 * HELD, &mut steps),
    ]
}

/// How many ticks are calm while the second bit input is 0, 0, 1 and 1, for 4 ticks each.
fn calm_ticks<M: Machine>(stepping: &mut M, coasting: &mut M) -> [u64; 4] {
    calm_by::<Brand, M>(
        Blank::new(1),
        stepping,
        coasting,
        &seeing(false),
        &seeing(true),
    )
}

fn second_input() -> Lut {
    let mut block = Lut::new();
    block.set(lut::FUNC, 0xff00_ff00);
    block
}

fn divider() -> Div {
    let mut block = Div::new();
    block.set(div::DIVISOR, 2);
    block
}

fn counter() -> Counter {
    let mut block = Counter::new();
    block.set(counter::STEP, 1);
    block
}

/// High at ticks 0 and 1 of every 5.
fn clock() -> Clock {
    let mut block = Clock::new();
    block.set(clock::PERIOD, 5);
    block.set(clock::WIDTH, 2);
    block
}

/// A pulse of 5 ticks, 2 ticks after its trigger.
fn late_pulse(alloc: Global) -> Result<Pulse, Fail> {
    let mut block = Pulse::new(alloc)?;
    block.set(pulse::DELAY, 2);
    block.set(pulse::WIDTH, 5);
    Ok(block)
}

fn compare() -> Pcomp {
    let mut block = Pcomp::new();
    block.set(pcomp::START, 5);
    block.set(pcomp::WIDTH, 100);
    block
}

#[test]
fn blocks_coast_as_they_step(rt: HostRuntime) {
    assert_eq!(rt;
        calm_ticks(&mut second_input(), &mut second_input()),
        [4, 4, 0, 4]
    );
    assert_eq!(rt;
        calm_ticks(&mut Srgate::new(), &mut Srgate::new()),
        [4, 4, 0, 4]
    );
    assert_eq!(rt; calm_ticks(&mut divider(), &mut divider()), [0, 4, 0, 4]);
    assert_eq!(rt; calm_ticks(&mut counter(), &mut counter()), [0, 4, 0, 4]);
    assert_eq!(rt; calm_ticks(&mut clock(), &mut clock()), [0, 1, 2, 0]);
    let near = seeing_at(0);
    let far = seeing_at(10);
    let calm = calm_by::<Brand, Pcomp>(Blank::new(1), &mut compare(), &mut compare(), &near, &far);
    assert_eq!(rt; calm, [0, 4, 0, 4]);
}

fn pulses_coast(rt: &impl Abort, alloc: Global) -> Result<(), Fail> {
    let mut stepping = late_pulse(alloc)?;
    let mut coasting = late_pulse(alloc)?;
    assert_eq!(rt; calm_ticks(&mut stepping, &mut coasting), [0, 4, 0, 2]);
    Ok(())
}

#[test]
fn pulses_coast_as_they_step(rt: HostRuntime) -> Result<(), Fail> {
    pulses_coast(&rt, rt.alloc())
}
