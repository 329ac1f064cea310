ghost use Rattle.std.specs.Prelude.{◌≡◌, ◌<◌};

use crate::coasting::coast_over;
use pb_buses::{Inputs, Machine};
use pb_names::pulse;
use pb_pulse::Pulse;
use pb_words::Steps;
use std::alloc::Global;
use std::marker::Brand;
use std::process::Abort;
use std::sync::ledger::{Blank, Ledger};
use std::test::Fail;

/// The greatest time, in ticks.
const LONGEST: u64 = (1 << 48) - 1;

/// What a PULSE sees that is enabled, with this TRIG.
fn seen(trig: bool) -> Inputs {
    Inputs {
        bits: [true, trig, false, false, false],
        positions: [0; 3],
        words: [0; 4],
        bus: [0; 32],
    }
}

/// A train after the longest delay: nothing changes until it begins, and then the output follows.
fn long_delay<L: Ledger>(rt: &impl Abort, alloc: Global, blank: Blank) -> Result<(), Fail>
    requires name { blank.name ≡ L.name }
    requires parts { blank.parts ≡ L.parts }
    requires some { 0 < blank.parts }
{
    let mut steps: Steps<L> = Steps::new(blank);
    let mut block = Pulse::new(alloc)?;
    block.set(pulse::DELAY, LONGEST);
    block.set(pulse::WIDTH, 1);
    let _nothing = block.step(&seen(true), 10, &mut steps);
    assert_eq!(rt; block.read(pulse::QUEUED), 1);
    let calm = coast_over(&mut block, &seen(true), 11, 1 << 60, &mut steps);
    assert_eq!(rt; calm, LONGEST - 1);
    assert_eq!(rt; block.outputs().bits, 0);
    let _nothing = block.step(&seen(true), LONGEST + 10, &mut steps);
    assert_eq!(rt; block.outputs().bits, 1);
    assert_eq!(rt; block.read(pulse::QUEUED), 0);
    Ok(())
}

/// The longest train of all ends behind tick 2^64, and drops what is asked for until then.
fn long_train<L: Ledger>(rt: &impl Abort, alloc: Global, blank: Blank) -> Result<(), Fail>
    requires name { blank.name ≡ L.name }
    requires parts { blank.parts ≡ L.parts }
    requires some { 0 < blank.parts }
{
    let mut steps: Steps<L> = Steps::new(blank);
    let mut block = Pulse::new(alloc)?;
    block.set(pulse::WIDTH, 1);
    block.set(pulse::STEP, LONGEST);
    block.set(pulse::PULSES, 65_535);
    let begin = (1 << 62) - 10;
    let _nothing = block.step(&seen(true), begin, &mut steps);
    assert_eq!(rt; block.outputs().bits, 1);
    let _nothing = block.step(&seen(false), begin + 1, &mut steps);
    assert_eq!(rt; block.outputs().bits, 0);
    let _nothing = block.step(&seen(true), begin + 2, &mut steps);
    assert_eq!(rt; block.read(pulse::QUEUED), 1);
    assert_eq!(rt; block.read(pulse::DROPPED), 1);
    Ok(())
}

#[test]
fn a_delay_of_2_to_the_48_ticks(rt: HostRuntime) -> Result<(), Fail> {
    long_delay::<Brand>(&rt, rt.alloc(), Blank::new(1))
}

#[test]
fn a_train_that_ends_behind_2_to_the_64(rt: HostRuntime) -> Result<(), Fail> {
    long_train::<Brand>(&rt, rt.alloc(), Blank::new(1))
}
