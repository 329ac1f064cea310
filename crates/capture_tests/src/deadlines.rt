ghost use Rattle.std.specs.Prelude.{◌≡◌, ◌<◌, ◌≤◌, ◌+◌, ◌^◌};

use crate::machine::seen;
use pb_buses::{Emit, Inputs, Machine, Record};
use pb_pcap::Pcap;
use pb_words::Steps;
use std::marker::Brand;
use std::process::Abort;
use std::sync::ledger::{Blank, Ledger};

/// Goes over so many ticks at once where all are calm, and answers whether they are.
fn coasts<L: Ledger>(
    pcap: &mut Pcap,
    inputs: &Inputs,
    tick: u64,
    ticks: u64,
    steps: &mut Steps<L>,
) -> bool
    requires now { tick < 2 ^ 62 }
    requires end { tick + ticks ≤ 2 ^ 62 }
{
    match pcap.horizon(inputs, tick, steps) {
        Some(_) => false,
        None => {
            pcap.coast(inputs, tick, ticks, steps);
            true
        }
    }
}

/// Samples over 2^40 and over 2^61 ticks, and 2^60 ticks without.
fn long_capture<L: Ledger>(rt: &impl Abort, blank: Blank)
    requires name { blank.name ≡ L.name }
    requires parts { blank.parts ≡ L.parts }
    requires some { 0 < blank.parts }
{
    let mut steps: Steps<L> = Steps::new(blank);
    let mut pcap = Pcap::new();
    pcap.arm(1);
    for (tick, position) in [(0, 9), (1, i32::MIN), (2, i32::MAX)] {
        let emit = pcap.step(&seen(true, false, position), tick, &mut steps);
        assert!(rt; emit == Emit::Nothing);
    }
    let sevens = seen(true, false, 7);
    assert!(rt; coasts(&mut pcap, &sevens, 3, 1 << 40, &mut steps));
    let greatest = seen(true, false, i32::MAX);
    assert!(rt; coasts(&mut pcap, &greatest, (1 << 40) + 3, 1 << 61, &mut steps));
    let outside = seen(false, false, 7);
    assert!(rt;
        coasts(
            &mut pcap,
            &outside,
            (1 << 61) + (1 << 40) + 3,
            1 << 60,
            &mut steps
        )
    );
    let wanted = Record {
        value: [7; 32],
        least: [i32::MIN; 32],
        greatest: [i32::MAX; 32],
        sum: [(7 << 40) - (1 << 61) - 1; 32],
        ts_start: 0,
        ts_end: (1 << 61) + (1 << 40) + 2,
        ts_trig: (1 << 61) + (1 << 60) + (1 << 40) + 2,
        gate_duration: (1 << 61) + (1 << 40) + 2,
        words: [1, 2, 3, 4],
    };
    let trigger = seen(false, true, 7);
    let emit = pcap.step(&trigger, (1 << 61) + (1 << 60) + (1 << 40) + 3, &mut steps);
    assert!(rt; emit == Emit::Record(wanted));
}

#[test]
fn a_capture_over_2_to_the_61_ticks(rt: HostRuntime) {
    long_capture::<Brand>(&rt, Blank::new(1));
}

/// Where the next tick is calm, one PCAP goes over three ticks at once and the other steps them; and else each steps one.
fn goes_on<L: Ledger>(
    rt: &impl Abort,
    coasting: &mut Pcap,
    stepping: &mut Pcap,
    inputs: &Inputs,
    calm: bool,
    steps: &mut Steps<L>,
) {
    if coasts(coasting, inputs, 0, 3, steps) {
        assert!(rt; calm);
        for tick in 0..3 {
            assert!(rt; stepping.step(inputs, tick, steps) == Emit::Nothing);
        }
    } else {
        assert!(rt; !calm);
        assert!(rt; coasting.step(inputs, 0, steps) == Emit::Nothing);
        assert!(rt; stepping.step(inputs, 0, steps) == Emit::Nothing);
    }
}

/// ENABLE, GATE, TRIG, every position, and whether the ticks that see this from now on are calm.
const SEEN: [(bool, bool, bool, i32, bool); 10] = [
    (false, false, false, 0, true),
    (false, false, true, 0, false),
    (false, true, true, 0, true),
    (true, true, true, 8, false),
    (true, false, true, 8, true),
    (true, true, false, 5, false),
    (true, true, false, 5, true),
    (true, true, false, 6, false),
    (true, true, false, 5, true),
    (true, false, false, 100, true),
];

/// The same ticks at once and one by one, and then a record of each.
fn both_ways<L: Ledger>(rt: &impl Abort, blank: Blank)
    requires name { blank.name ≡ L.name }
    requires parts { blank.parts ≡ L.parts }
    requires some { 0 < blank.parts }
{
    let mut steps: Steps<L> = Steps::new(blank);
    let mut coasting = Pcap::new();
    let mut stepping = Pcap::new();
    coasting.arm(2);
    stepping.arm(2);
    for (enable, gate, trig, position, calm) in SEEN {
        let mut inputs = seen(gate, trig, position);
        inputs.bits[0] = enable;
        goes_on(rt, &mut coasting, &mut stepping, &inputs, calm, &mut steps);
    }
    let wanted = Record {
        value: [9; 32],
        least: [5; 32],
        greatest: [6; 32],
        sum: [41; 32],
        ts_start: 3,
        ts_end: 11,
        ts_trig: 14,
        gate_duration: 8,
        words: [1, 2, 3, 4],
    };
    let trigger = seen(false, true, 9);
    assert!(rt; coasting.horizon(&trigger, 0, &mut steps) == Some(0));
    let emit = coasting.step(&trigger, 0, &mut steps);
    assert!(rt; emit == stepping.step(&trigger, 0, &mut steps));
    assert!(rt; emit == Emit::Record(wanted));
    assert!(rt; coasting.horizon(&seen(true, true, 9), 1, &mut steps) == Some(0));
}

#[test]
fn calm_ticks_at_once_and_one_by_one(rt: HostRuntime) {
    both_ways::<Brand>(&rt, Blank::new(1));
}
