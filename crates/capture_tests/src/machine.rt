ghost use Rattle.std.specs.Prelude.{◌≡◌, ◌<◌};

use pb_buses::{Condition, Emit, Inputs, Machine, Record};
use pb_pcap::Pcap;
use pb_words::Steps;
use std::marker::Brand;
use std::process::Abort;
use std::sync::ledger::{Blank, Ledger};

/// What a PCAP sees that is enabled, with this GATE, this TRIG and every position here.
pub(crate) fn seen(gate: bool, trig: bool, position: i32) -> Inputs {
    Inputs {
        bits: [true, gate, trig, false, false],
        positions: [0; 3],
        words: [1, 2, 3, 4],
        bus: [position; 32],
    }
}

/// A gate over the least and the greatest position, and one record for which there is room.
fn both_ends<L: Ledger>(rt: &impl Abort, blank: Blank)
    requires name { blank.name ≡ L.name }
    requires parts { blank.parts ≡ L.parts }
    requires some { 0 < blank.parts }
{
    let mut steps: Steps<L> = Steps::new(blank);
    let mut pcap = Pcap::new();
    assert!(rt; pcap.is_idle());
    pcap.arm(1);
    for (tick, position) in [(0, 9), (1, i32::MIN), (2, i32::MAX)] {
        let emit = pcap.step(&seen(true, false, position), tick, &mut steps);
        assert!(rt; emit == Emit::Nothing);
    }
    assert_eq!(rt; pcap.outputs().bits, 1);
    let trigger = seen(false, true, 7);
    assert!(rt; pcap.emits(&trigger));
    let wanted = Record {
        value: [7; 32],
        least: [i32::MIN; 32],
        greatest: [i32::MAX; 32],
        sum: [-1; 32],
        ts_start: 0,
        ts_end: 2,
        ts_trig: 2,
        gate_duration: 2,
        words: [1, 2, 3, 4],
    };
    assert!(rt; pcap.step(&trigger, 3, &mut steps) == Emit::Record(wanted));
    assert!(rt; pcap.step(&seen(true, false, 7), 4, &mut steps) == Emit::Nothing);
    assert!(rt; !pcap.emits(&trigger));
    let over = Emit::Completed(Condition::Overrun);
    assert!(rt; pcap.step(&trigger, 5, &mut steps) == over);
    assert!(rt; pcap.is_idle());
    assert_eq!(rt; pcap.outputs().bits, 0);
    pcap.arm(1);
    assert!(rt; !pcap.is_idle());
    pcap.disarm();
    assert!(rt; pcap.is_idle());
}

#[test]
fn a_record_over_both_ends_of_the_range(rt: HostRuntime) {
    both_ends::<Brand>(&rt, Blank::new(1));
}
