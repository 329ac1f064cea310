ghost use Rattle.std.specs.Prelude.{◌≡◌, ◌<◌};

use crate::coasting::coast_over;
use pb_buses::{Inputs, Machine};
use pb_names::{seq, seq_state};
use pb_seq::Seq;
use pb_words::Steps;
use std::alloc::Global;
use std::marker::Brand;
use std::process::Abort;
use std::sync::ledger::{Blank, Ledger};
use std::test::Fail;

/// What a sequencer sees whose other inputs are 0.
fn seen(enable: bool) -> Inputs {
    Inputs {
        bits: [enable, false, false, false, false],
        positions: [0; 3],
        words: [0; 4],
        bus: [0; 32],
    }
}

/// A row of 2^60 ticks with OUTA, and 2^30 ticks without.
fn long_phases<L: Ledger>(rt: &impl Abort, alloc: Global, blank: Blank) -> Result<(), Fail>
    requires name { blank.name ≡ L.name }
    requires parts { blank.parts ≡ L.parts }
    requires some { 0 < blank.parts }
{
    let mut steps: Steps<L> = Steps::new(blank);
    let mut sequencer = Seq::new(alloc)?;
    let written = sequencer.write(false, false, b"1048577 0 1073741824 0\n".as_slice());
    assert!(rt; written.is_ok());
    assert_eq!(rt; sequencer.rows().len(), 4);
    sequencer.set(seq::PRESCALE, 1 << 30);
    let _nothing = sequencer.step(&seen(false), 9, &mut steps);
    assert_eq!(rt;
        sequencer.read(seq::STATE),
        u64::from(seq_state::WAIT_ENABLE)
    );
    let _nothing = sequencer.step(&seen(true), 10, &mut steps);
    assert_eq!(rt; sequencer.outputs().bits, 65);
    assert_eq!(rt;
        coast_over(&mut sequencer, &seen(true), 11, 1 << 60, &mut steps),
        (1 << 60) - 1
    );
    assert_eq!(rt; sequencer.outputs().bits, 65);
    let _nothing = sequencer.step(&seen(true), (1 << 60) + 10, &mut steps);
    assert_eq!(rt; sequencer.outputs().bits, 64);
    assert_eq!(rt; sequencer.read(seq::STATE), u64::from(seq_state::PHASE2));
    assert_eq!(rt;
        coast_over(
            &mut sequencer,
            &seen(true),
            (1 << 60) + 11,
            1 << 60,
            &mut steps
        ),
        (1 << 30) - 1
    );
    Ok(())
}

#[test]
fn a_phase_of_2_to_the_60_ticks_is_coasted_over(rt: HostRuntime) -> Result<(), Fail> {
    long_phases::<Brand>(&rt, rt.alloc(), Blank::new(1))
}
