ghost use Rattle.std.specs.Prelude.{◌≡◌, ◌<◌};

use pb_buses::{Emit, Inputs, Machine, Outputs};
use pb_words::Steps;
use std::marker::Brand;
use std::sync::ledger::{Blank, Ledger};

/// What a block sees whose first bit input is 1, and the second is this one.
pub const fn seeing(second: bool) -> Inputs {
    Inputs {
        bits: [true, second, false, false, false],
        positions: [0; 3],
        words: [0; 4],
        bus: [0; 32],
    }
}

/// What a block sees whose first bit input is 1, and its position input is this one.
pub const fn seeing_at(position: i32) -> Inputs {
    Inputs {
        bits: [true, false, false, false, false],
        positions: [position, 0, 0],
        words: [0; 4],
        bus: [0; 32],
    }
}

/// Steps the block once under each of these inputs. None if it emitted something.
pub fn stepped<M: Machine>(block: &mut M, ticks: &[Inputs]) -> Option<Outputs> {
    stepped_by::<Brand, M>(Blank::new(1), block, ticks)
}

fn stepped_by<L: Ledger, M: Machine>(
    blank: Blank,
    block: &mut M,
    ticks: &[Inputs],
) -> Option<Outputs>
    requires name { blank.name ≡ L.name }
    requires parts { blank.parts ≡ L.parts }
    requires some { 0 < blank.parts }
{
    let mut steps: Steps<L> = Steps::new(blank);
    for inputs in ticks {
        if block.step(inputs, 0, &mut steps) != Emit::Nothing {
            return None;
        }
    }
    Some(block.outputs())
}

pub const fn shows(bits: u8, position: i32) -> Option<Outputs> {
    Some(Outputs { bits, position })
}
