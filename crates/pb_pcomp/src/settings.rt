ghost use Rattle.std.specs.Prelude.{◌≡◌, ◌<◌, ◌^◌};

use pb_names::{direction, relative};

/// In which direction positions are compared.
#[derive(Clone, Copy, Debug, PartialEq, Eq)]
pub enum Direction {
    Positive,
    Negative,
    /// The one in which the position first goes away from where it was.
    Either,
}

/// From where positions are compared.
#[derive(Clone, Copy, Debug, PartialEq, Eq)]
pub enum Reference {
    Absolute,
    /// From the position at which ENABLE rose.
    Relative,
}

/// What commands set of a PCOMP.
#[derive(Clone, Copy, Debug, PartialEq, Eq)]
pub struct PcompSettings {
    /// How far before the base the position has to be first. Where the direction is `Either`: how far
    /// away from where it was it shows its direction.
    pub pre_start: u32,
    /// Where the first pulse rises.
    pub start: i32,
    /// How far the rises of two pulses are apart.
    pub step: u32,
    /// How far a pulse's fall is from its rise.
    pub width: u32,
    /// How many pulses there are. 0 is 2^32 - 1.
    pub pulses: u32,
    pub relative: Reference,
    pub direction: Direction,
}

impl Direction {
    ghost use Rattle.pb_pcomp.specs.Pcomp as definition;

    pub(crate) fn new(raw: u64) -> Direction
        ensures { result ≡ definition.direction_of raw }
    {
        if raw == u64::from(direction::NEGATIVE) {
            Direction::Negative
        } else if raw == u64::from(direction::EITHER) {
            Direction::Either
        } else {
            Direction::Positive
        }
    }
}

impl Reference {
    ghost use Rattle.pb_pcomp.specs.Pcomp as definition;

    pub(crate) fn new(raw: u64) -> Reference
        ensures { result ≡ definition.reference_of raw }
    {
        if raw == u64::from(relative::RELATIVE) {
            Reference::Relative
        } else {
            Reference::Absolute
        }
    }
}

impl PcompSettings {
    ghost use Rattle.pb_pcomp.specs.Pcomp as definition;

    pub(crate) fn last_pulse(&self) -> u32
        ensures { result ≡ definition.last_pulse self.now }
    {
        if self.pulses == 0 {
            u32::MAX
        } else {
            self.pulses
        }
    }
}
