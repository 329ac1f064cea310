ghost use Rattle.std.specs.Prelude.{◌≡◌, ◌≤◌, length};
ghost use Rattle.pb_pcap.specs.Fields as definition;

use crate::entries;
use pb_names::position_bus;
use pb_words::Decimal9;

/// What of a position or of another entry is captured.
#[derive(Clone, Copy, Debug, PartialEq, Eq)]
pub enum Choice {
    No,
    Value,
    Min,
    Max,
    Sum,
    MinMax,
    MinMaxSum,
}

const UNITS: usize = 32;

/// The name of a unit: a text of at most 32 bytes, held in place.
#[derive(Clone, Copy, Debug)]
pub struct Units {
    text: [u8; 32],
    len: u8,
}

/// One captured entry.
#[derive(Clone, Copy, Debug)]
pub struct Field {
    /// 0 to 31 are the positions, 32 to 39 the entries of `entries`.
    pub entry: u8,
    pub choice: Choice,
    /// By what a position is multiplied to be shown in its units.
    pub scale: Decimal9,
    /// What is added to it then.
    pub offset: Decimal9,
    pub units: Units,
}

impl Units {
    /// The units with this name.
    pub fn new(text: &[u8]) -> Units
        requires { length text.now ≤ 32 }
        ensures { result ≡ definition.units_of text.now }
    {
        let mut held = [0; UNITS];
        held[..text.len()].copy_from_slice(text);
        Units {
            text: held,
            len: text.len() as u8,
        }
    }

    /// The name.
    pub fn bytes(&self) -> &[u8]
        ensures { result.now ≡ definition.name_of self.now }
    {
        &self.text[..usize::from(self.len).min(UNITS)]
    }
}

impl Choice {
    /// How many bytes a position takes in a record.
    fn size(self) -> usize
        ensures value { result ≡ definition.choice_size self }
        ensures small { result ≤ 16 }
    {
        match self {
            Choice::No => 0,
            Choice::Value | Choice::Min | Choice::Max => 4,
            Choice::Sum | Choice::MinMax => 8,
            Choice::MinMaxSum => 16,
        }
    }
}

impl Field {
    /// How many bytes it takes in a record.
    pub(crate) fn size(&self) -> usize
        ensures value { result ≡ definition.field_size self.now }
        ensures small { result ≤ 16 }
    {
        if self.entry < position_bus::WIDTH {
            self.choice.size()
        } else if self.entry < entries::BITS0 {
            8
        } else {
            4
        }
    }
}
