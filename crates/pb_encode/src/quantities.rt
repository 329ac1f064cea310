ghost use Rattle.std.specs.Prelude.{◌≡◌, ◌<◌, ◌^◌, unsigned_abs};
ghost use Rattle.pb_encode.specs.Encoding as definition;

use pb_names::position_bus;
use pb_pcap::{Choice, Field, entries};
use pb_words::Decimal9;

/// What of an entry a number of a record is.
#[derive(Clone, Copy, Debug, PartialEq, Eq)]
pub enum Quantity {
    Value,
    Min,
    Max,
    Sum,
}

impl Quantity {
    /// The name.
    pub(crate) fn name(self) -> &'static [u8]
        ensures { result.now ≡ definition.quantity_name self }
    {
        match self {
            Quantity::Value => b"Value",
            Quantity::Min => b"Min",
            Quantity::Max => b"Max",
            Quantity::Sum => b"Sum",
        }
    }

    /// How many bytes it takes where it is of this entry.
    pub(crate) fn size(self, entry: u8) -> usize
        ensures { result ≡ definition.number_size entry self }
    {
        if entry < position_bus::WIDTH {
            match self {
                Quantity::Sum => 8,
                _ => 4,
            }
        } else if entry < entries::BITS0 {
            8
        } else {
            4
        }
    }

    /// The name of its type where it is of this entry.
    pub(crate) fn type_name(self, entry: u8) -> &'static [u8]
        ensures { result.now ≡ definition.type_name entry self }
    {
        if entry < position_bus::WIDTH {
            match self {
                Quantity::Sum => b"int64",
                _ => b"int32",
            }
        } else if entry < entries::BITS0 {
            b"uint64"
        } else {
            b"uint32"
        }
    }

    /// What is added to it where it is scaled.
    pub(crate) fn offset(self, field: &Field) -> Decimal9
        ensures value { result.billionths ≡ definition.offset_of field.now self }
        ensures small { unsigned_abs field.now.offset.billionths < 10 ^ 18 → unsigned_abs result.billionths < 10 ^ 18 }
    {
        match self {
            Quantity::Sum => Decimal9 { billionths: 0 },
            _ => field.offset,
        }
    }
}

/// What is captured of an entry.
pub(crate) fn quantities_of(choice: Choice) -> &'static [Quantity]
    ensures { result.now ≡ definition.quantities_of choice }
{
    match choice {
        Choice::No => &[],
        Choice::Value => &[Quantity::Value],
        Choice::Min => &[Quantity::Min],
        Choice::Max => &[Quantity::Max],
        Choice::Sum => &[Quantity::Sum],
        Choice::MinMax => &[Quantity::Min, Quantity::Max],
        Choice::MinMaxSum => &[Quantity::Min, Quantity::Max, Quantity::Sum],
    }
}
