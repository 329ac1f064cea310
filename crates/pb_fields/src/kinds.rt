/// What the value of a field or an attribute is, and so how it is written.
#[derive(Clone, Copy, Debug, PartialEq, Eq)]
pub enum FieldKind {
    /// A whole number up to the limit.
    Uint { limit: u64 },
    /// A whole number of signed 32 bits.
    Int,
    /// 0 or 1.
    Bit,
    /// A label of the list of that number.
    Enum { labels: u8 },
    /// An entry of the bit bus, ZERO or ONE.
    BitMux,
    /// An entry of the position bus, or ZERO.
    PosMux,
    /// A decimal, as SCALE and OFFSET.
    Decimal,
    /// A time up to that many ticks, written in the unit: 0 for s, 1 for ms, 2 for us.
    Time { limit: u64, units: u8 },
    /// The function of a lookup table.
    Lut,
    /// A text that starts something and means no number.
    Action,
    /// Whatever isn't one number.
    Text,
}
