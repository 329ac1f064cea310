//! The entries of the bit bus, and what else a bit input can select.

/// How many entries there are.
pub const WIDTH: u8 = 128;
/// How many entries a word of the bus has.
pub const WORD: u8 = 32;
/// How many entries have a name; they come first, and the others are always 0.
pub const USED: u8 = 63;
/// The raw value of a bit input that selects ZERO.
pub const ZERO: u8 = 128;
/// The raw value of a bit input that selects ONE.
pub const ONE: u8 = 129;
/// The longest delay of a bit input, in ticks of 8 ns.
pub const MAX_DELAY: u8 = 31;
