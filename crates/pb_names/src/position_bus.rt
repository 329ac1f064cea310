//! The entries of the position bus, and what else a position input can select.

/// How many entries there are.
pub const WIDTH: u8 = 32;
/// How many entries have a name; they come first, and the others are always 0.
pub const USED: u8 = 12;
/// The raw value of a position input that selects ZERO.
pub const ZERO: u8 = 32;
/// What a position's entry is counted from where both buses are counted as one.
pub const FIRST: u8 = 128;
