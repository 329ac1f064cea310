//! The pulse dividers.

/// The place of DIV among the blocks.
pub const BLOCK: u8 = 5;
/// How many there are.
pub const INSTANCES: u8 = 4;

// The places of its fields.
pub const ENABLE: u8 = 0;

pub const INP: u8 = 1;

pub const DIVISOR: u8 = 2;

pub const FIRST_PULSE: u8 = 3;

pub const COUNT: u8 = 4;

pub const OUTD: u8 = 5;

pub const OUTN: u8 = 6;
