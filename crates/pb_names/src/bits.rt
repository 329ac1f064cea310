//! Four bits that are set by hand.

/// The place of BITS among the blocks.
pub const BLOCK: u8 = 2;
/// How many there are.
pub const INSTANCES: u8 = 1;

// The places of its fields.
pub const A: u8 = 0;

pub const B: u8 = 1;

pub const C: u8 = 2;

pub const D: u8 = 3;

pub const OUTA: u8 = 4;

pub const OUTB: u8 = 5;

pub const OUTC: u8 = 6;

pub const OUTD: u8 = 7;
