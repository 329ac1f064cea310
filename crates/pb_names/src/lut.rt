//! The lookup tables.

/// The place of LUT among the blocks.
pub const BLOCK: u8 = 3;
/// How many there are.
pub const INSTANCES: u8 = 8;

// The places of its fields.
pub const INPA: u8 = 0;

pub const INPB: u8 = 1;

pub const INPC: u8 = 2;

pub const INPD: u8 = 3;

pub const INPE: u8 = 4;

pub const FUNC: u8 = 5;

pub const OUT: u8 = 6;
