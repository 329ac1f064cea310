//! The clocks.

/// The place of CLOCK among the blocks.
pub const BLOCK: u8 = 8;
/// How many there are.
pub const INSTANCES: u8 = 2;

// The places of its fields.
pub const ENABLE: u8 = 0;

pub const PERIOD: u8 = 1;

pub const WIDTH: u8 = 2;

pub const OUT: u8 = 3;
