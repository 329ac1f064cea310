//! The set-reset gates.

/// The place of SRGATE among the blocks.
pub const BLOCK: u8 = 4;
/// How many there are.
pub const INSTANCES: u8 = 4;

// The places of its fields.
pub const ENABLE: u8 = 0;

pub const SET: u8 = 1;

pub const RST: u8 = 2;

pub const WHEN_DISABLED: u8 = 3;

pub const SET_EDGE: u8 = 4;

pub const RST_EDGE: u8 = 5;

pub const FORCE_SET: u8 = 6;

pub const FORCE_RST: u8 = 7;

pub const OUT: u8 = 8;
