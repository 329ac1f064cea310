//! The counters.

/// The place of COUNTER among the blocks.
pub const BLOCK: u8 = 7;
/// How many there are.
pub const INSTANCES: u8 = 8;

// The places of its fields.
pub const ENABLE: u8 = 0;

pub const TRIG: u8 = 1;

pub const DIR: u8 = 2;

pub const START: u8 = 3;

pub const STEP: u8 = 4;

pub const MIN: u8 = 5;

pub const MAX: u8 = 6;

pub const CARRY: u8 = 7;

pub const OUT: u8 = 8;
