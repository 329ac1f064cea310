//! The pulse generators.

/// The place of PULSE among the blocks.
pub const BLOCK: u8 = 6;
/// How many there are.
pub const INSTANCES: u8 = 4;

// The places of its fields.
pub const ENABLE: u8 = 0;

pub const TRIG: u8 = 1;

pub const DELAY: u8 = 2;

pub const WIDTH: u8 = 3;

pub const PULSES: u8 = 4;

pub const STEP: u8 = 5;

pub const TRIG_EDGE: u8 = 6;

pub const QUEUED: u8 = 7;

pub const DROPPED: u8 = 8;

pub const OUT: u8 = 9;
