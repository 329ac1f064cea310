//! The position capture.

/// The place of PCAP among the blocks.
pub const BLOCK: u8 = 11;
/// How many there are.
pub const INSTANCES: u8 = 1;

// The places of its fields.
pub const ENABLE: u8 = 0;

pub const GATE: u8 = 1;

pub const TRIG: u8 = 2;

pub const TRIG_EDGE: u8 = 3;

pub const TS_START: u8 = 4;

pub const TS_END: u8 = 5;

pub const TS_TRIG: u8 = 6;

pub const GATE_DURATION: u8 = 7;

pub const BITS0: u8 = 8;

pub const BITS1: u8 = 9;

pub const BITS2: u8 = 10;

pub const BITS3: u8 = 11;

pub const ACTIVE: u8 = 12;
