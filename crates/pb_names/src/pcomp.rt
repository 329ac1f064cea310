//! The position compares.

/// The place of PCOMP among the blocks.
pub const BLOCK: u8 = 10;
/// How many there are.
pub const INSTANCES: u8 = 2;

// The places of its fields.
pub const ENABLE: u8 = 0;

pub const INP: u8 = 1;

pub const PRE_START: u8 = 2;

pub const START: u8 = 3;

pub const STEP: u8 = 4;

pub const WIDTH: u8 = 5;

pub const PULSES: u8 = 6;

pub const RELATIVE: u8 = 7;

pub const DIR: u8 = 8;

pub const STATE: u8 = 9;

pub const PRODUCED: u8 = 10;

pub const OUT: u8 = 11;

pub const ACTIVE: u8 = 12;
