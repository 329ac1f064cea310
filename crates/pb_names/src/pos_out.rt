//! The attributes of a position output: the places in its list, from 1.

pub const INFO: u8 = 1;

pub const CAPTURE: u8 = 2;

pub const OFFSET: u8 = 3;

pub const SCALE: u8 = 4;

pub const UNITS: u8 = 5;

pub const SCALED: u8 = 6;
