//! The attributes of a word of bits: the places in its list, from 1.

pub const INFO: u8 = 1;

pub const CAPTURE: u8 = 2;

pub const BITS: u8 = 3;
