//! The attributes of a bit output: the places in its list, from 1.

pub const INFO: u8 = 1;

pub const CAPTURE_WORD: u8 = 2;

pub const OFFSET: u8 = 3;
