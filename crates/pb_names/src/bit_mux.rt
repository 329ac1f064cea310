//! The attributes of a bit input: the places in its list, from 1.

pub const INFO: u8 = 1;

pub const DELAY: u8 = 2;

pub const MAX_DELAY: u8 = 3;
