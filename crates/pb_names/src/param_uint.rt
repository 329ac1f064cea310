//! The attributes of a whole number that can be set: the places in its list, from 1.

pub const INFO: u8 = 1;

pub const MAX: u8 = 2;
