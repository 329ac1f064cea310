//! The attributes of a time: the places in its list, from 1.

pub const INFO: u8 = 1;

pub const UNITS: u8 = 2;

pub const RAW: u8 = 3;
