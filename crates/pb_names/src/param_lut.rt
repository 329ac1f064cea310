//! The attributes of a function of a LUT: the places in its list, from 1.

pub const INFO: u8 = 1;

pub const RAW: u8 = 2;
