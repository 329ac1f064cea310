//! The attributes of what only PCAP knows: the places in its list, from 1.

pub const INFO: u8 = 1;

pub const CAPTURE: u8 = 2;
