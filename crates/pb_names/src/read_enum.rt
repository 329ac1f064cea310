//! The attributes of a choice that is only read: the places in its list, from 1.

pub const INFO: u8 = 1;

pub const LABELS: u8 = 2;
