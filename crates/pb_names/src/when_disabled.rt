//! The labels of WHEN_DISABLED.

pub const LOW: u8 = 0;

pub const HIGH: u8 = 1;

pub const KEEP: u8 = 2;
