//! The labels of FIRST_PULSE.

pub const OUT_N: u8 = 0;

pub const OUT_D: u8 = 1;
