//! The labels of RELATIVE.

pub const ABSOLUTE: u8 = 0;

pub const RELATIVE: u8 = 1;
