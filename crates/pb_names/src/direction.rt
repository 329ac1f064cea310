//! The labels of DIR of PCOMP.

pub const POSITIVE: u8 = 0;

pub const NEGATIVE: u8 = 1;

pub const EITHER: u8 = 2;
