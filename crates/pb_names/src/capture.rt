//! The choices of CAPTURE.

pub const NO: u8 = 0;

pub const VALUE: u8 = 1;

pub const MIN: u8 = 2;

pub const MAX: u8 = 3;

pub const SUM: u8 = 4;

pub const MIN_MAX: u8 = 5;

pub const MIN_MAX_SUM: u8 = 6;
