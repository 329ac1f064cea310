//! The units of a time.

pub const S: u8 = 0;

pub const MS: u8 = 1;

pub const US: u8 = 2;
