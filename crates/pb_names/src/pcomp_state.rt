//! The states of a position compare.

pub const WAIT_ENABLE: u8 = 0;

pub const WAIT_DIR: u8 = 1;

pub const WAIT_PRE_START: u8 = 2;

pub const WAIT_RISING: u8 = 3;

pub const WAIT_FALLING: u8 = 4;
