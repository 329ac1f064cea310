//! The labels of SET_EDGE, RST_EDGE and TRIG_EDGE.

pub const RISING: u8 = 0;

pub const FALLING: u8 = 1;

pub const EITHER: u8 = 2;
