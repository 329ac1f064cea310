//! The numbers of the lists of labels.

pub const WHEN_DISABLED: u8 = 1;

pub const EDGE: u8 = 2;

pub const FIRST_PULSE: u8 = 3;

pub const SEQ_STATE: u8 = 4;

pub const RELATIVE: u8 = 5;

pub const DIRECTION: u8 = 6;

pub const PCOMP_STATE: u8 = 7;

pub const POSITION_CAPTURE: u8 = 8;

pub const FIELD_CAPTURE: u8 = 9;

pub const TIME_UNITS: u8 = 10;
