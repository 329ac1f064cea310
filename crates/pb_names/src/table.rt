//! The attributes of a table: the places in its list, from 1.

pub const INFO: u8 = 1;

pub const MAX_LENGTH: u8 = 2;

pub const LENGTH: u8 = 3;

pub const ROW_WORDS: u8 = 4;

pub const FIELDS: u8 = 5;

pub const B: u8 = 6;
