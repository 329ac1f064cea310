//! The sequencers.

/// The place of SEQ among the blocks.
pub const BLOCK: u8 = 9;
/// How many there are.
pub const INSTANCES: u8 = 2;

// The places of its fields.
pub const ENABLE: u8 = 0;

pub const BITA: u8 = 1;

pub const BITB: u8 = 2;

pub const BITC: u8 = 3;

pub const POSA: u8 = 4;

pub const POSB: u8 = 5;

pub const POSC: u8 = 6;

pub const PRESCALE: u8 = 7;

pub const REPEATS: u8 = 8;

pub const TABLE: u8 = 9;

pub const STATE: u8 = 10;

pub const TABLE_LINE: u8 = 11;

pub const LINE_REPEAT: u8 = 12;

pub const TABLE_REPEAT: u8 = 13;

pub const OUTA: u8 = 14;

pub const OUTB: u8 = 15;

pub const OUTC: u8 = 16;

pub const OUTD: u8 = 17;

pub const OUTE: u8 = 18;

pub const OUTF: u8 = 19;

pub const ACTIVE: u8 = 20;
