//! The states of a sequencer.

pub const UNREADY: u8 = 0;

pub const WAIT_ENABLE: u8 = 1;

pub const WAIT_TRIGGER: u8 = 2;

pub const PHASE1: u8 = 3;

pub const PHASE2: u8 = 4;
