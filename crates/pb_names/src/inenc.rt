//! The input encoders.

/// The place of INENC among the blocks.
pub const BLOCK: u8 = 1;
/// How many there are.
pub const INSTANCES: u8 = 4;

// The places of its fields.
pub const VAL: u8 = 0;
