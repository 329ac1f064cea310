//! The TTL inputs.

/// The place of TTLIN among the blocks.
pub const BLOCK: u8 = 0;
/// How many there are.
pub const INSTANCES: u8 = 6;

// The places of its fields.
pub const VAL: u8 = 0;
