//! What a record can hold, by number: the entries of the position bus, and after them what only PCAP knows.

/// The time stamp of the first sample.
pub const TS_START: u8 = 32;
/// The time stamp after the last sample.
pub const TS_END: u8 = 33;
/// The time stamp of the record.
pub const TS_TRIG: u8 = 34;
/// The number of samples.
pub const GATE_DURATION: u8 = 35;
/// The first of the four words of the bit bus.
pub const BITS0: u8 = 36;
/// How many there are.
pub const COUNT: u8 = 40;
