/// What a step hands out beside the block's outputs.
#[derive(Clone, Copy, Debug, PartialEq, Eq)]
pub enum Emit {
    Nothing,
    /// PCAP captured a record.
    Record(Record),
    /// PCAP's acquisition is over.
    Completed(Condition),
}

/// How an acquisition ended.
#[derive(Clone, Copy, Debug, PartialEq, Eq)]
pub enum Condition {
    /// ENABLE fell.
    Ok,
    /// It was disarmed by a command.
    Disarmed,
    /// A record was due and there was no room for it.
    Overrun,
}

/// One captured record. Ticks are of 8 ns, and a time stamp counts them from the tick at which PCAP
/// was enabled.
#[derive(Clone, Copy, Debug, PartialEq, Eq)]
pub struct Record {
    /// The value of each entry of the position bus at the tick of the record.
    pub value: [i32; 32],
    /// The least value of each entry in the samples of the record.
    pub least: [i32; 32],
    /// The greatest value of each entry in the samples of the record.
    pub greatest: [i32; 32],
    /// The sum of each entry over the samples of the record, modulo 2^64.
    pub sum: [i64; 32],
    /// The time stamp of the first sample.
    pub ts_start: u64,
    /// The time stamp after the last sample.
    pub ts_end: u64,
    /// The time stamp of the record itself.
    pub ts_trig: u64,
    /// The number of samples.
    pub gate_duration: u64,
    /// The bits of the bit bus at the tick of the record: bit b of word w is entry 32w + b.
    pub words: [u32; 4],
}
