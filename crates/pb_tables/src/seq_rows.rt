/// One row of a sequencer's table. Bit 0 of `out1` and `out2` is output A, bit 5 output F. `time1` and `time2`
/// are in units of the prescaler.
#[derive(Clone, Copy, Debug, PartialEq, Eq, Drop)]
pub struct SeqRow {
    pub repeats: u16,
    pub trigger: u8,
    pub out1: u8,
    pub out2: u8,
    pub position: i32,
    pub time1: u32,
    pub time2: u32,
}
