/// Where a line begins.
#[derive(Clone, Copy, Debug)]
pub struct Place {
    /// Its number, counted from 1.
    pub number: u64,
    /// How many bytes stand before it.
    pub before: usize,
    /// The tick of the last line with a tick, and 0 before the first, in ticks of 8 ns.
    pub last: u64,
    /// The end has come.
    pub ended: bool,
}
