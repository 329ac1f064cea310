/// Where a line of a stimulus begins.
#[derive(Clone, Copy, Debug)]
pub struct Place {
    /// Its number, counted from 1.
    pub number: u64,
    /// How many bytes stand before it.
    pub before: usize,
    /// The tick of the last row, and 0 before the first, in ticks of 8 ns.
    pub last: u64,
}
