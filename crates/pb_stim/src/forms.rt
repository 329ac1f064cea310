/// A line as it is written: numbers are digits, of which those of a value may have a minus sign before them.
#[derive(Clone, Copy, Debug)]
pub enum Form<'a> {
    /// Empty, or a comment.
    Skipped,
    /// A tick, the name of an input, and its value.
    Level(&'a [u8], &'a [u8], &'a [u8]),
}

/// A line as it is read. All numbers are in range.
#[derive(Clone, Copy, Debug)]
pub enum ReadLine {
    /// Empty, or a comment.
    Skipped,
    /// From this tick on an input has this value: 0 to 5 are TTLIN1 to TTLIN6, with 0 or 1, and 6 to 9 INENC1 to INENC4.
    Level(u64, u8, i32),
}
