/// What stands behind the tick of a line, as it is written: numbers are digits, of which those of a value may have a
/// minus sign before them.
#[derive(Clone, Copy, Debug)]
pub enum Written<'a> {
    /// `S`: the name of an input and its value.
    Level(&'a [u8], &'a [u8]),
    /// `C`: the number of a control session and the line that it sends.
    Command(&'a [u8], &'a [u8]),
    /// `X`: the number of a control session.
    CloseControl(&'a [u8]),
    /// `D`: the number of a data session and its options line.
    OpenData(&'a [u8], &'a [u8]),
    /// `R`: the number of a data session.
    Take(&'a [u8]),
    /// `Y`: the number of a data session.
    CloseData(&'a [u8]),
    /// `E`.
    End,
}

/// A line as it is written.
#[derive(Clone, Copy, Debug)]
pub enum Form<'a> {
    /// Empty, or a comment.
    Skipped,
    /// A tick, and what stands behind it.
    Timed(&'a [u8], Written<'a>),
}
