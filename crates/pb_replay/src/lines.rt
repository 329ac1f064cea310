/// What a line does at its tick. All numbers are in range.
#[derive(Clone, Copy, Debug)]
pub enum ReadDeed<'a> {
    /// From here on an input has this value: 0 to 5 are TTLIN1 to TTLIN6, with 0 or 1, and 6 to 9 INENC1 to INENC4.
    Level(u8, i32),
    /// A control session, 1 to 8, sends this line.
    Command(u32, &'a [u8]),
    /// A control session closes.
    CloseControl(u32),
    /// A data session, 1 to 8, opens with this options line.
    OpenData(u32, &'a [u8]),
    /// A data session takes one piece.
    Take(u32),
    /// A data session closes.
    CloseData(u32),
    /// The end of the script.
    End,
}

/// A line of a script.
#[derive(Clone, Copy, Debug)]
pub enum ReadLine<'a> {
    /// Empty, or a comment.
    Skipped,
    /// A deed at a tick.
    Timed(u64, ReadDeed<'a>),
}
