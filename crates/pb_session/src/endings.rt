/// How a control session ended.
#[derive(Clone, Copy, Debug, PartialEq, Eq)]
pub enum Ended {
    /// The client sent no more.
    Closed,
    /// A read failed.
    ReadFault,
    /// A write failed.
    WriteFault,
    /// There was no memory to begin with.
    NoMemory,
}

/// How a data session ended.
#[derive(Clone, Copy, Debug, PartialEq, Eq)]
pub enum DataEnded {
    /// It wanted one acquisition alone, and took all of it.
    Finished,
    /// Another data session took its id.
    Displaced,
    /// Its options line was refused.
    Refused,
    /// The client sent no whole options line.
    Closed,
    /// A read failed.
    ReadFault,
    /// A write failed.
    WriteFault,
    /// There was no memory for its options line, or for a piece.
    NoMemory,
}
