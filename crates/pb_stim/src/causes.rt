use thiserror::Error;

/// Why a line of a script, or of a stimulus, is refused.
#[derive(Clone, Copy, Debug, PartialEq, Eq, Error)]
pub enum Cause {
    /// The line holds a byte beyond 16 MiB. Its newline belongs to it.
    #[error("too large")]
    TooLarge,
    /// The bytes end in the middle of the line.
    #[error("no newline")]
    NoNewline,
    /// The line isn't skipped, and the end came before it.
    #[error("after the end")]
    AfterTheEnd,
    /// The line has none of the forms.
    #[error("malformed")]
    Malformed,
    /// The tick is 2^62 or more.
    #[error("tick out of range")]
    TickOutOfRange,
    /// The tick is below that of the line before.
    #[error("tick falls")]
    TickFalls,
    /// No input from outside has this name.
    #[error("unknown target")]
    UnknownTarget,
    /// The number of the session isn't 1 to 8.
    #[error("session out of range")]
    SessionOutOfRange,
    /// The value doesn't fit its target.
    #[error("value out of range")]
    ValueOutOfRange,
    /// The end never came. The line is the one behind the last.
    #[error("no end line")]
    NoEndLine,
}
