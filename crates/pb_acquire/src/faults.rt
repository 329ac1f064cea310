use pb_words::Refusal;

/// Why nothing was armed.
#[derive(Clone, Copy, Debug, PartialEq, Eq)]
pub enum ArmFault {
    /// The command is refused: one is armed or running, or nothing is captured.
    Refused(Refusal),
    /// There is no memory for a first record.
    OutOfMemory,
}
