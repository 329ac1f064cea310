use pb_stim::Cause;

/// How a run ends.
#[derive(Clone, Copy, Debug, PartialEq, Eq)]
pub enum Status {
    /// The input was read to its end, and all was written.
    Ok,
    /// The words are none that the program knows; nothing was read or written.
    Usage,
    /// The input is no script, or no stimulus: this line, counted from 1, is the first that breaks a rule, and this is the first rule that
    /// it breaks. Nothing was written.
    Script { line: u64, cause: Cause },
    /// The input failed; nothing was written.
    ReadFault,
    /// The output failed; it has the front of what was to be written.
    WriteFault,
    /// Memory ran out; the output has the front of what was to be written.
    OutOfMemory,
    /// This tick is the limit of the script: its 10,000,000th eventful one. The output has what the lines before it give.
    EventLimit { tick: u64 },
    /// A port can't be opened.
    PortFault,
    /// A thread can't be started.
    SpawnFault,
}
