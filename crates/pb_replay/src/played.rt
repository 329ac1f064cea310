/// How the playing of a script ends.
#[derive(Clone, Copy, Debug, PartialEq, Eq)]
pub enum Played {
    /// All was written.
    Ok,
    /// The output failed; it has the front of what was to be written.
    WriteFault,
    /// Memory ran out; the output has the front of what was to be written.
    OutOfMemory,
    /// This tick is the limit: the 10,000,000th eventful one. The output has what the lines before give.
    EventLimit { tick: u64 },
}

/// How it went to tell sessions of an event.
#[derive(Clone, Copy, Debug, PartialEq, Eq)]
pub(crate) enum Told {
    /// All stands among what is to be written.
    Ok,
    /// The output failed.
    WriteFault,
    /// Memory ran out.
    OutOfMemory,
}

impl Told {
    ghost use Rattle.std.specs.Prelude.{◌≡◌};
    ghost use Rattle.pb_replay.specs.Pending.{played_of};

    /// How playing goes on.
    pub(crate) fn played(self) -> Played
        ensures { result ≡ played_of self }
    {
        match self {
            Told::Ok => Played::Ok,
            Told::WriteFault => Played::WriteFault,
            Told::OutOfMemory => Played::OutOfMemory,
        }
    }
}
