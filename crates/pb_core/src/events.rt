ghost use Rattle.std.specs.Prelude.{◌≡◌};

use pb_jump::Why;
use pb_words::{Refusal, Text};

/// What may happen to the core. Sessions have the ids 1 to 8, control sessions and data sessions each.
#[derive(Debug, Drop)]
pub enum Event {
    /// A control session opens.
    OpenControl { id: u32 },
    /// A control session sends a whole command, its newline included.
    Line { id: u32, text: Text },
    /// A control session sends a command that is refused for this reason as it is put together.
    Bad { id: u32, refusal: Refusal },
    /// A control session closes.
    CloseControl { id: u32 },
    /// A data session opens with this options line, which has no newline. One that is open is replaced.
    OpenData { id: u32, options: Text },
    /// A data session takes one piece.
    Take { id: u32 },
    /// A data session closes.
    CloseData { id: u32 },
    /// The box is stepped up to this tick, which is below 2^62, or until it has stepped so many eventful ticks and the
    /// next is eventful too. These are at least 1.
    Advance { to: u64, most: u64 },
}

/// What the core answers to an event.
#[derive(Debug, Drop)]
pub enum Answer {
    /// There is nothing to say.
    Nothing,
    /// Done.
    Ok,
    /// These lines.
    Reply(Text),
    /// The command is refused, and changed nothing.
    Error(Refusal),
    /// The data session is open, and wants to be told so or not.
    Opened { status: bool },
    /// A header, records or an end, as the data session asked for them. An end may be empty.
    Piece(Text),
    /// There is nothing to take yet.
    NotYet,
    /// The data session wanted one acquisition alone, and took all of it.
    Finished,
    /// The session isn't open.
    Closed,
    /// The box stands at this tick, for this reason.
    Reached { tick: u64, why: Why },
}

impl Answer {
    ghost use Rattle.pb_core.specs.Answer.{bytes_of};

    /// What a session writes for the answer.
    pub fn bytes(&self) -> &[u8]
        ensures { result.now ≡ bytes_of self.now }
    {
        match self {
            Answer::Ok | Answer::Opened { status: true } => b"OK\n",
            Answer::Reply(text) | Answer::Piece(text) => text.bytes(),
            Answer::Error(refusal) => refusal.line(),
            Answer::Nothing
            | Answer::Opened { status: false }
            | Answer::NotYet
            | Answer::Finished
            | Answer::Closed
            | Answer::Reached { .. } => b"",
        }
    }
}
