ghost use Rattle.std.specs.Prelude.{◌≡◌};
ghost use Rattle.pb_replay.specs.declared.faults.ScriptFault.TheVariants.{OutOfMemory};

use pb_stim::Cause;
use pb_words::OutOfMemory;
use thiserror::Error;

/// Why bytes give no script.
#[derive(Clone, Copy, Debug, PartialEq, Eq, Error)]
pub enum ScriptFault {
    /// The first line that breaks a rule, counted from 1, and the first rule that it breaks.
    #[error("line {line}: {cause}")]
    Line { line: u64, cause: Cause },
    /// There is no memory to keep the script.
    #[error("out of memory")]
    OutOfMemory,
}

impl From<OutOfMemory> for ScriptFault {
    ghost from_gives = { λ _ e. e ≡ OutOfMemory };

    fn from(_e: OutOfMemory) -> ScriptFault {
        ScriptFault::OutOfMemory
    }
}
