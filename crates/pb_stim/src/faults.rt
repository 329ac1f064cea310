ghost use Rattle.std.specs.Prelude.{◌≡◌};
ghost use Rattle.pb_stim.specs.declared.faults.StimFault.TheVariants.{OutOfMemory};

use crate::causes::Cause;
use pb_words::OutOfMemory;
use thiserror::Error;

/// Why bytes give no stimulus.
#[derive(Clone, Copy, Debug, PartialEq, Eq, Error)]
pub enum StimFault {
    /// The first line that breaks a rule, counted from 1, and the first rule that it breaks. `AfterTheEnd`, `SessionOutOfRange` and
    /// `NoEndLine` don't come.
    #[error("line {line}: {cause}")]
    Line { line: u64, cause: Cause },
    /// There is no memory to keep the rows.
    #[error("out of memory")]
    OutOfMemory,
}

impl From<OutOfMemory> for StimFault {
    ghost from_gives = { λ _ e. e ≡ OutOfMemory };

    fn from(_e: OutOfMemory) -> StimFault {
        StimFault::OutOfMemory
    }
}
