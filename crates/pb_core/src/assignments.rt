ghost use Rattle.std.specs.Prelude.{◌≡◌, ◌+◌, ◌≤◌, IfOk, OnOk, OnErr};
ghost use Rattle.pb_core.specs.Core.{CoreState};
ghost use Rattle.pb_going.specs.Sims.{outdated};
ghost use Rattle.pb_core.specs.Kept.{Agrees, Stands};
ghost use Rattle.pb_core.specs.Assignments.{assignment};
ghost use Rattle.pb_core.specs.Answer.{done, left_by, Arms};
ghost use Rattle.pb_core.specs.Naming.{named_by};
ghost use Rattle.pb_core.specs.Sessions.{IsSession};

use crate::cores::Core;
use crate::events::Answer;
use crate::meanings::named_by;
use crate::targets::Named;
use pb_words::{OutOfMemory, Refusal, Steps};
use std::sync::ledger::Ledger;

/// The answer to an assignment of a session that is open. A refused one changes nothing. To arm an acquisition may lack
/// memory, which changes nothing either.
#[inline(never)]
pub(crate) fn assign<L: Ledger>(
    core: &mut Core,
    id: u32,
    target: &[u8],
    value: &[u8],
    steps: &mut Steps<L>,
) -> Result<Answer, OutOfMemory>
    requires { IsSession id }
    ensures answer { (state : CoreState) → Agrees core.old state →
        IfOk result (λ told. told ≡ done (assignment state.settings state.acquisitions target.now value.now)) }
    ensures core { (state : CoreState) → Agrees core.old state →
        OnOk result (Stands core.new (left_by state id (assignment state.settings state.acquisitions target.now value.now))) }
    ensures err { OnErr result (core.new ≡ core.old) }
    ensures memory { (state : CoreState) → Agrees core.old state →
        OnErr result (Arms target.now (done (assignment state.settings state.acquisitions target.now value.now))) }
    ensures outdated { outdated core.new.sim ≤ outdated core.old.sim + 1 }
    ensures counts { steps.new ≤ steps.old + 12 }
{
    match named_by(core.catalog(), target) {
        Ok(Named::Value(slot)) => Ok(core.set(slot, value, steps)),
        Ok(Named::Captures) => Ok(core.clear_captures(value)),
        Ok(Named::Changes(group)) => Ok(core.reset_marks(id, group, value, steps)),
        Ok(Named::Arming) => core.arm(value, steps),
        Ok(Named::Disarming) => Ok(core.disarm(value, steps)),
        Ok(_) => Ok(Answer::Error(Refusal::NotWriteable)),
        Err(refusal) => Ok(Answer::Error(refusal)),
    }
}
