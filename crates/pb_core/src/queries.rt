ghost use Rattle.std.specs.Prelude.{◌≡◌, ◌+◌, ◌≤◌, ℕ, false, List, [], Option, IfOk, OnOk, OnErr};
ghost use Rattle.pb_fields.specs.Slots.{IsSlot};
ghost use Rattle.pb_model.specs.Kept.{stands_of};
ghost use Rattle.pb_acquire.specs.Acquisitions.{AllAcquisitions};
ghost use Rattle.pb_acquire.specs.Kept as acquire;
ghost use Rattle.pb_grammar.specs.Grammar.{Query};
ghost use Rattle.pb_changes.specs.declared.Group.{Group};
ghost use Rattle.pb_core.specs.Core.{CoreState};
ghost use Rattle.pb_going.specs.Sims.{outdated};
ghost use Rattle.pb_core.specs.Kept.{box_of, Agrees};
ghost use Rattle.pb_core.specs.Naming.{named_by};
ghost use Rattle.pb_core.specs.Sessions.{IsSession, open_of};
ghost use Rattle.pb_core.specs.Queries.{named_reply, labels_or_refused};
ghost use Rattle.pb_core.specs.Answer.{replied, line_answer, asked_of, IsReply};
ghost use Rattle.pb_core.specs.Helpers.{IsThere, is_report, is_value};

use crate::captures::{captured_reply, captures_reply, completion_reply, status_reply};
use crate::cores::Core;
use crate::events::Answer;
use crate::meanings::named_by;
use crate::targets::Named;
use crate::values::slot_answer;
use crate::who::who_reply;
use pb_fields::Slot;
use pb_replies::{
    attributes_reply, blocks_reply, fields_reply, has_labels, labels_reply, positions_reply,
    value_reply,
};
use pb_words::{OutOfMemory, Refusal, Steps, Text};
use std::sync::ledger::Ledger;

/// The answer to the query of a target by a session that is open. A report counts as told; else nothing changes.
pub(crate) fn query<L: Ledger>(
    core: &mut Core,
    id: u32,
    target: &[u8],
    steps: &mut Steps<L>,
) -> Result<Answer, OutOfMemory>
    requires { IsSession id }
    ensures ok { (state : CoreState) → Agrees core.old state →
        IfOk result (λ told. told ≡ line_answer state id (Query target.now)) }
    ensures core { (state : CoreState) → Agrees core.old state → OnOk result (Agrees core.new (asked_of state id (named_by target.now))) }
    ensures err { (state : CoreState) → Agrees core.old state → OnErr result (Agrees core.new state) }
    ensures memory { (state : CoreState) → Agrees core.old state → OnErr result (IsReply (line_answer state id (Query target.now))) }
    ensures outdated { outdated core.new.sim ≡ outdated core.old.sim }
    ensures counts { steps.new ≤ steps.old + 12 }
{
    match named_by(core.catalog(), target) {
        Ok(Named::Changes(group)) => core.report(id, group, steps),
        Ok(named) => asked(core, named, steps),
        Err(refusal) => Ok(Answer::Error(refusal)),
    }
}

/// The answer to the query of what is named, in the memory of a reply that was given back. A report is none of these.
fn asked<L: Ledger>(
    core: &mut Core,
    named: Named,
    steps: &mut Steps<L>,
) -> Result<Answer, OutOfMemory>
    requires there { IsThere named }
    requires other { is_report named ≡ false }
    ensures ok { (all : AllAcquisitions) (reports : Option Group → List ℕ) → acquire.Agrees core.old.acquisitions all →
        IfOk result (λ told. told ≡ replied (named_reply core.old.config.settings (stands_of (box_of core.old)) (open_of core.old.sessions) all reports named)) }
    ensures memory { (all : AllAcquisitions) (reports : Option Group → List ℕ) → acquire.Agrees core.old.acquisitions all →
        OnErr result (IsReply (replied (named_reply core.old.config.settings (stands_of (box_of core.old)) (open_of core.old.sessions) all reports named))) }
    ensures agrees { (state : CoreState) → Agrees core.old state → Agrees core.new state }
    ensures outdated { outdated core.new.sim ≡ outdated core.old.sim }
    ensures counts { steps.new ≤ steps.old + 1 }
{
    let text = core.empty_text();
    named_answer(core, named, text, steps)
}

/// The answer to the query of what is named. A reply of one value stands in this text, which has nothing yet.
fn named_answer<L: Ledger>(
    core: &mut Core,
    named: Named,
    text: Text,
    steps: &mut Steps<L>,
) -> Result<Answer, OutOfMemory>
    requires there { IsThere named }
    requires other { is_report named ≡ false }
    requires empty { text ≡ [] }
    ensures ok { (all : AllAcquisitions) (reports : Option Group → List ℕ) → acquire.Agrees core.old.acquisitions all →
        IfOk result (λ told. told ≡ replied (named_reply core.old.config.settings (stands_of (box_of core.old)) (open_of core.old.sessions) all reports named)) }
    ensures memory { (all : AllAcquisitions) (reports : Option Group → List ℕ) → acquire.Agrees core.old.acquisitions all →
        OnErr result (IsReply (replied (named_reply core.old.config.settings (stands_of (box_of core.old)) (open_of core.old.sessions) all reports named))) }
    ensures agrees { (state : CoreState) → Agrees core.old state → Agrees core.new state }
    ensures outdated { outdated core.new.sim ≡ outdated core.old.sim }
    ensures counts { steps.new ≤ steps.old + 1 }
{
    match named {
        Named::Value(slot) => slot_answer(core, slot, text, steps),
        other => other_answer(core, other),
    }
}

/// The answer to the query of what is named, where that is neither one value nor a report.
#[inline(never)]
fn other_answer(core: &Core, named: Named) -> Result<Answer, OutOfMemory>
    requires there { IsThere named }
    requires other { is_report named ≡ false }
    requires value { is_value named ≡ false }
    ensures ok { (all : AllAcquisitions) (reports : Option Group → List ℕ) → acquire.Agrees core.now.acquisitions all →
        IfOk result (λ told. told ≡ replied (named_reply core.now.config.settings (stands_of (box_of core.now)) (open_of core.now.sessions) all reports named)) }
    ensures memory { (all : AllAcquisitions) (reports : Option Group → List ℕ) → acquire.Agrees core.now.acquisitions all →
        OnErr result (IsReply (replied (named_reply core.now.config.settings (stands_of (box_of core.now)) (open_of core.now.sessions) all reports named))) }
{
    match named {
        Named::Identity => Ok(Answer::Reply(value_reply(core.alloc(), b"panda_sim 1.0")?)),
        Named::Sessions => Ok(Answer::Reply(who_reply(
            core.alloc(),
            core.sessions(),
            core.acquisitions(),
        )?)),
        Named::Blocks => Ok(Answer::Reply(blocks_reply(core.alloc())?)),
        Named::Positions => Ok(Answer::Reply(positions_reply(core.alloc())?)),
        Named::Captures => Ok(Answer::Reply(captures_reply(core.alloc(), core.settings())?)),
        Named::Changes(_) | Named::Value(_) => unreachable!(),
        Named::Arming | Named::Disarming => Ok(Answer::Error(Refusal::NotReadable)),
        Named::Status => Ok(Answer::Reply(status_reply(core.alloc(), core.acquisitions())?)),
        Named::Captured => Ok(Answer::Reply(captured_reply(core.alloc(), core.acquisitions())?)),
        Named::Completion => Ok(Answer::Reply(completion_reply(
            core.alloc(),
            core.acquisitions(),
        )?)),
        Named::Labels(slot) => labels_answer(core, slot),
        Named::Fields(block) => Ok(Answer::Reply(fields_reply(core.alloc(), block)?)),
        Named::Attributes(slot) => Ok(Answer::Reply(attributes_reply(core.alloc(), slot)?)),
    }
}

/// The labels of a slot, which is refused where it has none.
fn labels_answer(core: &Core, slot: Slot) -> Result<Answer, OutOfMemory>
    requires { IsSlot slot }
    ensures ok { IfOk result (λ told. told ≡ replied (labels_or_refused slot)) }
    ensures memory { OnErr result (IsReply (replied (labels_or_refused slot))) }
{
    if has_labels(slot) {
        Ok(Answer::Reply(labels_reply(core.alloc(), slot)?))
    } else {
        Ok(Answer::Error(Refusal::NotReadable))
    }
}
