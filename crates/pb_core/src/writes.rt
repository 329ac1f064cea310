ghost use Rattle.std.specs.Prelude.{◌≡◌, ◌+◌, ◌≤◌};
ghost use Rattle.pb_fields.specs.Slots.{IsSlot};
ghost use Rattle.pb_model.specs.Kept.{stands_of};
ghost use Rattle.pb_core.specs.Writing.{is_table, slot_written, table_write};
ghost use Rattle.pb_core.specs.Answer.{done, written_by};
ghost use Rattle.pb_core.specs.Core.{CoreState};
ghost use Rattle.pb_going.specs.Sims.{outdated};
ghost use Rattle.pb_core.specs.Kept.{box_of, Agrees, Stands};

use crate::cores::Core;
use crate::events::Answer;
use crate::meanings::named_by;
use crate::targets::Named;
use pb_fields::{FieldType, Slot, attribute, field_type};
use pb_words::{Refusal, Steps};
use std::sync::ledger::Ledger;

/// The answer to a table write. A refused one changes nothing.
#[inline(never)]
pub(crate) fn write<L: Ledger>(
    core: &mut Core,
    target: &[u8],
    append: bool,
    base64: bool,
    body: &[u8],
    steps: &mut Steps<L>,
) -> Answer
    ensures answer { result ≡ done (table_write (stands_of (box_of core.old)) target.now append base64 body.now) }
    ensures core { (state : CoreState) → Agrees core.old state → Stands core.new (written_by state (table_write state.box.stands target.now append base64 body.now)) }
    ensures outdated { outdated core.new.sim ≤ outdated core.old.sim + 1 }
    ensures counts { steps.new ≤ steps.old + 1 }
{
    match named_by(core.catalog(), target) {
        Ok(Named::Value(slot)) => write_slot(core, slot, append, base64, body, steps),
        Ok(_) => Answer::Error(Refusal::NotWriteable),
        Err(refusal) => Answer::Error(refusal),
    }
}

/// The answer to a table write to a field or an attribute, which only the table of a sequencer takes.
fn write_slot<L: Ledger>(
    core: &mut Core,
    slot: Slot,
    append: bool,
    base64: bool,
    body: &[u8],
    steps: &mut Steps<L>,
) -> Answer
    requires { IsSlot slot }
    ensures answer { result ≡ done (slot_written (stands_of (box_of core.old)) append base64 body.now slot) }
    ensures core { (state : CoreState) → Agrees core.old state → Stands core.new (written_by state (slot_written state.box.stands append base64 body.now slot)) }
    ensures outdated { outdated core.new.sim ≤ outdated core.old.sim + 1 }
    ensures counts { steps.new ≤ steps.old + 1 }
{
    if is_table(slot) {
        core.write_table(slot, append, base64, body, steps)
    } else {
        Answer::Error(Refusal::NotWriteable)
    }
}

/// Whether the slot is the table of a sequencer.
fn is_table(slot: Slot) -> bool
    requires { IsSlot slot }
    ensures { result ≡ is_table slot }
{
    match attribute(slot) {
        None => matches!(field_type(slot), FieldType::Table),
        Some(_) => false,
    }
}
