ghost use Rattle.std.specs.Prelude.{◌≡◌, ◌+◌, ◌≤◌, [], None, Some, IfOk, OnErr, true};
ghost use Rattle.pb_fields.specs.Slots.{IsSlot, type_at, attribute_at};
ghost use Rattle.pb_config.specs.Settings.{field_slot};
ghost use Rattle.pb_config.specs.Showing.{is_line, scaled_shown};
ghost use Rattle.pb_replies.specs.Replies.{value_reply};
ghost use Rattle.pb_model.specs.Kept.{stands_of};
ghost use Rattle.pb_going.specs.Sims.{outdated};
ghost use Rattle.pb_core.specs.Core.{CoreState};
ghost use Rattle.pb_core.specs.Kept.{box_of, Agrees};
ghost use Rattle.pb_core.specs.Queries.{slot_reply};
ghost use Rattle.pb_core.specs.Helpers.{is_reported};
ghost use Rattle.pb_core.specs.Answer.{replied, IsReply};

use crate::cores::Core;
use crate::events::Answer;
use crate::showing::{ROOM, level_shown, position, show_position};
use pb_config::field_slot;
use pb_fields::{Attribute, FieldType, Slot, attribute, field_type, kind, show};
use pb_names::pcap;
use pb_replies::{
    base64_reply, labels_reply, number_reply, put_value, row_reply, table_reply, word_reply,
};
use pb_words::{OutOfMemory, Steps, Text};
use std::sync::ledger::Ledger;

/// The answer to the query of a field or an attribute. A reply of one value stands in this text, which has nothing yet.
pub(crate) fn slot_answer<L: Ledger>(
    core: &mut Core,
    slot: Slot,
    text: Text,
    steps: &mut Steps<L>,
) -> Result<Answer, OutOfMemory>
    requires slot { IsSlot slot }
    requires empty { text ≡ [] }
    ensures ok { IfOk result (λ told. told ≡ replied (slot_reply core.old.config.settings (stands_of (box_of core.old)) slot)) }
    ensures memory { OnErr result (IsReply (replied (slot_reply core.old.config.settings (stands_of (box_of core.old)) slot))) }
    ensures agrees { (state : CoreState) → Agrees core.old state → Agrees core.new state }
    ensures outdated { outdated core.new.sim ≡ outdated core.old.sim }
    ensures counts { steps.new ≤ steps.old + 1 }
{
    match attribute(slot) {
        None => field_answer(core, slot, text, steps),
        Some(attribute) => attribute_answer(core, slot, attribute, text),
    }
}

/// The answer to the query of a field.
#[tactic(auto, using(crate::proofs::TableLemmas::table_field))]
fn field_answer<L: Ledger>(
    core: &mut Core,
    slot: Slot,
    text: Text,
    steps: &mut Steps<L>,
) -> Result<Answer, OutOfMemory>
    requires slot { IsSlot slot }
    requires empty { text ≡ [] }
    requires field { attribute_at slot ≡ None }
    ensures ok { IfOk result (λ told. told ≡ replied (slot_reply core.old.config.settings (stands_of (box_of core.old)) slot)) }
    ensures memory { OnErr result (IsReply (replied (slot_reply core.old.config.settings (stands_of (box_of core.old)) slot))) }
    ensures agrees { (state : CoreState) → Agrees core.old state → Agrees core.new state }
    ensures outdated { outdated core.new.sim ≡ outdated core.old.sim }
    ensures counts { steps.new ≤ steps.old + 1 }
{
    match field_type(slot) {
        FieldType::ReadUint | FieldType::ReadEnum { .. } => read_answer(core, slot, text, steps),
        FieldType::BitOut => level_answer(core, slot, text),
        FieldType::PosOut => position_answer(core, slot, text),
        FieldType::Table => Ok(Answer::Reply(table_reply(
            core.alloc(),
            core.table(slot.instance),
        )?)),
        _ => setting_answer(core, slot, text),
    }
}

/// The answer to the query of an attribute.
#[tactic(auto, using(crate::proofs::FieldLemmas::word_within, crate::proofs::TableLemmas::table_base64))]
fn attribute_answer(
    core: &Core,
    slot: Slot,
    attribute: Attribute,
    text: Text,
) -> Result<Answer, OutOfMemory>
    requires slot { IsSlot slot }
    requires empty { text ≡ [] }
    requires which { attribute_at slot ≡ Some attribute }
    ensures ok { IfOk result (λ told. told ≡ replied (slot_reply core.now.config.settings (stands_of (box_of core.now)) slot)) }
    ensures memory { OnErr result (IsReply (replied (slot_reply core.now.config.settings (stands_of (box_of core.now)) slot))) }
{
    match attribute {
        Attribute::Labels => Ok(Answer::Reply(labels_reply(core.alloc(), field_slot(slot))?)),
        Attribute::Scaled => scaled_answer(core, slot, text),
        Attribute::Bits => Ok(Answer::Reply(word_reply(core.alloc(), slot.field - pcap::BITS0)?)),
        Attribute::Length => length_answer(core, slot),
        Attribute::Fields => Ok(Answer::Reply(row_reply(core.alloc())?)),
        Attribute::Base64 => Ok(Answer::Reply(base64_reply(
            core.alloc(),
            core.table(slot.instance),
        )?)),
        _ => setting_answer(core, slot, text),
    }
}

/// How many words a table has.
#[tactic(auto, using(crate::proofs::TableLemmas::table_length))]
fn length_answer(core: &Core, slot: Slot) -> Result<Answer, OutOfMemory>
    requires slot { IsSlot slot }
    requires which { attribute_at slot ≡ Some Attribute.Length }
    ensures ok { IfOk result (λ told. told ≡ replied (slot_reply core.now.config.settings (stands_of (box_of core.now)) slot)) }
    ensures memory { OnErr result (IsReply (replied (slot_reply core.now.config.settings (stands_of (box_of core.now)) slot))) }
{
    let length = core.table(slot.instance).len() as u64;
    Ok(Answer::Reply(number_reply(core.alloc(), length)?))
}

/// The value that the settings or the catalogue have.
#[inline(never)]
fn setting_answer(core: &Core, slot: Slot, text: Text) -> Result<Answer, OutOfMemory>
    requires slot { IsSlot slot }
    requires empty { text ≡ [] }
    requires line { is_line slot ≡ true }
    ensures ok { IfOk result (λ told. told ≡ replied (slot_reply core.now.config.settings (stands_of (box_of core.now)) slot)) }
    ensures memory { OnErr result (IsReply (replied (slot_reply core.now.config.settings (stands_of (box_of core.now)) slot))) }
{
    let mut out = [0; ROOM];
    match core.settings().show(slot, &mut out) {
        Ok(len) => shown_answer(text, &out[..len]),
        Err(refusal) => Ok(Answer::Error(refusal)),
    }
}

/// What a block reports: a number, or a label.
#[tactic(auto, using(crate::proofs::FieldLemmas::reported_read, crate::proofs::FieldLemmas::reported_shown))]
#[inline(never)]
fn read_answer<L: Ledger>(
    core: &mut Core,
    slot: Slot,
    text: Text,
    steps: &mut Steps<L>,
) -> Result<Answer, OutOfMemory>
    requires slot { IsSlot slot }
    requires empty { text ≡ [] }
    requires field { attribute_at slot ≡ None }
    requires reported { is_reported (type_at slot) ≡ true }
    ensures ok { IfOk result (λ told. told ≡ replied (slot_reply core.old.config.settings (stands_of (box_of core.old)) slot)) }
    ensures memory { OnErr result (IsReply (replied (slot_reply core.old.config.settings (stands_of (box_of core.old)) slot))) }
    ensures agrees { (state : CoreState) → Agrees core.old state → Agrees core.new state }
    ensures outdated { outdated core.new.sim ≡ outdated core.old.sim }
    ensures counts { steps.new ≤ steps.old + 1 }
{
    let mut out = [0; ROOM];
    let len = show(kind(slot), core.read(slot, steps), &mut out);
    shown_answer(text, &out[..len])
}

/// The level of an output.
#[tactic(auto, using(crate::proofs::FieldLemmas::level_role))]
fn level_answer(core: &Core, slot: Slot, text: Text) -> Result<Answer, OutOfMemory>
    requires slot { IsSlot slot }
    requires empty { text ≡ [] }
    requires field { attribute_at slot ≡ None }
    requires output { type_at slot ≡ FieldType.BitOut }
    ensures ok { IfOk result (λ told. told ≡ replied (slot_reply core.now.config.settings (stands_of (box_of core.now)) slot)) }
    ensures memory { OnErr result (IsReply (replied (slot_reply core.now.config.settings (stands_of (box_of core.now)) slot))) }
{
    shown_answer(text, level_shown(core.sim(), slot))
}

/// The value of a position.
#[tactic(auto, using(crate::proofs::FieldLemmas::position_role))]
#[inline(never)]
fn position_answer(core: &Core, slot: Slot, text: Text) -> Result<Answer, OutOfMemory>
    requires slot { IsSlot slot }
    requires empty { text ≡ [] }
    requires field { attribute_at slot ≡ None }
    requires output { type_at slot ≡ FieldType.PosOut }
    ensures ok { IfOk result (λ told. told ≡ replied (slot_reply core.now.config.settings (stands_of (box_of core.now)) slot)) }
    ensures memory { OnErr result (IsReply (replied (slot_reply core.now.config.settings (stands_of (box_of core.now)) slot))) }
{
    let mut out = [0; ROOM];
    let len = show_position(core.sim(), slot, &mut out);
    shown_answer(text, &out[..len])
}

/// The value of a position as its SCALED has it.
fn scaled_answer(core: &Core, slot: Slot, text: Text) -> Result<Answer, OutOfMemory>
    requires slot { IsSlot slot }
    requires empty { text ≡ [] }
    requires which { attribute_at slot ≡ Some Attribute.Scaled }
    ensures ok { IfOk result (λ told. told ≡ replied (slot_reply core.now.config.settings (stands_of (box_of core.now)) slot)) }
    ensures memory { OnErr result (IsReply (replied (slot_reply core.now.config.settings (stands_of (box_of core.now)) slot))) }
{
    scaled_number_answer(core, slot, position(core.sim(), slot), text)
}

/// The value times SCALE of the slot's position, plus its OFFSET.
#[inline(never)]
fn scaled_number_answer(
    core: &Core,
    slot: Slot,
    value: i32,
    text: Text,
) -> Result<Answer, OutOfMemory>
    requires slot { IsSlot slot }
    requires empty { text ≡ [] }
    requires which { attribute_at slot ≡ Some Attribute.Scaled }
    ensures { IfOk result (λ told. told ≡ Answer.Reply (value_reply (scaled_shown core.now.config.settings slot value))) }
{
    let mut out = [0; ROOM];
    let len = core.settings().show_scaled(slot, value, &mut out);
    shown_answer(text, &out[..len])
}

/// The reply of what is shown, in this text, which has nothing yet.
fn shown_answer(mut text: Text, shown: &[u8]) -> Result<Answer, OutOfMemory>
    requires { text ≡ [] }
    ensures { IfOk result (λ told. told ≡ Answer.Reply (value_reply shown.now)) }
{
    put_value(&mut text, shown)?;
    Ok(Answer::Reply(text))
}
