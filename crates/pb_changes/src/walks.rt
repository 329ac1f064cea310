ghost use Rattle.std.specs.Prelude.{◌≡◌, ℕ, true, ◌<◌, ◌≤◌, ◌++◌, OnOk, Some};
ghost use Rattle.pb_fields.specs.Order.{slots};
ghost use Rattle.pb_fields.specs.Slots.{IsSlot};
ghost use Rattle.pb_replies.specs.Replies.{listed};
ghost use Rattle.pb_changes.specs.Groups.{is_in};
ghost use Rattle.pb_changes.specs.Past.{Past, AgreesWithPast};
ghost use Rattle.pb_changes.specs.Report.{line};
ghost use Rattle.pb_changes.specs.Helpers.{is_due, is_later, is_unread, lines_due, NoneIsDue};

use crate::faces::Face;
use crate::groups::{Group, is_in};
use crate::lines::{add_table, add_value};
use pb_fields::{Slot, following, output_entry};
use pb_words::{OutOfMemory, Text};

/// More than there are slots in the catalogue.
const WALK: u16 = 2000;

/// The entries of both buses.
const ENTRIES: u8 = 160;

/// Adds the lines of a group other than READ that came after the mark; all where there is no mark.
pub(crate) fn add_changed<F: Face>(
    text: &mut Text,
    group: Group,
    mark: Option<u64>,
    face: &F,
) -> Result<(), OutOfMemory>
    requires { is_unread group ≡ true }
    ensures { (past : Past) → AgreesWithPast (F.told face.now) past →
        OnOk result (text.new ≡ text.old ++ lines_due group mark (F.told face.now) slots) }
{
    if is_quiet(group, mark, face) {
        return Ok(());
    }
    walk(text, group, mark, face)
}

/// Whether nothing of the group came after the mark.
fn is_quiet<F: Face>(group: Group, mark: Option<u64>, face: &F) -> bool
    ensures { (past : Past) → AgreesWithPast (F.told face.now) past → result ≡ true → NoneIsDue group mark (F.told face.now) }
{
    match mark {
        None => false,
        Some(mark) => is_quiet_since(group, mark, face),
    }
}

fn is_quiet_since<F: Face>(group: Group, mark: u64, face: &F) -> bool
    ensures { (past : Past) → AgreesWithPast (F.told face.now) past → result ≡ true → NoneIsDue group (Some mark) (F.told face.now) }
{
    match group {
        Group::Bits => buses_are_quiet(mark, face),
        Group::Posn => buses_are_quiet(mark, face),
        _ => face.assignments() <= mark && face.assignments() < u64::MAX,
    }
}

/// Whether no entry changed after the tick.
fn buses_are_quiet<F: Face>(tick: u64, face: &F) -> bool
    ensures { result ≡ true → (entry : ℕ) → entry < 160 → (F.told face.now).changed_at entry ≤ tick }
{
    for entry in 0..ENTRIES {
        if face.changed_at(entry) > tick {
            return false;
        }
    }
    true
}

/// Adds the lines of a group, slot after slot.
fn walk<F: Face>(
    text: &mut Text,
    group: Group,
    mark: Option<u64>,
    face: &F,
) -> Result<(), OutOfMemory>
    requires { is_unread group ≡ true }
    ensures { OnOk result (text.new ≡ text.old ++ lines_due group mark (F.told face.now) slots) }
{
    let mut next = following(None);
    for _step in 0..WALK {
        let Some(slot) = next else {
            return Ok(());
        };
        if is_in(group, slot) && is_due(group, mark, slot, face) {
            add_line(text, group, slot, face)?;
        }
        next = following(Some(slot));
    }
    Ok(())
}

/// Whether the slot came after the mark.
fn is_due<F: Face>(group: Group, mark: Option<u64>, slot: Slot, face: &F) -> bool
    requires { IsSlot slot }
    ensures { result ≡ is_due group mark (F.told face.now) slot }
{
    match mark {
        None => true,
        Some(mark) => is_later(group, mark, slot, face),
    }
}

fn is_later<F: Face>(group: Group, mark: u64, slot: Slot, face: &F) -> bool
    requires { IsSlot slot }
    ensures { result ≡ is_later group mark (F.told face.now) slot }
{
    match group {
        Group::Bits | Group::Posn => face.changed_at(output_entry(slot)) > mark,
        _ => {
            let place = face.assigned_at(slot);
            place > mark || place == u64::MAX
        }
    }
}

/// Adds the line of a slot of the group.
fn add_line<F: Face>(text: &mut Text, group: Group, slot: Slot, face: &F) -> Result<(), OutOfMemory>
    requires slot { IsSlot slot }
    requires unread { is_unread group ≡ true }
    requires member { is_in group slot ≡ true }
    ensures { OnOk result (text.new ≡ text.old ++ listed (line (F.told face.now).shows group slot)) }
{
    if let Group::Table = group {
        return add_table(text, slot);
    }
    let mut value = [0; 128];
    let len = face.show(slot, &mut value);
    add_value(text, slot, &value[..len])
}
