ghost use Rattle.std.specs.Prelude.{◌≡◌};
ghost use Rattle.pb_fields.specs.Slots.{IsSlot};
ghost use Rattle.pb_config.specs.Assigning.{is_assignable, is_units, target, changes_box, change_of};

use crate::places::field_slot;
use pb_fields::{Attribute, Slot, attribute, is_assigned, role};
use pb_model::{Change, is_taken_role};

/// Whether a value can be assigned to the slot.
pub(crate) fn is_assignable(slot: Slot) -> bool
    requires { IsSlot slot }
    ensures { result ≡ is_assignable slot }
{
    match attribute(slot) {
        None => is_taken_role(role(slot)),
        Some(attribute) => is_assigned(attribute),
    }
}

/// Whether it is the units of a position.
pub(crate) fn is_units(attribute: Option<Attribute>) -> bool
    ensures { result ≡ is_units attribute }
{
    matches!(attribute, Some(Attribute::Units))
}

/// The slot whose raw value is assigned.
pub(crate) fn target(slot: Slot) -> Slot
    requires { IsSlot slot }
    ensures target { result ≡ target slot }
    ensures slot { IsSlot result }
{
    match attribute(slot) {
        Some(Attribute::TimeRaw) => field_slot(slot),
        _ => slot,
    }
}

/// The change of the box where this raw value is assigned to the slot.
pub(crate) fn change_of(slot: Slot, raw: u64) -> Option<Change>
    requires { IsSlot slot }
    ensures { result ≡ change_of slot raw }
{
    if changes_box(attribute(slot)) {
        Some(Change::Set {
            slot: target(slot),
            raw,
        })
    } else {
        None
    }
}

fn changes_box(attribute: Option<Attribute>) -> bool
    ensures { result ≡ changes_box attribute }
{
    match attribute {
        Some(
            Attribute::TimeUnits
            | Attribute::PosCapture
            | Attribute::ExtCapture
            | Attribute::Offset
            | Attribute::Scale
            | Attribute::Units,
        ) => false,
        _ => true,
    }
}
