ghost use Rattle.std.specs.Prelude.{◌≡◌, ◌<◌, ◌≤◌, length};
ghost use Rattle.pb_fields.specs.Slots.{IsSlot, attributes_at};
ghost use Rattle.pb_config.specs.Settings.{place, instance_place, field_slot, units_slot};

use pb_fields::Slot;
use pb_names::ITSELF;
use pb_names::time::UNITS;

/// How many places of slots there are.
pub(crate) const PLACES: usize = 14_112;

/// The place of the slot among all slots.
#[tactic(auto, using(crate::proofs::PlaceLemmas::few))]
pub(crate) fn place(slot: Slot) -> usize
    requires { IsSlot slot }
    ensures place { result ≡ place slot }
    ensures within { result < 14112 }
{
    (instance_place(slot) * 21 + slot.field as usize) * 7 + slot.attr as usize
}

/// The place of the slot's instance among all instances.
#[tactic(auto, using(crate::proofs::PlaceLemmas::few))]
pub(crate) fn instance_place(slot: Slot) -> usize
    requires { IsSlot slot }
    ensures place { result ≡ instance_place slot }
    ensures within { result < 96 }
{
    slot.block as usize * 8 + (slot.instance as usize - 1)
}

/// The field of an attribute; a field itself stays.
pub fn field_slot(slot: Slot) -> Slot
    requires { IsSlot slot }
    ensures field { result ≡ field_slot slot }
    ensures slot { IsSlot result }
{
    Slot {
        attr: ITSELF,
        ..slot
    }
}

/// The attribute UNITS of the field of a time.
pub(crate) fn units_slot(slot: Slot) -> Slot
    requires slot { IsSlot slot }
    requires time { UNITS ≤ length (attributes_at slot) }
    ensures units { result ≡ units_slot slot }
    ensures slot { IsSlot result }
{
    Slot {
        attr: UNITS,
        ..slot
    }
}
