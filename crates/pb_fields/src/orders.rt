ghost use Rattle.std.specs.Prelude.{◌≡◌, IfSome};
ghost use Rattle.std.specs.Option.{ForSome};
ghost use Rattle.pb_fields.specs.Order.{following_of, next_slot};
ghost use Rattle.pb_fields.specs.Slots.{IsSlot};

use crate::slots::{Slot, field_type, instances};
use crate::tables::block_at;
use crate::types::attributes;
use pb_names::{BLOCKS, ITSELF, ttlin};

/// The slot after that one in the order of the catalogue; the first for none. A field's attributes
/// follow the field.
pub fn following(slot: Option<Slot>) -> Option<Slot>
    requires { ForSome slot (λ given. IsSlot given) }
    ensures next { result ≡ following_of slot }
    ensures slot { IfSome result (λ next. IsSlot next) }
{
    match slot {
        None => Some(Slot {
            block: ttlin::BLOCK,
            instance: 1,
            field: ttlin::VAL,
            attr: ITSELF,
        }),
        Some(given) => next_slot(given),
    }
}

/// The slot after this one.
fn next_slot(slot: Slot) -> Option<Slot>
    requires { IsSlot slot }
    ensures next { result ≡ next_slot slot }
    ensures slot { IfSome result (λ next. IsSlot next) }
{
    if (slot.attr as usize) < attributes(field_type(slot)).len() {
        Some(Slot {
            attr: slot.attr + 1,
            ..slot
        })
    } else if (slot.field as usize) + 1 < block_at(slot.block).2.len() {
        Some(Slot {
            field: slot.field + 1,
            attr: ITSELF,
            ..slot
        })
    } else if slot.instance < instances(slot.block) {
        Some(Slot {
            instance: slot.instance + 1,
            field: 0,
            attr: ITSELF,
            ..slot
        })
    } else if slot.block + 1 < BLOCKS {
        Some(Slot {
            block: slot.block + 1,
            instance: 1,
            field: 0,
            attr: ITSELF,
        })
    } else {
        None
    }
}
