ghost use Rattle.std.specs.Prelude.{◌≡◌, ◌<◌, ◌≤◌, ◌++◌, length, drop};
ghost use Rattle.pb_names.specs.declared.TheConstants.{BLOCKS};
ghost use Rattle.pb_fields.specs.Places.{block_of, count_of, field_of, fields_of};
ghost use Rattle.pb_fields.specs.Slots.{IsSlot, kind_of, role_at, type_at, attribute_at, default_of};

use crate::kinds::FieldKind;
use crate::roles::Role;
use crate::tables::{block_at, field_at};
use crate::types::{
    Attribute, FieldType, attribute_default, attribute_kind, attributes, field_kind, field_role,
};
use pb_names::{BLOCKS, ITSELF};
use pb_words::put_front;

/// One field or one attribute of the catalogue.
#[derive(Clone, Copy, Debug, PartialEq, Eq)]
pub struct Slot {
    /// The place of the block in the catalogue, from 0.
    pub block: u8,
    /// The number of the instance, from 1.
    pub instance: u8,
    /// The place of the field in its block, from 0.
    pub field: u8,
    /// `ITSELF` for the field itself, else the place of the attribute in the list of its type, from 1.
    pub attr: u8,
}

/// Writes the block's name without a number at the front of `out`, and answers its length.
pub fn block_name(block: u8, out: &mut [u8]) -> usize
    requires block { block < BLOCKS }
    requires room { 64 ≤ length out.old }
    ensures len { result ≡ length (block_of block).name }
    ensures written { out.new ≡ (block_of block).name ++ drop (length (block_of block).name) out.old }
{
    put_front(block_at(block).0, out)
}

/// How many instances of the block there are.
pub fn instances(block: u8) -> u8
    requires { block < BLOCKS }
    ensures { result ≡ count_of block }
{
    block_at(block).1
}

/// How many fields the block has.
pub fn field_count(block: u8) -> u8
    requires { block < BLOCKS }
    ensures { result ≡ length (fields_of block) }
{
    block_at(block).2.len() as u8
}

/// What the value of the field or the attribute is.
pub fn kind(slot: Slot) -> FieldKind
    requires { IsSlot slot }
    ensures { result ≡ kind_of slot }
{
    match attribute(slot) {
        None => field_kind(field_type(slot)),
        Some(attribute) => attribute_kind(attribute, field_type(slot)),
    }
}

/// What the field is to its block; `Attr` for an attribute.
pub fn role(slot: Slot) -> Role
    requires { IsSlot slot }
    ensures { result ≡ role_at slot }
{
    if slot.attr == ITSELF {
        field_role(field_type(slot))
    } else {
        Role::Attr
    }
}

/// The type of the field, or of the field that has the attribute.
pub fn field_type(slot: Slot) -> FieldType
    requires { IsSlot slot }
    ensures { result ≡ type_at slot }
{
    field_at(slot.block, slot.field).1
}

/// The name of the field alone, or of the field that has the attribute.
pub fn field_name(slot: Slot) -> &'static [u8]
    requires { IsSlot slot }
    ensures { result.now ≡ (field_of slot.block slot.field).name }
{
    field_at(slot.block, slot.field).0
}

/// Which attribute it is; none for the field itself.
pub fn attribute(slot: Slot) -> Option<Attribute>
    requires { IsSlot slot }
    ensures { result ≡ attribute_at slot }
{
    if slot.attr == ITSELF {
        None
    } else {
        Some(attributes(field_type(slot))[slot.attr as usize - 1])
    }
}

/// The raw value that the slot has at first; 0 where the catalogue has no such slot.
#[tactic(auto, using(crate::proofs::DefaultLemmas::defaults))]
pub fn default_value(slot: Slot) -> u64
    ensures { result ≡ default_of slot }
{
    if slot.block >= BLOCKS || slot.field >= field_count(slot.block) {
        return 0;
    }
    let field = field_at(slot.block, slot.field);
    if slot.attr == ITSELF {
        return field.2;
    }
    match attributes(field.1).get(slot.attr as usize - 1) {
        Some(attribute) => attribute_default(*attribute),
        None => 0,
    }
}
