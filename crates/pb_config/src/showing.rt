ghost use Rattle.std.specs.Prelude.{true, false, ◌≡◌, Some, ◌≤◌, ◌++◌, length, drop, decimal, IfOk, IfErr, OnOk, OnErr};
ghost use Rattle.pb_fields.specs.Slots.{IsSlot, type_at, attribute_at};
ghost use Rattle.pb_fields.specs.Types.{limit_of};
ghost use Rattle.pb_config.specs.Kept.{is_kept};
ghost use Rattle.pb_config.specs.Showing.{is_line, is_readable, is_readable_field, is_line_of_field, is_line_of_attribute, raw_shown, field_shown, attribute_shown, shown_at};

use crate::configs::Config;
use crate::infos::word_name;
use crate::places::field_slot;
use pb_fields::{
    Attribute, FieldKind, FieldType, Slot, attribute, field_type, kind, output_entry, type_name,
};
use pb_names::bit_bus;
use pb_words::{Refusal, put_front, write_hex32, write_u64};

/// Whether the slot's value is one line that comes from the settings or the catalogue, or can't be
/// asked for: whether `Config::show` takes the slot.
pub fn has_line(slot: Slot) -> bool
    requires { IsSlot slot }
    ensures { result ≡ is_line slot }
{
    match attribute(slot) {
        None => is_line_of_field(field_type(slot)),
        Some(attribute) => is_line_of_attribute(attribute),
    }
}

fn is_line_of_field(of: FieldType) -> bool
    ensures { result ≡ is_line_of_field of }
{
    match of {
        FieldType::ReadUint
        | FieldType::ReadEnum { .. }
        | FieldType::BitOut
        | FieldType::PosOut
        | FieldType::Table => false,
        _ => true,
    }
}

fn is_line_of_attribute(attribute: Attribute) -> bool
    ensures { result ≡ is_line_of_attribute attribute }
{
    match attribute {
        Attribute::Labels
        | Attribute::Scaled
        | Attribute::Bits
        | Attribute::Length
        | Attribute::Fields
        | Attribute::Base64 => false,
        _ => true,
    }
}

/// Writes what is printed of the slot at the front of `out`, and answers its length.
pub(crate) fn show(config: &Config, slot: Slot, out: &mut [u8]) -> Result<usize, Refusal>
    requires slot { IsSlot slot }
    requires line { is_line slot ≡ true }
    requires room { 128 ≤ length out.old }
    ensures len { IfOk result (λ len. len ≡ length (shown_at config.now.settings slot)) }
    ensures written { OnOk result (out.new ≡ shown_at config.now.settings slot ++ drop (length (shown_at config.now.settings slot)) out.old) }
    ensures readable { OnOk result (is_readable slot ≡ true) }
    ensures err { IfErr result (λ refusal. refusal ≡ Refusal.NotReadable) }
    ensures unreadable { OnErr result (is_readable slot ≡ false) }
    ensures same { OnErr result (out.new ≡ out.old) }
{
    match attribute(slot) {
        None => {
            if is_readable(field_type(slot)) {
                Ok(show_field(config, slot, out))
            } else {
                Err(Refusal::NotReadable)
            }
        }
        Some(attribute) => Ok(show_attribute(config, slot, attribute, out)),
    }
}

fn is_readable(of: FieldType) -> bool
    ensures { result ≡ is_readable_field of }
{
    match of {
        FieldType::WriteAction | FieldType::ExtOut | FieldType::BitWord => false,
        _ => true,
    }
}

fn show_field(config: &Config, slot: Slot, out: &mut [u8]) -> usize
    requires slot { IsSlot slot }
    requires field { attribute_at slot ≡ None }
    requires line { is_line_of_field (type_at slot) ≡ true }
    requires readable { is_readable_field (type_at slot) ≡ true }
    requires room { 128 ≤ length out.old }
    ensures len { result ≡ length (field_shown config.now.settings slot (type_at slot)) }
    ensures written { out.new ≡ field_shown config.now.settings slot (type_at slot) ++ drop (length (field_shown config.now.settings slot (type_at slot))) out.old }
{
    match field_type(slot) {
        FieldType::ParamLut => config.put_text(slot, out),
        _ => show_raw(config, slot, out),
    }
}

// Writes what is printed of a raw value of the slot's own.
#[tactic(auto, using(crate::proofs::KindLemmas::range_now))]
fn show_raw(config: &Config, slot: Slot, out: &mut [u8]) -> usize
    requires slot { IsSlot slot }
    requires kept { is_kept slot ≡ true }
    requires readable { is_readable slot ≡ true }
    requires room { 128 ≤ length out.old }
    ensures len { result ≡ length (raw_shown config.now.settings slot) }
    ensures written { out.new ≡ raw_shown config.now.settings slot ++ drop (length (raw_shown config.now.settings slot)) out.old }
{
    pb_fields::show(config.kind(slot), config.raw(slot), out)
}

fn show_attribute(config: &Config, slot: Slot, attribute: Attribute, out: &mut [u8]) -> usize
    requires slot { IsSlot slot }
    requires which { attribute_at slot ≡ Some attribute }
    requires line { is_line_of_attribute attribute ≡ true }
    requires room { 128 ≤ length out.old }
    ensures len { result ≡ length (attribute_shown config.now.settings slot (type_at slot) attribute) }
    ensures written { out.new ≡ attribute_shown config.now.settings slot (type_at slot) attribute ++ drop (length (attribute_shown config.now.settings slot (type_at slot) attribute)) out.old }
{
    match attribute {
        Attribute::Info => put_front(type_name(field_type(slot)), out),
        Attribute::Max => show_limit(slot, out),
        Attribute::LutRaw => show_function(config, slot, out),
        Attribute::TimeRaw => write_u64(config.raw(field_slot(slot)), out),
        Attribute::CaptureWord => put_front(word_name(output_entry(slot) / bit_bus::WORD), out),
        Attribute::BitOffset => write_u64(u64::from(output_entry(slot) % bit_bus::WORD), out),
        Attribute::Units => config.put_text(slot, out),
        Attribute::MaxDelay => write_u64(u64::from(bit_bus::MAX_DELAY), out),
        Attribute::MaxLength => write_u64(16_384, out),
        Attribute::RowWords => write_u64(4, out),
        Attribute::TimeUnits
        | Attribute::PosCapture
        | Attribute::ExtCapture
        | Attribute::Offset
        | Attribute::Scale
        | Attribute::Delay => show_raw(config, slot, out),
        Attribute::Labels
        | Attribute::Scaled
        | Attribute::Bits
        | Attribute::Length
        | Attribute::Fields
        | Attribute::Base64 => unreachable!(),
    }
}

// The limit of a number, which the kind of its MAX has.
fn show_limit(slot: Slot, out: &mut [u8]) -> usize
    requires slot { IsSlot slot }
    requires which { attribute_at slot ≡ Some Attribute.Max }
    requires room { 128 ≤ length out.old }
    ensures len { result ≡ length (decimal (limit_of (type_at slot))) }
    ensures written { out.new ≡ decimal (limit_of (type_at slot)) ++ drop (length (decimal (limit_of (type_at slot)))) out.old }
{
    match kind(slot) {
        FieldKind::Uint { limit } => write_u64(limit, out),
        _ => unreachable!(),
    }
}

// The number of a function.
#[tactic(auto, using(crate::proofs::KindLemmas::function_small))]
fn show_function(config: &Config, slot: Slot, out: &mut [u8]) -> usize
    requires slot { IsSlot slot }
    requires which { attribute_at slot ≡ Some Attribute.LutRaw }
    requires room { 128 ≤ length out.old }
    ensures len { result ≡ length (attribute_shown config.now.settings slot (type_at slot) Attribute.LutRaw) }
    ensures written { out.new ≡ attribute_shown config.now.settings slot (type_at slot) Attribute.LutRaw ++ drop (length (attribute_shown config.now.settings slot (type_at slot) Attribute.LutRaw)) out.old }
{
    write_hex32(config.raw(field_slot(slot)) as u32, out)
}
