ghost use Rattle.std.specs.Prelude.{◌≡◌, ◌^◌, ◌<◌, ◌≤◌, ℕ, Ok, unsigned_abs, IfOk, IfErr};
ghost use Rattle.std.specs.Int.{w64, cast_unsigned};
ghost use Rattle.pb_fields.specs.Values.{Spells, Refuses, IsRaw, IsSpelledKind};
ghost use Rattle.pb_fields.specs.Spelling.{refusal_for};
ghost use Rattle.pb_fields.specs.Spelled.{spelled};

use crate::kinds::FieldKind;
use crate::labels::{bit_mux_selection, label_texts, place_of, position_mux_selection};
use crate::values::ticks_within;
use pb_words::{NumFault, Refusal, read_decimal, read_decimal_up_to, read_i32, read_uint};

/// The raw value that the text spells.
///
/// A number, a decimal or a time that isn't written as one is refused as malformed, and so is the
/// function of a lookup table; one outside its range is refused as out of range, and what is none
/// of the labels as unknown.
#[tactic(auto, using(crate::proofs::SpelledLemmas::reading))]
pub fn spell(kind: FieldKind, text: &[u8]) -> Result<u64, Refusal>
    requires { IsSpelledKind kind }
    ensures found { IfOk result (Spells kind text.now) }
    ensures range { IfOk result (IsRaw kind) }
    ensures only { (raw : ℕ) → Spells kind text.now raw → result ≡ Ok raw }
    ensures refused { IfErr result (Refuses kind text.now) }
    ensures computed { result ≡ spelled kind text.now }
{
    read_value(kind, text)
}

fn read_value(kind: FieldKind, text: &[u8]) -> Result<u64, Refusal>
    requires { IsSpelledKind kind }
    ensures found { IfOk result (Spells kind text.now) }
    ensures refused { IfErr result (Refuses kind text.now) }
{
    match kind {
        FieldKind::Uint { limit } => spell_uint(limit, text),
        FieldKind::Int => spell_int(text),
        FieldKind::Bit => spell_bit(text),
        FieldKind::Enum { labels } => spell_label(labels, text),
        FieldKind::BitMux => spell_bit_mux(text),
        FieldKind::PosMux => spell_position_mux(text),
        FieldKind::Decimal => spell_decimal(text),
        FieldKind::Time { limit, units } => spell_time(limit, units, text),
        FieldKind::Lut => spell_function(text),
        FieldKind::Action => Ok(0),
        FieldKind::Text => unreachable!(),
    }
}

fn refusal_for(fault: NumFault) -> Refusal
    ensures { result ≡ refusal_for fault }
{
    match fault {
        NumFault::Malformed => Refusal::MalformedValue,
        NumFault::TooLarge => Refusal::ValueOutOfRange,
    }
}

fn spell_uint(limit: u64, text: &[u8]) -> Result<u64, Refusal>
    ensures found { IfOk result (Spells (FieldKind.Uint limit) text.now) }
    ensures refused { IfErr result (Refuses (FieldKind.Uint limit) text.now) }
{
    match read_uint(text, u64::MAX) {
        Ok(n) if n <= limit => Ok(n),
        Ok(_) => Err(Refusal::ValueOutOfRange),
        Err(fault) => Err(refusal_for(fault)),
    }
}

fn spell_bit(text: &[u8]) -> Result<u64, Refusal>
    ensures found { IfOk result (Spells FieldKind.Bit text.now) }
    ensures refused { IfErr result (Refuses FieldKind.Bit text.now) }
{
    spell_uint(1, text)
}

fn spell_int(text: &[u8]) -> Result<u64, Refusal>
    ensures found { IfOk result (Spells FieldKind.Int text.now) }
    ensures refused { IfErr result (Refuses FieldKind.Int text.now) }
{
    match read_i32(text) {
        Ok(n) => Ok(i64::from(n).cast_unsigned()),
        Err(fault) => Err(refusal_for(fault)),
    }
}

fn spell_label(labels: u8, text: &[u8]) -> Result<u64, Refusal>
    ensures found { IfOk result (Spells (FieldKind.Enum labels) text.now) }
    ensures refused { IfErr result (Refuses (FieldKind.Enum labels) text.now) }
{
    match place_of(label_texts(labels), text) {
        Some(place) => Ok(place as u64),
        None => Err(Refusal::UnknownLabel),
    }
}

fn spell_bit_mux(text: &[u8]) -> Result<u64, Refusal>
    ensures found { IfOk result (Spells FieldKind.BitMux text.now) }
    ensures refused { IfErr result (Refuses FieldKind.BitMux text.now) }
{
    match bit_mux_selection(text) {
        Some(raw) => Ok(raw),
        None => Err(Refusal::UnknownLabel),
    }
}

fn spell_position_mux(text: &[u8]) -> Result<u64, Refusal>
    ensures found { IfOk result (Spells FieldKind.PosMux text.now) }
    ensures refused { IfErr result (Refuses FieldKind.PosMux text.now) }
{
    match position_mux_selection(text) {
        Some(raw) => Ok(raw),
        None => Err(Refusal::UnknownLabel),
    }
}

fn spell_decimal(text: &[u8]) -> Result<u64, Refusal>
    ensures found { IfOk result (Spells FieldKind.Decimal text.now) }
    ensures refused { IfErr result (Refuses FieldKind.Decimal text.now) }
{
    match read_decimal_up_to(9, text) {
        Ok(value) => Ok(raw_of(value.billionths)),
        Err(fault) => Err(refusal_for(fault)),
    }
}

// The number modulo 2^64.
fn raw_of(billionths: i128) -> u64
    requires { unsigned_abs billionths < 10 ^ 18 }
    ensures { result ≡ cast_unsigned w64 billionths }
{
    (billionths as i64).cast_unsigned()
}

fn spell_time(limit: u64, units: u8, text: &[u8]) -> Result<u64, Refusal>
    requires { units ≤ 2 }
    ensures found { IfOk result (Spells (FieldKind.Time limit units) text.now) }
    ensures refused { IfErr result (Refuses (FieldKind.Time limit units) text.now) }
{
    match read_decimal(text) {
        Ok(value) => match ticks_within(limit, units, value.billionths) {
            Some(ticks) => Ok(ticks),
            None => Err(Refusal::ValueOutOfRange),
        },
        Err(fault) => Err(refusal_for(fault)),
    }
}

fn spell_function(text: &[u8]) -> Result<u64, Refusal>
    ensures found { IfOk result (Spells FieldKind.Lut text.now) }
    ensures refused { IfErr result (Refuses FieldKind.Lut text.now) }
{
    match pb_lut::parse(text) {
        Ok(n) => Ok(u64::from(n)),
        Err(_) => Err(Refusal::MalformedValue),
    }
}
