ghost use Rattle.std.specs.Prelude.{◌≡◌, ◌<◌, ◌≤◌, ◌*◌, ◌^◌, ◌++◌, ◌+ℤ◌, ◌*ℤ◌, length, codes, pos, unsigned_abs, OnOk};
ghost use Rattle.std.specs.Fmt.{signed_decimal};
ghost use Rattle.pb_words.specs.Decimals.{canonical};
ghost use Rattle.pb_pcap.specs.Fields.{IsField};
ghost use Rattle.pb_encode.specs.Encoding as definition;

use crate::headers::put_decimal;
use crate::quantities::Quantity;
use byteorder::{ByteOrder, LittleEndian};
use pb_names::position_bus;
use pb_pcap::{Field, entries};
use pb_words::{Decimal9, OutOfMemory, Text, whole_numbers_are_canonical, write_i64};

/// The scale 1 in billionths.
const ONE: i128 = 1_000_000_000;

/// Adds a number of a record, with whose bytes `bytes` begins, after a space.
pub(crate) fn put_number(
    text: &mut Text,
    is_scaled: bool,
    field: &Field,
    quantity: Quantity,
    bytes: &[u8],
) -> Result<(), OutOfMemory>
    requires field { IsField field.now }
    requires bytes { definition.number_size field.now.entry quantity ≤ length bytes.now }
    ensures { OnOk result (text.new ≡ text.old ++ (codes " " ++ definition.number_text is_scaled field.now quantity bytes.now)) }
{
    text.append(b" ")?;
    if field.entry < position_bus::WIDTH {
        put_position(text, is_scaled, field, quantity, bytes)
    } else {
        text.append_number(count_in(field.entry, bytes))
    }
}

/// Adds a number of a position.
fn put_position(
    text: &mut Text,
    is_scaled: bool,
    field: &Field,
    quantity: Quantity,
    bytes: &[u8],
) -> Result<(), OutOfMemory>
    requires field { IsField field.now }
    requires entry { field.now.entry < 32 }
    requires bytes { definition.position_size quantity ≤ length bytes.now }
    ensures { OnOk result (text.new ≡ text.old ++ definition.position_text is_scaled field.now quantity (definition.position_in quantity bytes.now)) }
{
    let number = position_in(quantity, bytes);
    if is_scaled {
        put_scaled(text, number, field, quantity)
    } else {
        put_signed(text, number)
    }
}

/// Adds a number in its units. With the scale 1 and without an offset it is written as it is, which is quicker.
fn put_scaled(
    text: &mut Text,
    number: i64,
    field: &Field,
    quantity: Quantity,
) -> Result<(), OutOfMemory>
    requires field { IsField field.now }
    requires entry { field.now.entry < 32 }
    ensures { OnOk result (text.new ≡ text.old ++ canonical (number *ℤ field.now.scale.billionths +ℤ definition.offset_of field.now quantity)) }
{
    if field.scale.billionths == ONE && quantity.offset(field).billionths == 0 {
        put_whole(text, number)?;
    } else {
        put_decimal(text, scaled(number, field, quantity))?;
    }
    Ok(())
}

/// Adds a whole number as a decimal.
fn put_whole(text: &mut Text, number: i64) -> Result<(), OutOfMemory>
    ensures { OnOk result (text.new ≡ text.old ++ canonical (number *ℤ pos (10 ^ 9))) }
{
    whole_numbers_are_canonical();
    put_signed(text, number)
}

/// The number of a position.
fn position_in(quantity: Quantity, bytes: &[u8]) -> i64
    requires { definition.position_size quantity ≤ length bytes.now }
    ensures { result ≡ definition.position_in quantity bytes.now }
{
    match quantity {
        Quantity::Sum => LittleEndian::read_i64(bytes),
        _ => i64::from(LittleEndian::read_i32(bytes)),
    }
}

/// The time stamp, the count or the word of bits.
fn count_in(entry: u8, bytes: &[u8]) -> u64
    requires entry { 32 ≤ entry }
    requires bytes { definition.extra_size entry ≤ length bytes.now }
    ensures { result ≡ definition.count_in entry bytes.now }
{
    if entry < entries::BITS0 {
        LittleEndian::read_u64(bytes)
    } else {
        u64::from(LittleEndian::read_u32(bytes))
    }
}

/// The number in its units: times the scale, and with the offset where it is no sum.
fn scaled(number: i64, field: &Field, quantity: Quantity) -> Decimal9
    requires field { IsField field.now }
    requires entry { field.now.entry < 32 }
    ensures { result.billionths ≡ number *ℤ field.now.scale.billionths +ℤ definition.offset_of field.now quantity }
{
    let billionths = sum(
        times(number, field.scale.billionths),
        quantity.offset(field).billionths,
    );
    Decimal9 { billionths }
}

#[tactic(auto, using(crate::proofs::ScaledLemmas::product_range))]
fn times(number: i64, scale: i128) -> i128
    requires { unsigned_abs scale < 10 ^ 18 }
    ensures product { result ≡ number *ℤ scale }
    ensures range { unsigned_abs result ≤ 2 ^ 63 * 10 ^ 18 }
{
    i128::from(number) * scale
}

fn sum(product: i128, offset: i128) -> i128
    requires product { unsigned_abs product ≤ 2 ^ 63 * 10 ^ 18 }
    requires offset { unsigned_abs offset < 10 ^ 18 }
    ensures { result ≡ product +ℤ offset }
{
    product + offset
}

fn put_signed(text: &mut Text, number: i64) -> Result<(), OutOfMemory>
    ensures { OnOk result (text.new ≡ text.old ++ signed_decimal number) }
{
    let mut digits = [0; 48];
    let len = write_i64(number, &mut digits);
    text.append(&digits[..len])
}
