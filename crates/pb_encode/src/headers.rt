ghost use Rattle.std.specs.Prelude.{◌≡◌, ◌≤◌, ◌++◌, OnOk, IfOk};
ghost use Rattle.std.specs.List.{flat_map};
ghost use Rattle.pb_words.specs.Decimals.{canonical};
ghost use Rattle.pb_pcap.specs.Fields.{IsField, IsNamed};
ghost use Rattle.pb_encode.specs.Encoding as definition;

use crate::naming::put_entry_name;
use crate::options::{Form, Options};
use crate::quantities::{Quantity, quantities_of};
use pb_names::position_bus;
use pb_pcap::{Field, Layout};
use pb_words::{Decimal9, OutOfMemory, Text, write_decimal};
use std::alloc::Global;

/// The lines that stand before the records of an acquisition: how it is handed out, and what a record holds.
pub fn header(alloc: Global, options: &Options, layout: &Layout) -> Result<Text, OutOfMemory>
    ensures { IfOk result (λ text. text ≡ definition.header options.now layout.now) }
{
    let mut text = Text::new(alloc);
    put_head(&mut text, options)?;
    put_fields(&mut text, options.scaled, layout)?;
    text.append(b"\n")?;
    Ok(text)
}

/// Adds the lines before those of the fields.
fn put_head(text: &mut Text, options: &Options) -> Result<(), OutOfMemory>
    ensures { OnOk result (text.new ≡ text.old ++ definition.head options.now) }
{
    text.append(b"missed: 0\n")?;
    put_process(text, options.scaled)?;
    put_form(text, options.form)?;
    text.append(b"fields:\n")
}

fn put_process(text: &mut Text, is_scaled: bool) -> Result<(), OutOfMemory>
    ensures { OnOk result (text.new ≡ text.old ++ definition.process_line is_scaled) }
{
    text.append(b"process: ")?;
    text.append(process_name(is_scaled))?;
    text.append(b"\n")
}

fn put_form(text: &mut Text, form: Form) -> Result<(), OutOfMemory>
    ensures { OnOk result (text.new ≡ text.old ++ definition.form_line form) }
{
    text.append(b"format: ")?;
    text.append(form_name(form))?;
    text.append(b"\n")
}

fn process_name(is_scaled: bool) -> &'static [u8]
    ensures { result.now ≡ definition.process_name is_scaled }
{
    if is_scaled { b"Scaled" } else { b"Unscaled" }
}

fn form_name(form: Form) -> &'static [u8]
    ensures { result.now ≡ definition.form_name form }
{
    match form {
        Form::Ascii => b"ASCII",
        Form::Base64 => b"Base64",
        Form::Framed => b"Framed",
        Form::Unframed => b"Unframed",
    }
}

/// Adds the lines of all fields.
fn put_fields(text: &mut Text, is_scaled: bool, layout: &Layout) -> Result<(), OutOfMemory>
    ensures { OnOk result (text.new ≡ text.old ++ flat_map (definition.field_lines is_scaled) layout.now) }
{
    for i in 0..layout.len() {
        let field = layout.field(i);
        put_field_lines(text, is_scaled, &field)?;
    }
    Ok(())
}

/// Adds the lines of a field, one for each number.
fn put_field_lines(text: &mut Text, is_scaled: bool, field: &Field) -> Result<(), OutOfMemory>
    requires { IsNamed field.now.entry }
    ensures { OnOk result (text.new ≡ text.old ++ definition.field_lines is_scaled field.now) }
{
    for quantity in quantities_of(field.choice) {
        put_number_line(text, is_scaled, field, *quantity)?;
    }
    Ok(())
}

fn put_number_line(
    text: &mut Text,
    is_scaled: bool,
    field: &Field,
    quantity: Quantity,
) -> Result<(), OutOfMemory>
    requires { IsNamed field.now.entry }
    ensures { OnOk result (text.new ≡ text.old ++ definition.number_line is_scaled field.now quantity) }
{
    text.append(b" ")?;
    put_entry_name(text, field.entry)?;
    put_kind(text, field.entry, quantity)?;
    put_scale_where(text, is_scaled, field, quantity)?;
    text.append(b"\n")
}

/// Adds the type of a number, and what it is.
fn put_kind(text: &mut Text, entry: u8, quantity: Quantity) -> Result<(), OutOfMemory>
    ensures { OnOk result (text.new ≡ text.old ++ definition.kind_text entry quantity) }
{
    text.append(b" ")?;
    text.append(quantity.type_name(entry))?;
    text.append(b" ")?;
    text.append(quantity.name())
}

/// Adds how a number is scaled, if it is.
fn put_scale_where(
    text: &mut Text,
    is_scaled: bool,
    field: &Field,
    quantity: Quantity,
) -> Result<(), OutOfMemory>
    ensures { OnOk result (text.new ≡ text.old ++ definition.scale_where is_scaled field.now quantity) }
{
    if is_scaled && field.entry < position_bus::WIDTH {
        put_scale(text, field, quantity)
    } else {
        Ok(())
    }
}

fn put_scale(text: &mut Text, field: &Field, quantity: Quantity) -> Result<(), OutOfMemory>
    ensures { OnOk result (text.new ≡ text.old ++ definition.scale_text field.now quantity) }
{
    text.append(b" Scale: ")?;
    put_decimal(text, field.scale)?;
    text.append(b" Offset: ")?;
    put_decimal(text, quantity.offset(field))?;
    text.append(b" Units: ")?;
    text.append(field.units.bytes())
}

/// Adds a decimal in its canonical form.
pub(crate) fn put_decimal(text: &mut Text, decimal: Decimal9) -> Result<(), OutOfMemory>
    ensures { OnOk result (text.new ≡ text.old ++ canonical decimal.billionths) }
{
    let mut digits = [0; 48];
    let len = write_decimal(decimal, &mut digits);
    text.append(&digits[..len])
}
