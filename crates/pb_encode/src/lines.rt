ghost use Rattle.std.specs.Prelude.{◌≡◌, ◌≤◌, ◌++◌, length, drop, IfOk, OnOk};
ghost use Rattle.pb_pcap.specs.Fields.{IsField, field_size, size_of};
ghost use Rattle.pb_encode.specs.Encoding as definition;

use crate::numbers::put_number;
use crate::quantities::quantities_of;
use pb_pcap::{Field, Layout};
use pb_words::{OutOfMemory, Text};

/// Adds the line of a record.
pub(crate) fn put_record(
    text: &mut Text,
    is_scaled: bool,
    layout: &Layout,
    record_: &[u8],
) -> Result<(), OutOfMemory>
    requires { size_of layout.now ≤ length record_.now }
    ensures { OnOk result (text.new ≡ text.old ++ definition.record_line is_scaled layout.now record_.now) }
{
    let mut rest = record_;
    for i in 0..layout.len() {
        let field = layout.field(i);
        rest = put_field(text, is_scaled, &field, rest)?;
    }
    text.append(b"\n")?;
    Ok(())
}

/// Adds the numbers of a field, with whose bytes `bytes` begins, each after a space. The bytes that follow them.
fn put_field<'a>(
    text: &mut Text,
    is_scaled: bool,
    field: &Field,
    bytes: &'a [u8],
) -> Result<&'a [u8], OutOfMemory>
    requires field { IsField field.now }
    requires bytes { field_size field.now ≤ length bytes.now }
    ensures text { OnOk result (text.new ≡ text.old ++ definition.numbers_text is_scaled field.now (definition.quantities_of field.now.choice) bytes.now) }
    ensures rest { IfOk result (λ rest. rest.now ≡ drop (field_size field.now) bytes.now) }
{
    let mut rest = bytes;
    for quantity in quantities_of(field.choice) {
        put_number(text, is_scaled, field, *quantity, rest)?;
        rest = rest.split_at(quantity.size(field.entry)).1;
    }
    Ok(rest)
}
