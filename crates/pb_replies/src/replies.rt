ghost use Rattle.std.specs.Prelude.{◌≡◌, ◌++◌, codes, decimal, IfOk, OnOk};
ghost use Rattle.pb_replies.specs.Replies.{value_reply, listed};

use pb_words::{OutOfMemory, Text};
use std::alloc::Global;

/// The reply of one value.
pub fn value_reply(alloc: Global, value: &[u8]) -> Result<Text, OutOfMemory>
    ensures { IfOk result (λ text. text ≡ value_reply value.now) }
{
    let mut text = Text::new(alloc);
    put_value(&mut text, value)?;
    Ok(text)
}

/// Adds the reply of one value. That of one byte, as a level has it, is one piece.
pub fn put_value(text: &mut Text, value: &[u8]) -> Result<(), OutOfMemory>
    ensures { OnOk result (text.new ≡ text.old ++ value_reply value.now) }
{
    match value {
        [byte] => text.append(&[b'O', b'K', b' ', b'=', *byte, b'\n']),
        _ => put_long_value(text, value),
    }
}

/// Adds the reply of one value, of any length.
fn put_long_value(text: &mut Text, value: &[u8]) -> Result<(), OutOfMemory>
    ensures { OnOk result (text.new ≡ text.old ++ value_reply value.now) }
{
    text.append(b"OK =")?;
    text.append(value)?;
    text.append(b"\n")
}

/// The reply of a number.
pub fn number_reply(alloc: Global, number: u64) -> Result<Text, OutOfMemory>
    ensures { IfOk result (λ text. text ≡ value_reply (decimal number)) }
{
    let mut text = Text::new(alloc);
    text.append(b"OK =")?;
    text.append_number(number)?;
    text.append(b"\n")?;
    Ok(text)
}

/// Adds the line of one of several values.
pub(crate) fn list(text: &mut Text, value: &[u8]) -> Result<(), OutOfMemory>
    ensures { OnOk result (text.new ≡ text.old ++ listed value.now) }
{
    text.append(b"!")?;
    text.append(value)?;
    text.append(b"\n")
}

/// Adds the line of one of several pairs of values.
pub fn list_pair(text: &mut Text, first: &[u8], second: &[u8]) -> Result<(), OutOfMemory>
    ensures { OnOk result (text.new ≡ text.old ++ listed (first.now ++ codes " " ++ second.now)) }
{
    text.append(b"!")?;
    text.append(first)?;
    text.append(b" ")?;
    text.append(second)?;
    text.append(b"\n")
}

/// Adds the point that ends several values.
pub fn end_list(text: &mut Text) -> Result<(), OutOfMemory>
    ensures { OnOk result (text.new ≡ text.old ++ codes ".\n") }
{
    text.append(b".\n")
}
