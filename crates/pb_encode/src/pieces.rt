ghost use Rattle.std.specs.Prelude.{◌≡◌, ◌≢◌, ◌+◌, ◌*◌, ◌%◌, ◌<◌, ◌≤◌, ◌++◌, [], length, IfOk, OnOk};
ghost use Rattle.pb_pcap.specs.Fields.{size_of};
ghost use Rattle.pb_encode.specs.Encoding as definition;

use crate::lines::put_record;
use crate::options::{Form, Options};
use base64::engine::general_purpose::STANDARD;
use byteorder::{ByteOrder, LittleEndian};
use pb_pcap::Layout;
use pb_words::{OutOfMemory, Text};
use std::alloc::Global;

/// The letters of a line in base64.
const LETTERS: usize = 76;

/// The bytes of a frame before those of its records.
const FRAME: usize = 8;

/// A piece of an acquisition, one or more whole records, in the form that was chosen.
pub fn piece(
    alloc: Global,
    options: &Options,
    layout: &Layout,
    raw: &[u8],
) -> Result<Text, OutOfMemory>
    requires fields { layout.now ≢ [] }
    requires some { 0 < length raw.now }
    requires whole { length raw.now % size_of layout.now ≡ 0 }
    requires limit { length raw.now ≤ 4294967287 }
    ensures { IfOk result (λ text. text ≡ definition.piece options.now layout.now raw.now) }
{
    let mut text = Text::new(alloc);
    match options.form {
        Form::Ascii => put_lines(&mut text, options.scaled, layout, raw)?,
        Form::Base64 => put_base64(alloc, &mut text, raw)?,
        Form::Framed => put_frame(&mut text, raw)?,
        Form::Unframed => text.append(raw)?,
    }
    Ok(text)
}

/// Adds bytes behind their number.
fn put_frame(text: &mut Text, raw: &[u8]) -> Result<(), OutOfMemory>
    requires { length raw.now ≤ 4294967287 }
    ensures { OnOk result (text.new ≡ text.old ++ definition.framed raw.now) }
{
    let mut size = [0; 4];
    LittleEndian::write_u32(&mut size, (raw.len() + FRAME) as u32);
    text.append(b"BIN ")?;
    text.append(&size)?;
    text.append(raw)
}

/// Adds bytes in base64, in lines.
fn put_base64(alloc: Global, text: &mut Text, raw: &[u8]) -> Result<(), OutOfMemory>
    ensures { OnOk result (text.new ≡ text.old ++ definition.base64 raw.now) }
{
    let letters = STANDARD.encode(alloc, raw)?;
    put_letters(text, letters.as_bytes())
}

/// Adds letters in lines.
fn put_letters(text: &mut Text, letters: &[u8]) -> Result<(), OutOfMemory>
    ensures { OnOk result (text.new ≡ text.old ++ definition.letters_lines letters.now) }
{
    for i in 0..letters.len().div_ceil(LETTERS) {
        put_letters_line(text, part(letters, LETTERS, i))?;
    }
    Ok(())
}

fn put_letters_line(text: &mut Text, letters: &[u8]) -> Result<(), OutOfMemory>
    ensures { OnOk result (text.new ≡ text.old ++ definition.letters_line letters.now) }
{
    text.append(b" ")?;
    text.append(letters)?;
    text.append(b"\n")
}

/// Adds records, a line each.
fn put_lines(
    text: &mut Text,
    is_scaled: bool,
    layout: &Layout,
    raw: &[u8],
) -> Result<(), OutOfMemory>
    requires fields { layout.now ≢ [] }
    requires whole { length raw.now % size_of layout.now ≡ 0 }
    ensures { OnOk result (text.new ≡ text.old ++ definition.ascii is_scaled layout.now raw.now) }
{
    let size = record_size(layout);
    for i in 0..raw.len().div_ceil(size) {
        put_record(text, is_scaled, layout, part(raw, size, i))?;
    }
    Ok(())
}

/// How many bytes a record has.
#[tactic(auto, using(crate::proofs::PartLemmas::some_field))]
fn record_size(layout: &Layout) -> usize
    requires { layout.now ≢ [] }
    ensures value { result ≡ size_of layout.now }
    ensures some { 0 < result }
{
    let _first = layout.field(0);
    layout.size()
}

/// Part i of bytes that are cut into parts of this size, of which the last may be shorter.
fn part(bytes: &[u8], size: usize, i: usize) -> &[u8]
    requires { i * size ≤ length bytes.now }
    ensures { result.now ≡ definition.part size bytes.now i }
{
    let rest = &bytes[i * size..];
    &rest[..rest.len().min(size)]
}
