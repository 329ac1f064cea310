ghost use Rattle.std.specs.Prelude.{◌≡◌, ◌+◌, ◌-◌, ◌*◌, ◌<◌, ◌≤◌, ◌++◌, min, length, take, drop, slice_index, decimal, IfOk, OnOk};
ghost use Rattle.base64.specs.Engines.{standard};
ghost use Rattle.base64.specs.GeneralPurpose.{encode_of};
ghost use Rattle.pb_tables.specs.Bodies.{bytes_of};
ghost use Rattle.pb_replies.specs.Replies.{listed, list_reply};
ghost use Rattle.pb_replies.specs.Tables.{table_lines, base64_lines};

use crate::replies::{end_list, list};
use base64::engine::general_purpose::STANDARD;
use pb_tables::Rows;
use pb_words::{OutOfMemory, Text};
use std::alloc::Global;

/// The bytes of a line in base64, which are 76 letters.
const LINE: usize = 57;

/// The words of a table, each in a line.
pub fn table_reply(alloc: Global, rows: &Rows) -> Result<Text, OutOfMemory>
    ensures { IfOk result (λ text. text ≡ list_reply (table_lines rows.now)) }
{
    let mut text = Text::new(alloc);
    for i in 0..rows.len() {
        list_word(&mut text, rows.word(i))?;
    }
    end_list(&mut text)?;
    Ok(text)
}

/// The words of a table in base64, as little-endian bytes, in lines of 76 letters of which the last may be
/// shorter.
pub fn base64_reply(alloc: Global, rows: &Rows) -> Result<Text, OutOfMemory>
    ensures { IfOk result (λ text. text ≡ list_reply (base64_lines rows.now)) }
{
    let lines = (4 * rows.len()).div_ceil(LINE);
    let mut text = Text::new(alloc);
    for i in 0..lines {
        let mut bytes = [0; LINE];
        let count = line_bytes(rows, LINE * i, &mut bytes);
        list_base64(&mut text, &bytes[..count])?;
    }
    end_list(&mut text)?;
    Ok(text)
}

/// Adds the line of a word.
fn list_word(text: &mut Text, word: u32) -> Result<(), OutOfMemory>
    ensures { OnOk result (text.new ≡ text.old ++ listed (decimal word)) }
{
    text.append(b"!")?;
    text.append_number(u64::from(word))?;
    text.append(b"\n")
}

/// Adds the line of these bytes in base64.
fn list_base64(text: &mut Text, bytes: &[u8]) -> Result<(), OutOfMemory>
    requires { length bytes.now ≤ 57 }
    ensures { OnOk result (text.new ≡ text.old ++ listed (encode_of standard bytes.now)) }
{
    let mut letters = [0; 76];
    match STANDARD.encode_slice(bytes, &mut letters) {
        Ok(len) => list(text, &letters[..len]),
        Err(_) => unreachable!(),
    }
}

/// Copies the bytes of a table from this one on, as many as there are and as a line has, to the front of `out`. How
/// many there are.
fn line_bytes(rows: &Rows, start: usize, out: &mut [u8; LINE]) -> usize
    requires { start ≤ 4 * length rows.now }
    ensures count { result ≡ min 57 (4 * length rows.now - start) }
    ensures copied { take result out.new ≡ take 57 (drop start (bytes_of rows.now)) }
{
    let count = LINE.min(4 * rows.len() - start);
    for j in 0..count {
        out[j] = byte(rows, start + j);
    }
    count
}

/// Byte i of a table, each word of which is four bytes, the lowest first.
fn byte(rows: &Rows, i: usize) -> u8
    requires { i < 4 * length rows.now }
    ensures { result ≡ slice_index (bytes_of rows.now) i }
{
    rows.word(i / 4).to_le_bytes()[i % 4]
}
