ghost use Rattle.std.specs.Prelude.{◌≡◌, ◌%◌, ◌^◌, ◌≤◌, ◌++◌, length, sum, decimal, IfOk, OnOk};
ghost use Rattle.pb_bench.specs.Sections.{sections_in};
ghost use Rattle.pb_bench.specs.Tally.{counted, data_bytes, line, tally};

use crate::cutting::cut_section;
use pb_words::{OutOfMemory, Text};
use std::alloc::Global;

/// The bytes of a record: a count of 4 and a time of 8.
const RECORD: usize = 12;

/// Tells in four lines of the output of a script of so many points: the points, the records that were captured, the bytes of the output, and
/// their sum modulo 2^32.
pub fn tally(alloc: Global, points: u32, output: &[u8]) -> Result<Text, OutOfMemory>
    ensures { IfOk result (λ text. text ≡ tally points output.now) }
{
    let mut text = Text::new(alloc);
    add_line(&mut text, b"points ", u64::from(points))?;
    add_line(&mut text, b"records ", (data_bytes(output) / RECORD) as u64)?;
    add_line(&mut text, b"output ", output.len() as u64)?;
    add_line(&mut text, b"sum ", u64::from(byte_sum(output)))?;
    Ok(text)
}

/// Adds a name and a number on a line.
fn add_line(text: &mut Text, name: &[u8], number: u64) -> Result<(), OutOfMemory>
    ensures { OnOk result (text.new ≡ text.old ++ line name.now number) }
{
    text.append(name)?;
    text.append_number(number)?;
    text.append(b"\n")
}

/// How many bytes of the output are answers to data sessions.
fn data_bytes(output: &[u8]) -> usize
    ensures { result ≡ data_bytes (sections_in output.now) }
{
    let mut rest = output;
    let mut total = 0;
    for _section in 0..output.len() {
        if rest.is_empty() {
            return total;
        }
        let (letter, answer, more) = cut_section(rest);
        total += counted(letter, answer.len());
        rest = more;
    }
    total
}

/// How many bytes of an answer of this size count, by the letter of its port.
fn counted(letter: u8, size: usize) -> usize
    ensures counted { result ≡ counted letter size }
    ensures within { result ≤ size }
{
    if letter == b'D' { size } else { 0 }
}

/// The sum of the bytes modulo 2^32.
fn byte_sum(bytes: &[u8]) -> u32
    ensures { result ≡ sum bytes.now % 2 ^ 32 }
{
    let mut total: u32 = 0;
    for b in bytes {
        total = total.wrapping_add(u32::from(*b));
    }
    total
}
