ghost use Rattle.std.specs.Prelude.{◌≡◌, ◌++◌, IfOk, OnOk};
ghost use Rattle.pb_encode.specs.Encoding as definition;

use crate::options::Options;
use pb_buses::Condition;
use pb_words::{OutOfMemory, Text};
use std::alloc::Global;

/// The end of an acquisition of so many records: a line, or nothing where no status is wanted.
pub fn end(
    alloc: Global,
    options: &Options,
    count: u64,
    condition: Condition,
) -> Result<Text, OutOfMemory>
    ensures { IfOk result (λ text. text ≡ definition.end options.now count condition) }
{
    let mut text = Text::new(alloc);
    if options.status {
        put_end(&mut text, count, condition)?;
    }
    Ok(text)
}

fn put_end(text: &mut Text, count: u64, condition: Condition) -> Result<(), OutOfMemory>
    ensures { OnOk result (text.new ≡ text.old ++ definition.end_line count condition) }
{
    text.append(b"END ")?;
    text.append_number(count)?;
    text.append(b" ")?;
    text.append(condition_name(condition))?;
    text.append(b"\n")
}

fn condition_name(condition: Condition) -> &'static [u8]
    ensures { result.now ≡ definition.condition_name condition }
{
    match condition {
        Condition::Ok => b"Ok",
        Condition::Disarmed => b"Disarmed",
        Condition::Overrun => b"Data overrun",
    }
}
