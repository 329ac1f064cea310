ghost use Rattle.std.specs.Prelude.{◌≡◌, ◌+◌, ◌<◌, ◌≤◌, Some, length, nat_eq, map, position, IfSome, true};
ghost use Rattle.std.specs.Cmp.Lexicographic.{pointwise};
ghost use Rattle.pb_words.specs.Signed.{is_uint};
ghost use Rattle.pb_words.specs.Numbers.{value_of};
ghost use Rattle.pb_stim.specs.Texts.{is_signed, signed_value};
ghost use Rattle.pb_stim.specs.Reading.{line_in};
ghost use Rattle.pb_stim.specs.Inputs.{inputs, input_of};
ghost use Rattle.pb_stim.specs.Faults.{start, end_cause, after, fits_input, level_cause};
ghost use Rattle.pb_stim.specs.Answers.{line_of, ReadsLine, ReadsRow, ReadsLevel};

use crate::causes::Cause;
use crate::forms::{Form, ReadLine};
use crate::places::Place;
use crate::reading::read_form;
use pb_words::{read_i32, read_tick};

/// The longest stimulus, in bytes: 16 MiB.
pub(crate) const LONGEST: usize = 16_777_216;

/// The names of the inputs from outside, by their numbers.
static INPUTS: [&[u8]; 10] = [
    b"TTLIN1", b"TTLIN2", b"TTLIN3", b"TTLIN4", b"TTLIN5", b"TTLIN6", b"INENC1", b"INENC2",
    b"INENC3", b"INENC4",
];

impl Place {
    /// Where the first line begins.
    pub(crate) fn start() -> Place
        ensures { result ≡ start }
    {
        Place {
            number: 1,
            before: 0,
            last: 0,
        }
    }

    /// The line that the text with its newline is at this place, or the first rule that it breaks.
    pub(crate) fn read(&self, text: &[u8]) -> Result<ReadLine, Cause>
        requires { self.now.before ≤ LONGEST }
        ensures { ReadsLine self.now text.now result }
    {
        if LONGEST - self.before <= text.len() {
            return Err(Cause::TooLarge);
        }
        match read_form(text) {
            Some(Form::Skipped) => Ok(ReadLine::Skipped),
            Some(Form::Level(tick, target, value)) => read_row(self.last, tick, target, value),
            None => Err(Cause::Malformed),
        }
    }

    /// What is wrong with what follows the last newline: nothing may follow it.
    pub(crate) fn end(&self, rest: &[u8]) -> Option<Cause>
        requires { self.now.before ≤ LONGEST }
        ensures { result ≡ end_cause self.now rest.now }
    {
        if rest.is_empty() {
            None
        } else if LONGEST - self.before < rest.len() {
            Some(Cause::TooLarge)
        } else {
            Some(Cause::NoNewline)
        }
    }

    /// The place of the next line, behind this one with its newline.
    pub(crate) fn next(&self, text: &[u8], line: ReadLine) -> Place
        requires number { self.now.number ≤ self.now.before + 1 }
        requires room { self.now.before + length text.now < LONGEST }
        requires line { line_in text.now ≡ Some (line_of line) }
        ensures { result ≡ after self.now text.now }
    {
        let last = match line {
            ReadLine::Skipped => self.last,
            ReadLine::Level(tick, _, _) => tick,
        };
        Place {
            number: self.number + 1,
            before: self.before + text.len() + 1,
            last,
        }
    }
}

/// A row behind a line of this tick.
fn read_row(last: u64, tick: &[u8], target: &[u8], value: &[u8]) -> Result<ReadLine, Cause>
    requires tick { is_uint tick.now ≡ true }
    requires value { is_signed value.now ≡ true }
    ensures { ReadsRow last (value_of tick.now) target.now (signed_value value.now) result }
{
    let Ok(tick) = read_tick(tick) else {
        return Err(Cause::TickOutOfRange);
    };
    if tick < last {
        return Err(Cause::TickFalls);
    }
    match read_level(target, value) {
        Ok((input, value)) => Ok(ReadLine::Level(tick, input, value)),
        Err(cause) => Err(cause),
    }
}

/// The number of the input of this name, and its value.
fn read_level(target: &[u8], value: &[u8]) -> Result<(u8, i32), Cause>
    requires { is_signed value.now ≡ true }
    ensures { ReadsLevel target.now (signed_value value.now) (level_cause (input_of target.now) (signed_value value.now)) result }
{
    let Some(input) = input_named(target) else {
        return Err(Cause::UnknownTarget);
    };
    let Ok(value) = read_i32(value) else {
        return Err(Cause::ValueOutOfRange);
    };
    if may_have(input, value) {
        Ok((input, value))
    } else {
        Err(Cause::ValueOutOfRange)
    }
}

/// The input of this number may have this value: a TTL input 0 or 1, an encoder any.
fn may_have(input: u8, value: i32) -> bool
    ensures { result ≡ fits_input input value }
{
    if input < 6 {
        value == 0 || value == 1
    } else {
        true
    }
}

/// The number of the input of this name.
fn input_named(target: &[u8]) -> Option<u8>
    ensures named { result ≡ input_of target.now }
    ensures within { IfSome result (λ input. input < 10) }
{
    match place_of(input_names(), target) {
        Some(place) => Some(place as u8),
        None => None,
    }
}

#[tactic(auto, unfolding(crate::specs::Inputs::inputs))]
fn input_names() -> &'static [&'static [u8]]
    ensures names { map (λ name. name.now) result.now ≡ inputs }
    ensures ten { length result.now ≡ 10 }
{
    &INPUTS
}

fn place_of(names: &[&[u8]], target: &[u8]) -> Option<usize>
    ensures place { result ≡ position (λ name. pointwise nat_eq name.now target.now) names.now }
    ensures within { IfSome result (λ place. place < length names.now) }
{
    names.iter().position(|name| *name == target)
}
