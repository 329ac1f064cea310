ghost use Rattle.std.specs.Prelude.{◌≡◌, ◌+◌, ◌<◌, ◌≤◌, Some, length, nat_eq, map, position, IfSome, true};
ghost use Rattle.std.specs.Cmp.Lexicographic.{pointwise};
ghost use Rattle.pb_words.specs.Signed.{is_uint};
ghost use Rattle.pb_words.specs.Numbers.{value_of};
ghost use Rattle.pb_replay.specs.Reading.{is_signed, signed_value};
ghost use Rattle.pb_replay.specs.Reading.{line_in};
ghost use Rattle.pb_replay.specs.Inputs.{inputs, input_of};
ghost use Rattle.pb_replay.specs.Faults.{start, end_cause, after, fits_input};
ghost use Rattle.pb_replay.specs.Script.{Level};
ghost use Rattle.pb_replay.specs.Forms.{deed_written, IsWritten};
ghost use Rattle.pb_replay.specs.Lines.{line_of, ReadsLine, ReadsTimed, ReadsDeed, ReadsSession};

use crate::digits::read_digits;
use crate::forms::{Form, Written};
use crate::lines::{ReadDeed, ReadLine};
use crate::places::Place;
use crate::reading::read_form;
use pb_stim::Cause;
use pb_words::read_i32;

/// The longest script, in bytes: 16 MiB.
pub(crate) const LONGEST: usize = 16_777_216;

/// The names of the inputs from outside, by their numbers.
static INPUTS: [&[u8]; 10] = [
    b"TTLIN1", b"TTLIN2", b"TTLIN3", b"TTLIN4", b"TTLIN5", b"TTLIN6", b"INENC1", b"INENC2",
    b"INENC3", b"INENC4",
];

impl Place {
    /// Where the first line begins.
    pub(crate) fn start() -> Place
        ensures { result ≡ start }
    {
        Place {
            number: 1,
            before: 0,
            last: 0,
            ended: false,
        }
    }

    /// The line that the text with its newline is at this place, or the first rule that it breaks.
    pub(crate) fn read<'a>(&self, text: &'a [u8]) -> Result<ReadLine<'a>, Cause>
        requires { self.now.before ≤ LONGEST }
        ensures { ReadsLine self.now text.now result }
    {
        if LONGEST - self.before <= text.len() {
            return Err(Cause::TooLarge);
        }
        match read_form(text) {
            Some(Form::Skipped) => Ok(ReadLine::Skipped),
            Some(Form::Timed(tick, written)) => {
                if self.ended {
                    return Err(Cause::AfterTheEnd);
                }
                read_timed(self.last, tick, written)
            }
            None => {
                if self.ended {
                    return Err(Cause::AfterTheEnd);
                }
                Err(Cause::Malformed)
            }
        }
    }

    /// What is wrong with what follows the last newline: nothing may follow it, and the end has to have come.
    pub(crate) fn end(&self, rest: &[u8]) -> Option<Cause>
        requires { self.now.before ≤ LONGEST }
        ensures { result ≡ end_cause self.now rest.now }
    {
        if rest.is_empty() {
            if self.ended {
                None
            } else {
                Some(Cause::NoEndLine)
            }
        } else if LONGEST - self.before < rest.len() {
            Some(Cause::TooLarge)
        } else {
            Some(Cause::NoNewline)
        }
    }

    /// The place of the next line, behind this one with its newline.
    pub(crate) fn next(&self, text: &[u8], line: ReadLine<'_>) -> Place
        requires number { self.now.number ≤ self.now.before + 1 }
        requires room { self.now.before + length text.now < LONGEST }
        requires line { line_in text.now ≡ Some (line_of line) }
        ensures { result ≡ after self.now text.now }
    {
        let mut next = Place {
            number: self.number + 1,
            before: self.before + text.len() + 1,
            last: self.last,
            ended: self.ended,
        };
        if let ReadLine::Timed(tick, deed) = line {
            next.last = tick;
            next.ended = matches!(deed, ReadDeed::End);
        }
        next
    }
}

/// A deed at a tick, behind a line of this tick.
fn read_timed<'a>(last: u64, tick: &[u8], written: Written<'a>) -> Result<ReadLine<'a>, Cause>
    requires tick { is_uint tick.now ≡ true }
    requires written { IsWritten written }
    ensures { ReadsTimed last (value_of tick.now) (deed_written written.entry) result }
{
    let Ok(tick) = read_digits(tick) else {
        return Err(Cause::TickOutOfRange);
    };
    if tick < last {
        return Err(Cause::TickFalls);
    }
    match read_deed(written) {
        Ok(deed) => Ok(ReadLine::Timed(tick, deed)),
        Err(cause) => Err(cause),
    }
}

/// The deed with its numbers, where they are in range.
fn read_deed(written: Written<'_>) -> Result<ReadDeed<'_>, Cause>
    requires { IsWritten written }
    ensures { ReadsDeed (deed_written written.entry) result }
{
    match written {
        Written::Level(target, value) => read_level(target, value),
        Written::Command(session, text) => match read_session(session) {
            Ok(session) => Ok(ReadDeed::Command(session, text)),
            Err(cause) => Err(cause),
        },
        Written::CloseControl(session) => match read_session(session) {
            Ok(session) => Ok(ReadDeed::CloseControl(session)),
            Err(cause) => Err(cause),
        },
        Written::OpenData(session, options) => match read_session(session) {
            Ok(session) => Ok(ReadDeed::OpenData(session, options)),
            Err(cause) => Err(cause),
        },
        Written::Take(session) => match read_session(session) {
            Ok(session) => Ok(ReadDeed::Take(session)),
            Err(cause) => Err(cause),
        },
        Written::CloseData(session) => match read_session(session) {
            Ok(session) => Ok(ReadDeed::CloseData(session)),
            Err(cause) => Err(cause),
        },
        Written::End => Ok(ReadDeed::End),
    }
}

/// A row of the stimulus.
fn read_level<'a>(target: &[u8], value: &[u8]) -> Result<ReadDeed<'a>, Cause>
    requires { is_signed value.now ≡ true }
    ensures { ReadsDeed (Level target.now (signed_value value.now)) result }
{
    let Some(input) = input_named(target) else {
        return Err(Cause::UnknownTarget);
    };
    let Ok(value) = read_i32(value) else {
        return Err(Cause::ValueOutOfRange);
    };
    if may_have(input, value) {
        Ok(ReadDeed::Level(input, value))
    } else {
        Err(Cause::ValueOutOfRange)
    }
}

/// The input of this number may have this value: a TTL input 0 or 1, an encoder any.
fn may_have(input: u8, value: i32) -> bool
    ensures { result ≡ fits_input input value }
{
    if input < 6 {
        value == 0 || value == 1
    } else {
        true
    }
}

/// The number of a session, which is 1 to 8.
fn read_session(digits: &[u8]) -> Result<u32, Cause>
    requires { is_uint digits.now ≡ true }
    ensures { ReadsSession (value_of digits.now) result }
{
    match read_digits(digits) {
        Ok(session) if session >= 1 && session <= 8 => Ok(session as u32),
        _ => Err(Cause::SessionOutOfRange),
    }
}

/// The number of the input of this name.
fn input_named(target: &[u8]) -> Option<u8>
    ensures named { result ≡ input_of target.now }
    ensures within { IfSome result (λ input. input < 10) }
{
    match place_of(input_names(), target) {
        Some(place) => Some(place as u8),
        None => None,
    }
}

#[tactic(auto, unfolding(crate::specs::Inputs::inputs))]
fn input_names() -> &'static [&'static [u8]]
    ensures names { map (λ name. name.now) result.now ≡ inputs }
    ensures ten { length result.now ≡ 10 }
{
    &INPUTS
}

fn place_of(names: &[&[u8]], target: &[u8]) -> Option<usize>
    ensures place { result ≡ position (λ name. pointwise nat_eq name.now target.now) names.now }
    ensures within { IfSome result (λ place. place < length names.now) }
{
    names.iter().position(|name| *name == target)
}
