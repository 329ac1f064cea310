ghost use Rattle.std.specs.Prelude.{◌≡◌, IfSome};
ghost use Rattle.std.specs.Option.{option_map};
ghost use Rattle.pb_replay.specs.Script.{Command, OpenData};
ghost use Rattle.pb_replay.specs.Reading.{before_space, after_space, level_of, sent_by, deed_by, deed_in, timed_of, line_in};
ghost use Rattle.pb_replay.specs.Forms.{deed_written, form_line, IsWritten, IsForm};

use crate::cuts::{cut_space, cut_text, is_number, is_signed};
use crate::forms::{Form, Written};

/// The line that the text is, as it is written, if it is one.
#[tactic(auto, unfolding(crate::specs::Reading::line_in))]
pub(crate) fn read_form(text: &[u8]) -> Option<Form<'_>>
    ensures says { option_map form_line result ≡ line_in text.now }
    ensures digits { IfSome result IsForm }
{
    match text {
        [] => Some(Form::Skipped),
        [b'#', ..] => Some(Form::Skipped),
        _ => read_timed(text),
    }
}

/// A tick, and what stands behind its space.
fn read_timed(text: &[u8]) -> Option<Form<'_>>
    ensures says { option_map form_line result ≡ timed_of (before_space text.now) (after_space text.now) }
    ensures digits { IfSome result IsForm }
{
    let (tick, rest) = cut_space(text);
    let Some(rest) = rest else {
        return None;
    };
    if !is_number(tick) {
        return None;
    }
    match read_written(rest) {
        Some(written) => Some(Form::Timed(tick, written)),
        None => None,
    }
}

/// What stands behind the tick and its space.
fn read_written(rest: &[u8]) -> Option<Written<'_>>
    ensures says { option_map deed_written result ≡ deed_in rest.now }
    ensures digits { IfSome result IsWritten }
{
    match rest {
        [b'E'] => Some(Written::End),
        [letter, b' ', more @ ..] => read_letter(*letter, more),
        _ => None,
    }
}

/// What stands behind a letter and its space.
fn read_letter(letter: u8, rest: &[u8]) -> Option<Written<'_>>
    ensures says { option_map deed_written result ≡ deed_by letter rest.now }
    ensures digits { IfSome result IsWritten }
{
    match letter {
        b'S' => read_level(rest),
        b'C' => read_command(rest),
        b'X' if is_number(rest) => Some(Written::CloseControl(rest)),
        b'D' => read_options(rest),
        b'R' if is_number(rest) => Some(Written::Take(rest)),
        b'Y' if is_number(rest) => Some(Written::CloseData(rest)),
        _ => None,
    }
}

/// The name of an input, and its value.
fn read_level(rest: &[u8]) -> Option<Written<'_>>
    ensures says { option_map deed_written result ≡ level_of (before_space rest.now) (after_space rest.now) }
    ensures digits { IfSome result IsWritten }
{
    let (target, value) = cut_space(rest);
    let Some(value) = value else {
        return None;
    };
    if 0 < target.len() && is_signed(value) {
        Some(Written::Level(target, value))
    } else {
        None
    }
}

/// The number of a control session, and the line that it sends.
fn read_command(rest: &[u8]) -> Option<Written<'_>>
    ensures says { option_map deed_written result ≡ sent_by Command rest.now }
    ensures digits { IfSome result IsWritten }
{
    let (session, text) = cut_text(rest);
    if is_number(session) {
        Some(Written::Command(session, text))
    } else {
        None
    }
}

/// The number of a data session, and its options line.
fn read_options(rest: &[u8]) -> Option<Written<'_>>
    ensures says { option_map deed_written result ≡ sent_by OpenData rest.now }
    ensures digits { IfSome result IsWritten }
{
    let (session, options) = cut_text(rest);
    if is_number(session) {
        Some(Written::OpenData(session, options))
    } else {
        None
    }
}
