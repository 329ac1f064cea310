ghost use Rattle.std.specs.Prelude.{◌≡◌, true, IfSome};
ghost use Rattle.std.specs.Option.{option_map};
ghost use Rattle.pb_words.specs.Numbers.{value_of};
ghost use Rattle.pb_words.specs.Signed.{is_uint};
ghost use Rattle.pb_stim.specs.Texts.{before_space, after_space};
ghost use Rattle.pb_stim.specs.Reading.{level_of, row_in, timed_of, line_in};
ghost use Rattle.pb_stim.specs.Answers.{form_line, IsForm};

use crate::cuts::{cut_space, is_number, is_signed};
use crate::forms::Form;

/// The line that the text is, as it is written, if it is one.
#[tactic(auto, unfolding(crate::specs::Reading::line_in))]
pub(crate) fn read_form(text: &[u8]) -> Option<Form<'_>>
    ensures says { option_map form_line result ≡ line_in text.now }
    ensures digits { IfSome result IsForm }
{
    match text {
        [] => Some(Form::Skipped),
        [b'#', ..] => Some(Form::Skipped),
        _ => read_timed(text),
    }
}

/// A tick, and what stands behind its space.
fn read_timed(text: &[u8]) -> Option<Form<'_>>
    ensures says { option_map form_line result ≡ timed_of (before_space text.now) (after_space text.now) }
    ensures digits { IfSome result IsForm }
{
    let (tick, rest) = cut_space(text);
    let Some(rest) = rest else {
        return None;
    };
    if is_number(tick) {
        read_row(tick, rest)
    } else {
        None
    }
}

/// What stands behind the tick and its space.
fn read_row<'a>(tick: &'a [u8], rest: &'a [u8]) -> Option<Form<'a>>
    requires { is_uint tick.now ≡ true }
    ensures says { option_map form_line result ≡ row_in (value_of tick.now) rest.now }
    ensures digits { IfSome result IsForm }
{
    match rest {
        [b'S', b' ', more @ ..] => read_level(tick, more),
        _ => None,
    }
}

/// The name of an input, and its value.
fn read_level<'a>(tick: &'a [u8], rest: &'a [u8]) -> Option<Form<'a>>
    requires { is_uint tick.now ≡ true }
    ensures says { option_map form_line result ≡ level_of (value_of tick.now) (before_space rest.now) (after_space rest.now) }
    ensures digits { IfSome result IsForm }
{
    let (target, value) = cut_space(rest);
    let Some(value) = value else {
        return None;
    };
    if 0 < target.len() && is_signed(value) {
        Some(Form::Level(tick, target, value))
    } else {
        None
    }
}
