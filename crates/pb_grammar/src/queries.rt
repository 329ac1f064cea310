ghost use Rattle.std.specs.Prelude.{◌≡◌, ◌≤◌, ◌∷◌, ◌++◌, [], length, None, IfSome};
ghost use Rattle.pb_grammar.specs.Grammar.{IsText, Query, command_of, opening_in, said_in};

use crate::scanning::LONGEST;
use crate::targets::{names_in, within};

/// The target of the text of a line, where one look at its bytes shows that it is a query of a field or an attribute, as
/// `LUT1.OUT?`. Of any other text it tells nothing.
pub(crate) fn queried(text: &[u8]) -> Option<&[u8]>
    ensures said { IfSome result (λ target. said_in text.now ≡ Query target.now) }
    ensures closed { IfSome result (λ target. opening_in text.now ≡ None) }
    ensures text { IfSome result (λ target. IsText text.now) }
    ensures short { IfSome result (λ target. length text.now ≤ 4096) }
{
    let Some(target) = before_last(text, b'?') else {
        return None;
    };
    if target.len() < LONGEST && within(2, 3, names_in(target)) {
        Some(target)
    } else {
        None
    }
}

/// The target of the bytes of a command, where one look shows that they are such a query and its newline.
pub(crate) fn queried_line(bytes: &[u8]) -> Option<&[u8]>
    ensures { IfSome result (λ target. command_of bytes.now ≡ Query target.now) }
{
    match before_last(bytes, b'\n') {
        Some(text) => queried(text),
        None => None,
    }
}

/// What stands before the last byte, where that is this one.
fn before_last(text: &[u8], last: u8) -> Option<&[u8]>
    ensures { IfSome result (λ front. text.now ≡ front.now ++ last ∷ []) }
{
    match text {
        [front @ .., b] if *b == last => Some(front),
        _ => None,
    }
}
