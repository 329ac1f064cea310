ghost use Rattle.std.specs.Prelude.{◌≡◌, ◌∷◌, ◌++◌, [], List, ℕ, All, IfSome, IfNone, MatchOption, false, true};
ghost use Rattle.std.specs.List.{list_all};
ghost use Rattle.std.specs.Option.{option_map};
ghost use Rattle.pb_grammar.specs.Grammar.{IsBodyLine, body_fault, body_text, is_printable, opening_at, opening_in, opening_of};

use crate::commands::deciding_place;
use crate::scanning::{LONGEST, Scan, can_be_printed};

/// What a line says that opens a body.
#[derive(Clone, Copy)]
pub struct OpeningLine<'a> {
    pub(crate) target: &'a [u8],
    pub(crate) append: bool,
    pub(crate) base64: bool,
}

/// The opening that the text of a line is.
#[tactic(auto, unfolding(crate::specs::Grammar::opening_in))]
pub(crate) fn opening_in(text: &[u8]) -> Option<OpeningLine<'_>>
    ensures { option_map opening_of result ≡ opening_in text.now }
{
    if text.len() > LONGEST || !is_printable(text) {
        return None;
    }
    match deciding_place(text) {
        Some(place) => opening_at(&text[..place], &text[place..]),
        None => None,
    }
}

/// The opening with this target, by what stands behind it.
fn opening_at<'a>(target: &'a [u8], behind: &[u8]) -> Option<OpeningLine<'a>>
    ensures { option_map opening_of result ≡ opening_at target.now behind.now }
{
    if behind == b"<".as_slice() {
        Some(OpeningLine {
            target,
            append: false,
            base64: false,
        })
    } else if behind == b"<<".as_slice() {
        Some(OpeningLine {
            target,
            append: true,
            base64: false,
        })
    } else if behind == b"<B".as_slice() {
        Some(OpeningLine {
            target,
            append: false,
            base64: true,
        })
    } else if behind == b"<<B".as_slice() {
        Some(OpeningLine {
            target,
            append: true,
            base64: true,
        })
    } else {
        None
    }
}

/// Whether all bytes can be printed.
pub(crate) fn is_printable(text: &[u8]) -> bool
    ensures { result ≡ list_all is_printable text.now }
{
    text.iter().all(|b| can_be_printed(*b))
}

/// The scan of a body, where an empty line follows it and nothing else.
pub(crate) fn scan_of(behind: &[u8]) -> Option<Scan>
    ensures found { IfSome result (λ scan. (lines : List (List ℕ)) × All IsBodyLine lines × (behind.now ≡ body_text lines ++ 10 ∷ []) × (scan.fault ≡ body_fault 0 lines)) }
    ensures none { IfNone result ((lines : List (List ℕ)) → All IsBodyLine lines → ¬ (behind.now ≡ body_text lines ++ 10 ∷ [])) }
{
    let Some(body) = before_newline(behind) else {
        return None;
    };
    let mut scan = Scan::new();
    for b in body {
        if *b == b'\n' && scan.line == 0 {
            return None;
        }
        scan = scan.after(*b);
    }
    if scan.line == 0 { Some(scan) } else { None }
}

/// What stands before the newline, where that is the last byte.
pub(crate) fn before_newline(bytes: &[u8]) -> Option<&[u8]>
    ensures { MatchOption result ((front : List ℕ) → ¬ (bytes.now ≡ front ++ 10 ∷ [])) (λ front. bytes.now ≡ front.now ++ 10 ∷ []) }
{
    bytes.strip_suffix(b"\n".as_slice())
}
