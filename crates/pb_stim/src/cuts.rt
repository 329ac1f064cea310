ghost use Rattle.std.specs.Prelude.{◌≡◌, ◌<◌, ◌∷◌, ◌++◌, length, position, IfSome, IfNone};
ghost use Rattle.std.specs.List.{list_all};
ghost use Rattle.std.specs.Option.{option_copied};
ghost use Rattle.pb_words.specs.Signed.{is_uint, is_digit};
ghost use Rattle.pb_grammar.specs.Grammar.{IsText};
ghost use Rattle.pb_stim.specs.Texts.{is_space, before_space, after_space, is_signed};

/// The first line without its newline, and what follows it.
pub(crate) fn cut_line(text: &[u8]) -> Option<(&[u8], &[u8])>
    ensures found { IfSome result (λ cut. IsText cut.0.now × (text.now ≡ cut.0.now ++ 10 ∷ cut.1.now)) }
    ensures none { IfNone result (IsText text.now) }
{
    for (i, b) in text.iter().enumerate() {
        if *b == b'\n' {
            return Some((&text[..i], &text[i + 1..]));
        }
    }
    None
}

/// What stands before the first space, and what after it, if there is one.
pub(crate) fn cut_space(text: &[u8]) -> (&[u8], Option<&[u8]>)
    ensures before { result.0.now ≡ before_space text.now }
    ensures after { option_copied result.1 ≡ after_space text.now }
{
    match first_space(text) {
        Some(place) => (&text[..place], Some(&text[place + 1..])),
        None => (text, None),
    }
}

fn first_space(text: &[u8]) -> Option<usize>
    ensures place { result ≡ position is_space text.now }
    ensures within { IfSome result (λ place. place < length text.now) }
{
    text.iter().position(|b| *b == b' ')
}

/// The text is a number: digits, at least one.
pub(crate) fn is_number(text: &[u8]) -> bool
    ensures { result ≡ is_uint text.now }
{
    0 < text.len() && are_digits(text)
}

fn are_digits(text: &[u8]) -> bool
    ensures { result ≡ list_all is_digit text.now }
{
    text.iter().all(|b| b'0' <= *b && *b <= b'9')
}

/// The text is a number, perhaps after a minus sign.
pub(crate) fn is_signed(text: &[u8]) -> bool
    ensures { result ≡ is_signed text.now }
{
    match text {
        [b'-', digits @ ..] => is_number(digits),
        _ => is_number(text),
    }
}
