ghost use Rattle.std.specs.Prelude.{◌≡◌, ◌≢◌, ℕ, List, ◌∷◌, IfSome, IfNone};
ghost use Rattle.std.specs.Option.{option_map};
ghost use Rattle.pb_lut.specs.Expressions.{ors, xors, ands, nots, atoms, letter_number};
ghost use Rattle.pb_lut.specs.Readings.{BeginsWith, Reads, ReadsNothing};
ghost use Rattle.pb_lut.specs.Computed.{letter_of};

// Each reader takes an expression of its level from the front of a text without spaces, as much as
// there is, and answers its number and what is left.

// ors := xors ( "|" xors )*
#[cycle(expression)]
pub fn read_ors(text: &[u8]) -> Option<(u32, &[u8])>
    ensures found { IfSome result (λ x. Reads ors text.now x.0 x.1.now) }
    ensures none { IfNone result (ReadsNothing ors text.now) }
{
    let (left, rest) = read_xors(text)?;
    let Some(after) = after_byte(b'|', rest) else {
        return Some((left, rest));
    };
    let (right, rest) = read_ors(after)?;
    Some((left | right, rest))
}

// xors := ands ( "^" ands )*
#[cycle(expression)]
fn read_xors(text: &[u8]) -> Option<(u32, &[u8])>
    ensures found { IfSome result (λ x. Reads xors text.now x.0 x.1.now) }
    ensures none { IfNone result (ReadsNothing xors text.now) }
{
    let (left, rest) = read_ands(text)?;
    let Some(after) = after_byte(b'^', rest) else {
        return Some((left, rest));
    };
    let (right, rest) = read_xors(after)?;
    Some((left ^ right, rest))
}

// ands := nots ( "&" nots )*
#[cycle(expression)]
fn read_ands(text: &[u8]) -> Option<(u32, &[u8])>
    ensures found { IfSome result (λ x. Reads ands text.now x.0 x.1.now) }
    ensures none { IfNone result (ReadsNothing ands text.now) }
{
    let (left, rest) = read_nots(text)?;
    let Some(after) = after_byte(b'&', rest) else {
        return Some((left, rest));
    };
    let (right, rest) = read_ands(after)?;
    Some((left & right, rest))
}

// nots := "~" nots, or an atom
#[cycle(expression)]
fn read_nots(text: &[u8]) -> Option<(u32, &[u8])>
    ensures found { IfSome result (λ x. Reads nots text.now x.0 x.1.now) }
    ensures none { IfNone result (ReadsNothing nots text.now) }
{
    let Some(after) = after_byte(b'~', text) else {
        return read_atoms(text);
    };
    let (n, rest) = read_nots(after)?;
    Some((!n, rest))
}

// atoms := a letter, or "(" ors ")"
#[cycle(expression)]
fn read_atoms(text: &[u8]) -> Option<(u32, &[u8])>
    ensures found { IfSome result (λ x. Reads atoms text.now x.0 x.1.now) }
    ensures none { IfNone result (ReadsNothing atoms text.now) }
{
    let Some(after) = after_byte(b'(', text) else {
        return read_letter(text);
    };
    let (n, rest) = read_ors(after)?;
    let rest = after_byte(b')', rest)?;
    Some((n, rest))
}

// The text doesn't begin with `(`.
fn read_letter(text: &[u8]) -> Option<(u32, &[u8])>
    requires { ¬ (BeginsWith 40 text.now) }
    ensures found { IfSome result (λ x. Reads atoms text.now x.0 x.1.now) }
    ensures none { IfNone result (ReadsNothing atoms text.now) }
{
    match text {
        [] => None,
        [first, rest @ ..] => Some((number_of(*first)?, rest)),
    }
}

// The number of an input or a constant: its value at each state of the inputs.
fn number_of(letter: u8) -> Option<u32>
    ensures { result ≡ option_map letter_number (letter_of letter) }
{
    match letter {
        b'A' => Some(0xffff_0000),
        b'B' => Some(0xff00_ff00),
        b'C' => Some(0xf0f0_f0f0),
        b'D' => Some(0xcccc_cccc),
        b'E' => Some(0xaaaa_aaaa),
        b'0' => Some(0),
        b'1' => Some(0xffff_ffff),
        _ => None,
    }
}

// What follows the byte, where the text begins with it.
pub fn after_byte(byte: u8, text: &[u8]) -> Option<&[u8]>
    ensures found { IfSome result (λ rest. text.now ≡ byte ∷ rest.now) }
    ensures none { IfNone result (¬ (BeginsWith byte text.now)) }
{
    match text {
        [first, rest @ ..] if *first == byte => Some(rest),
        _ => None,
    }
}
