ghost use Rattle.std.specs.Prelude.{◌≡◌, ◌≢◌, ℕ, ◌<◌, ◌≤◌, ◌++◌, ◌⊎◌, List, Ok, length, take, drop, codes, IfOk, IfErr, IfSome, IfNone};
ghost use Rattle.std.specs.Char.{digit_value};
ghost use Rattle.std.specs.Option.{SomeIff};
ghost use Rattle.std.specs.Result.{result_ok};
ghost use Rattle.pb_lut.specs.Functions.{WritesHexDigits, WritesHex, WritesExpression, WritesFunction};
ghost use Rattle.pb_lut.specs.Computed.{function_of};

use crate::expressions::{after_byte, read_ors};
use pb_words::{Refusal, take_out_spaces};

const ROOM: usize = 128;

/// The number that the text sets a lookup table to. Bit 16A + 8B + 4C + 2D + E of it is the
/// table's output while its inputs are A to E.
///
/// The text is an expression, as `A & ~(B | C)`, or the number itself, as `0xff000000`, with one to
/// eight hexadecimal digits. `~` binds tightest, then `&`, `^` and `|`. Spaces mean nothing, but
/// count towards the 128 bytes that a text may have. Every other text is refused as malformed.
pub fn parse(text: &[u8]) -> Result<u32, Refusal>
    ensures found { IfOk result (WritesFunction text.now) }
    ensures only { (n : ℕ) → WritesFunction text.now n → result ≡ Ok n }
    ensures refused { IfErr result (λ refusal. refusal ≡ Refusal.MalformedValue) }
    ensures computed { result_ok result ≡ function_of text.now }
{
    if text.len() > ROOM {
        return Err(Refusal::MalformedValue);
    }
    let mut bare = [0; ROOM];
    let n = take_out_spaces(text, &mut bare);
    read_function(&bare[..n]).ok_or(Refusal::MalformedValue)
}

fn read_function(text: &[u8]) -> Option<u32>
    ensures found { IfSome result (λ n. WritesHex text.now n ⊎ WritesExpression text.now n) }
    ensures none { IfNone result ((n : ℕ) → ¬ (WritesHex text.now n ⊎ WritesExpression text.now n)) }
{
    match hex_digits(text) {
        Some(digits) => read_hex(digits),
        None => read_expression(text),
    }
}

// What follows `0x`.
fn hex_digits(text: &[u8]) -> Option<&[u8]>
    ensures found { IfSome result (λ digits. text.now ≡ codes "0x" ++ digits.now) }
    ensures none { IfNone result ((digits : List ℕ) → text.now ≢ codes "0x" ++ digits) }
{
    after_byte(b'x', after_byte(b'0', text)?)
}

fn read_expression(text: &[u8]) -> Option<u32>
    ensures found { IfSome result (WritesExpression text.now) }
    ensures none { IfNone result ((n : ℕ) → ¬ (WritesExpression text.now n)) }
{
    let (n, rest) = read_ors(text)?;
    if rest.is_empty() { Some(n) } else { None }
}

fn read_hex(digits: &[u8]) -> Option<u32>
    ensures found { IfSome result (WritesHexDigits digits.now) }
    ensures none { IfNone result ((n : ℕ) → ¬ (WritesHexDigits digits.now n)) }
{
    if digits.is_empty() || digits.len() > 8 {
        return None;
    }
    let mut n = 0;
    for c in digits {
        n = n * 16 + hex_digit(*c)?;
    }
    Some(n)
}

fn hex_digit(c: u8) -> Option<u32>
    ensures { SomeIff result (digit_value c < 16) (digit_value c) }
{
    char::from(c).to_digit(16)
}
