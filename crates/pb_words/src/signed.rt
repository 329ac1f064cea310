ghost use Rattle.std.specs.Prelude.{◌≡◌, ℕ, ℤ, pos, negsuc, ◌≤◌, ◌↔◌, List, ◌++◌, length, drop, codes, Some, None, Result, FitsSigned};
ghost use Rattle.std.specs.Fmt.{signed_decimal};
ghost use Rattle.std.specs.Int.{w32};
ghost use Rattle.std.specs.Option.{option_map};
ghost use Rattle.pb_words.specs.Signed.{ReadsInt, Int, WritesInt, sign_text, signed, most, int_value, int_of};
ghost use Rattle.pb_words.specs.Parts.{BeginsNoSign};

use crate::numbers::{NumFault, put_front, read_uint};
use itoa::Buffer;

/// What may stand before the digits of a number.
#[derive(Clone, Copy, Debug, PartialEq, Eq, Hash)]
pub enum Sign {
    Absent,
    Plus,
    Minus,
}

/// Reads digits after an optional `-` or `+` as a number of signed 32 bits.
pub fn read_i32(text: &[u8]) -> Result<i32, NumFault>
    ensures { ReadsInt text.now result }
{
    let (sign, digits) = cut_sign(text);
    let n = read_uint(digits, most(sign))?;
    Ok(under(sign, n))
}

/// The largest size of a number of signed 32 bits under the sign.
fn most(sign: Sign) -> u64
    ensures { result ≡ most sign }
{
    match sign {
        Sign::Minus => 0x8000_0000,
        _ => 0x7fff_ffff,
    }
}

fn under(sign: Sign, n: u64) -> i32
    requires { n ≤ most sign }
    ensures { result ≡ signed sign n }
{
    match sign {
        Sign::Minus => (-(n as i64)) as i32,
        _ => n as i32,
    }
}

/// Cuts off the sign that the text begins with.
pub fn cut_sign(text: &[u8]) -> (Sign, &[u8])
    ensures cut { text.now ≡ sign_text result.0 ++ result.1.now }
    ensures only { (sign : Sign) (rest : List ℕ) → text.now ≡ sign_text sign ++ rest → BeginsNoSign rest
        → (sign ≡ result.0) × (rest ≡ result.1.now) }
{
    match text {
        [b'+', rest @ ..] => (Sign::Plus, rest),
        [b'-', rest @ ..] => (Sign::Minus, rest),
        _ => (Sign::Absent, text),
    }
}

/// Writes the number as a decimal without leading zeros, `-` before it where it is below zero, at
/// the front of `out`, and answers its length.
pub fn write_i64(value: i64, out: &mut [u8]) -> usize
    requires { 48 ≤ length out.old }
    ensures len { result ≡ length (signed_decimal value) }
    ensures written { out.new ≡ signed_decimal value ++ drop (length (signed_decimal value)) out.old }
{
    let mut buffer = Buffer::new();
    put_front(buffer.format(value).as_bytes(), out)
}

/// A text is read in one way as a number with an optional sign.
pub fn ints_are_read_in_one_way()
    ensures { (text : List ℕ) (i j : Int) → WritesInt text i → WritesInt text j → i ≡ j }
{}

/// What is written of a number of signed 32 bits is read back as the number.
pub fn signed_decimals_are_read_back()
    ensures { (z : ℤ) (read : Result ℤ NumFault) → FitsSigned w32 z → ReadsInt (signed_decimal z) read
        → read ≡ Ok z }
{}

/// The number with an optional sign that a text is, is the computed one, and of any other text none
/// is computed.
pub fn ints_are_computed()
    ensures { (text : List ℕ) (i : Int) → WritesInt text i ↔ (int_of text ≡ Some i) }
{}

/// The computed numbers of a few texts.
pub fn ints_by_example()
    ensures plus { option_map int_value (int_of (codes "+007")) ≡ Some (pos 7) }
    ensures minus { option_map int_value (int_of (codes "-12")) ≡ Some (negsuc 11) }
    ensures minus_zero { option_map int_value (int_of (codes "-0")) ≡ Some (pos 0) }
    ensures two_signs { int_of (codes "+-1") ≡ None }
    ensures no_digits { int_of (codes "-") ≡ None }
{}
