ghost use Rattle.std.specs.Prelude.{◌≡◌, ℕ, ℤ, pos, negsuc, unsigned_abs, ◌+◌, ◌*◌, ◌^◌, ◌<◌, ◌≤◌, ◌↔◌, ◌*ℤ◌, List, ◌++◌, length, drop, codes, All, Some, None, IfSome, IfNone, Result};
ghost use Rattle.std.specs.Fmt.{signed_decimal};
ghost use Rattle.std.specs.Option.{option_map};
ghost use Rattle.pb_words.specs.Numbers.{IsDigit, value_of};
ghost use Rattle.pb_words.specs.Signed.{signed};
ghost use Rattle.pb_words.specs.Decimals.{ReadsDecimal, ReadsDecimalUpTo, Decimal, WritesDecimal, nine_places, decimal_value, decimal_of, canonical, canonical_size, fraction, places};
ghost use Rattle.pb_words.specs.Parts.{IsCut, ArePlaces};

use crate::cuts::cut_digits;
use crate::lines::Line;
use crate::numbers::{NumFault, are_digits};
use crate::signed::{Sign, cut_sign};
use itoa::Buffer;

const WHOLE: usize = 18;

const PLACES: usize = 9;

const BILLION: u128 = 1_000_000_000;

/// An exact decimal with at most nine places after the point.
#[derive(Clone, Copy, Debug, PartialEq, Eq, Hash)]
pub struct Decimal9 {
    pub billionths: i128,
}

/// Reads a decimal: an optional `-` or `+`, digits, optionally a point and up to nine digits, at
/// least one digit in all. More than 18 whole digits, leading zeros counted, are too large.
pub fn read_decimal(text: &[u8]) -> Result<Decimal9, NumFault>
    ensures { ReadsDecimal text.now result }
{
    read_decimal_up_to(WHOLE, text)
}

/// Reads a decimal of at most that many whole digits, leading zeros counted.
pub fn read_decimal_up_to(most: usize, text: &[u8]) -> Result<Decimal9, NumFault>
    requires { most ≤ 18 }
    ensures { ReadsDecimalUpTo most text.now result }
{
    let Some((sign, whole, places)) = cut_decimal(text) else {
        return Err(NumFault::Malformed);
    };
    if whole.len() > most {
        return Err(NumFault::TooLarge);
    }
    let billionths = under(sign, size(whole, places));
    Ok(Decimal9 { billionths })
}

fn cut_decimal(text: &[u8]) -> Option<(Sign, &[u8], &[u8])>
    ensures found { IfSome result (λ p. IsCut text.now p.0 p.1.now p.2.now) }
    ensures none { IfNone result ((d : Decimal) → ¬ (WritesDecimal text.now d)) }
{
    let (sign, unsigned) = cut_sign(text);
    let (whole, rest) = cut_digits(unsigned);
    match cut_places(rest) {
        Some(places) if whole.len() + places.len() > 0 => Some((sign, whole, places)),
        _ => None,
    }
}

/// The digits after the point, none where there is no point.
fn cut_places(rest: &[u8]) -> Option<&[u8]>
    ensures found { IfSome result (λ p. ArePlaces rest.now p.now) }
    ensures none { IfNone result ((p : List ℕ) → ¬ (ArePlaces rest.now p)) }
{
    match rest {
        [] => Some(rest),
        [b'.', places @ ..] if places.len() <= PLACES && are_digits(places) => Some(places),
        _ => None,
    }
}

fn size(whole: &[u8], places: &[u8]) -> u128
    requires whole { All IsDigit whole.now }
    requires few { length whole.now ≤ 18 }
    requires places { All IsDigit places.now }
    requires nine { length places.now ≤ 9 }
    ensures value { result ≡ value_of whole.now * 10 ^ 9 + value_of (nine_places places.now) }
    ensures bound { result < 10 ^ 27 }
{
    let nine = filled(places);
    u128::from(number(whole)) * BILLION + u128::from(number(&nine))
}

fn filled(places: &[u8]) -> [u8; 9]
    requires { length places.now ≤ 9 }
    ensures { result ≡ nine_places places.now }
{
    let mut nine = [b'0'; 9];
    nine[..places.len()].copy_from_slice(places);
    nine
}

fn number(digits: &[u8]) -> u64
    requires digits { All IsDigit digits.now }
    requires few { length digits.now ≤ 18 }
    ensures value { result ≡ value_of digits.now }
    ensures bound { result < 10 ^ length digits.now }
{
    let mut n = 0;
    for b in digits {
        n = 10 * n + u64::from(*b - b'0');
    }
    n
}

fn under(sign: Sign, size: u128) -> i128
    requires { size < 10 ^ 27 }
    ensures { result ≡ signed sign size }
{
    match sign {
        Sign::Minus => -(size as i128),
        _ => size as i128,
    }
}

/// Writes the canonical text of the decimal at the front of `out`, and answers its length. It has
/// at least one whole digit, no leading zeros beyond it, no trailing zeros after the point, no
/// point without digits after it, and `-` only below zero.
pub fn write_decimal(value: Decimal9, out: &mut [u8]) -> usize
    requires { 48 ≤ length out.old }
    ensures len { result ≡ length (canonical value.billionths) }
    ensures written { out.new ≡ canonical value.billionths ++ drop (length (canonical value.billionths)) out.old }
{
    canonical_line(value.billionths).put(out)
}

fn canonical_line(billionths: i128) -> Line
    ensures text { result ≡ canonical billionths }
    ensures room { length result ≤ 48 }
{
    let mut line = Line::new();
    if billionths < 0 {
        line.push(b'-');
    }
    append_size(&mut line, billionths.unsigned_abs());
    line
}

fn append_size(line: &mut Line, billionths: u128)
    requires room { length line.old ≤ 1 }
    requires fits { billionths ≤ 2 ^ 127 }
    ensures { line.new ≡ line.old ++ canonical_size billionths }
{
    let mut buffer = Buffer::new();
    line.append(buffer.format(billionths / BILLION).as_bytes());
    append_fraction(line, (billionths % BILLION) as u32);
}

fn append_fraction(line: &mut Line, billionths: u32)
    requires room { length line.old ≤ 31 }
    requires fits { billionths < 10 ^ 9 }
    ensures { line.new ≡ line.old ++ fraction billionths }
{
    if billionths > 0 {
        line.push(b'.');
        append_places(line, billionths);
    }
}

fn append_places(line: &mut Line, billionths: u32)
    requires room { length line.old ≤ 32 }
    requires fits { billionths < 10 ^ 9 }
    ensures { line.new ≡ line.old ++ places 9 billionths }
{
    let mut rest = billionths;
    let mut unit = 100_000_000;
    for _place in 0..PLACES {
        if rest == 0 {
            return;
        }
        line.push(b'0' + (rest / unit) as u8);
        rest %= unit;
        unit /= 10;
    }
}

/// A text is read in one way as a decimal.
pub fn decimals_are_read_in_one_way()
    ensures { (text : List ℕ) (d e : Decimal) → WritesDecimal text d → WritesDecimal text e → d ≡ e }
{}

/// What is written of a decimal with at most 18 whole digits is read back as the decimal.
pub fn canonical_decimals_are_read_back()
    ensures { (value : Decimal9) (read : Result Decimal9 NumFault) → unsigned_abs value.billionths < 10 ^ 27
        → ReadsDecimal (canonical value.billionths) read → read ≡ Ok value }
{}

/// The canonical text of a whole number is that of the number without a point.
pub fn whole_numbers_are_canonical()
    ensures { (z : ℤ) → canonical (z *ℤ pos (10 ^ 9)) ≡ signed_decimal z }
{}

/// The decimal that a text is, is the computed one, and of any other text none is computed.
pub fn decimals_are_computed()
    ensures { (text : List ℕ) (d : Decimal) → WritesDecimal text d ↔ (decimal_of text ≡ Some d) }
{}

/// The computed decimals of a few texts, in billionths.
pub fn decimals_by_example()
    ensures places { option_map decimal_value (decimal_of (codes "1.5")) ≡ Some (pos 1500000000) }
    ensures last_place { option_map decimal_value (decimal_of (codes "-0.000000004")) ≡ Some (negsuc 3) }
    ensures point_first { option_map decimal_value (decimal_of (codes "+.25")) ≡ Some (pos 250000000) }
    ensures point_last { option_map decimal_value (decimal_of (codes "2.")) ≡ Some (pos 2000000000) }
    ensures ten_places { decimal_of (codes "0.0000000041") ≡ None }
    ensures two_points { decimal_of (codes "1.2.3") ≡ None }
    ensures no_digits { decimal_of (codes ".") ≡ None }
{}
