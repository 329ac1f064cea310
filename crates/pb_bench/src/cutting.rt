ghost use Rattle.std.specs.Prelude.{◌≡◌, ◌+◌, ◌≤◌, ◌<◌, length, take, drop, All};
ghost use Rattle.pb_words.specs.Numbers.{value_of, IsDigit};
ghost use Rattle.pb_words.specs.Decimals.{digits_in, behind_digits};
ghost use Rattle.pb_bench.specs.Sections.{behind_number, first_of, letter_in, size_text, size_in, behind_line, behind_section};

use pb_words::{NumFault, cut_digits, read_uint};

/// The letter of the port and the answer of the section at the front of the text, and what follows it.
pub(crate) fn cut_section(text: &[u8]) -> (u8, &[u8], &[u8])
    ensures letter { result.0 ≡ letter_in text.now }
    ensures answer { result.1.now ≡ take (size_in text.now) (behind_line text.now) }
    ensures rest { result.2.now ≡ behind_section text.now }
    ensures fits { length result.1.now + length result.2.now ≤ length text.now }
{
    let letter = behind_number(text);
    let size = behind_number(behind_two(letter));
    let (answer, rest) = cut_answer(size);
    (first_of(letter), answer, rest)
}

/// The byte at the front, 0 where there is none.
fn first_of(text: &[u8]) -> u8
    ensures { result ≡ first_of text.now }
{
    match text {
        [] => 0,
        [b, ..] => *b,
    }
}

/// What stands behind two bytes.
fn behind_two(text: &[u8]) -> &[u8]
    ensures { result.now ≡ drop 2 text.now }
{
    text.split_at(text.len().min(2)).1
}

/// What stands behind the number at the front and the byte that ends it.
fn behind_number(text: &[u8]) -> &[u8]
    ensures rest { result.now ≡ behind_number text.now }
    ensures fits { length result.now ≤ length text.now }
{
    behind_one(cut_number(text).1)
}

/// What stands behind a byte.
fn behind_one(text: &[u8]) -> &[u8]
    ensures { result.now ≡ drop 1 text.now }
{
    text.split_at(text.len().min(1)).1
}

/// The digits at the front, and what follows them.
fn cut_number(text: &[u8]) -> (&[u8], &[u8])
    ensures digits { result.0.now ≡ digits_in text.now }
    ensures rest { result.1.now ≡ behind_digits text.now }
    ensures each { All IsDigit result.0.now }
    ensures fits { length result.1.now ≤ length text.now }
{
    cut_digits(text)
}

/// The answer of which the number of bytes stands at the front of a text, and what follows it.
fn cut_answer(text: &[u8]) -> (&[u8], &[u8])
    ensures answer { result.0.now ≡ take (value_of (digits_in text.now)) (behind_number text.now) }
    ensures rest { result.1.now ≡ drop (value_of (digits_in text.now)) (behind_number text.now) }
    ensures fits { length result.0.now + length result.1.now ≤ length text.now }
{
    let (digits, end) = cut_number(text);
    cut_at(digits, behind_one(end))
}

/// The text cut behind as many bytes as the digits say, at most at its end.
fn cut_at<'a>(digits: &[u8], text: &'a [u8]) -> (&'a [u8], &'a [u8])
    requires { All IsDigit digits.now }
    ensures front { result.0.now ≡ take (value_of digits.now) text.now }
    ensures rest { result.1.now ≡ drop (value_of digits.now) text.now }
    ensures fits { length result.0.now + length result.1.now ≡ length text.now }
{
    text.split_at(place(digits, text.len()))
}

/// The number that the digits write, or the limit where it is larger.
fn place(digits: &[u8], limit: usize) -> usize
    requires { All IsDigit digits.now }
    ensures within { value_of digits.now < limit → result ≡ value_of digits.now }
    ensures beyond { limit ≤ value_of digits.now → result ≡ limit }
{
    match read_uint(digits, u64::MAX) {
        Ok(size) => {
            if size < limit as u64 {
                size as usize
            } else {
                limit
            }
        }
        Err(NumFault::Malformed) => 0,
        Err(NumFault::TooLarge) => limit,
    }
}
