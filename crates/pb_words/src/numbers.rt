ghost use Rattle.std.specs.Prelude.{◌≡◌, ℕ, ◌+◌, ◌-◌, ◌^◌, ◌<◌, ◌≤◌, ◌++◌, ◌↔◌, List, length, drop, decimal, true, IsTrue, All};
ghost use Rattle.pb_words.specs.Numbers.{IsDigit, IsUint, ReadsUint, WritesNumber};
ghost use Rattle.pb_words.specs.Signed.{is_uint};

use itoa::Buffer;

/// Why a text gives no number.
#[derive(Clone, Copy, Debug, PartialEq, Eq, Hash)]
pub enum NumFault {
    /// The text isn't in the grammar.
    Malformed,
    /// The text is in the grammar, and its number doesn't fit.
    TooLarge,
}

const TICK_MAX: u64 = 0x3fff_ffff_ffff_ffff;

/// Reads one or more digits as a number of 32 bits.
pub fn read_u32(text: &[u8]) -> Result<u32, NumFault>
    ensures { ReadsUint (2 ^ 32 - 1) text.now result }
{
    let n = read_uint(text, 0xffff_ffff)?;
    Ok(n as u32)
}

/// Reads one or more digits as a number of 48 bits.
pub fn read_u48(text: &[u8]) -> Result<u64, NumFault>
    ensures { ReadsUint (2 ^ 48 - 1) text.now result }
{
    read_uint(text, 0xffff_ffff_ffff)
}

/// Reads one or more digits as a tick, which is below 2^62.
pub fn read_tick(text: &[u8]) -> Result<u64, NumFault>
    ensures { ReadsUint (2 ^ 62 - 1) text.now result }
{
    read_uint(text, TICK_MAX)
}

/// Writes the number as a decimal without leading zeros at the front of `out`, and answers its length.
pub fn write_u64(value: u64, out: &mut [u8]) -> usize
    requires { 48 ≤ length out.old }
    ensures len { result ≡ length (decimal value) }
    ensures written { out.new ≡ decimal value ++ drop (length (decimal value)) out.old }
{
    let mut buffer = Buffer::new();
    put_front(buffer.format(value).as_bytes(), out)
}

/// Writes the text at the front of `out`, and answers its length.
pub fn put_front(text: &[u8], out: &mut [u8]) -> usize
    requires { length text.now ≤ length out.old }
    ensures len { result ≡ length text.now }
    ensures written { out.new ≡ text.now ++ drop (length text.now) out.old }
{
    let n = text.len();
    out[..n].copy_from_slice(text);
    n
}

/// Reads one or more digits as a number up to the limit.
#[tactic(auto, using(crate::proofs::NumberLemmas::reading))]
pub fn read_uint(text: &[u8], limit: u64) -> Result<u64, NumFault>
    ensures { ReadsUint limit text.now result }
{
    if !is_uint(text) {
        return Err(NumFault::Malformed);
    }
    let mut n: u64 = 0;
    for b in text {
        let digit = u64::from(*b - b'0');
        if digit > limit || n > (limit - digit) / 10 {
            return Err(NumFault::TooLarge);
        }
        n = 10 * n + digit;
    }
    Ok(n)
}

fn is_uint(text: &[u8]) -> bool
    ensures { IsTrue result ↔ IsUint text.now }
{
    !text.is_empty() && are_digits(text)
}

pub fn are_digits(text: &[u8]) -> bool
    ensures { IsTrue result ↔ All IsDigit text.now }
{
    text.iter().all(|b| b'0' <= *b && *b <= b'9')
}

/// What is written as a decimal is read back as the number.
pub fn decimals_are_read_back()
    ensures { (n : ℕ) → n < 2 ^ 64 → WritesNumber (decimal n) n }
{}

/// A text is a number without a sign exactly where the test is true of it.
pub fn uints_are_computed()
    ensures { (text : List ℕ) → IsUint text ↔ (is_uint text ≡ true) }
{}
