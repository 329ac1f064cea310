ghost use Rattle.std.specs.Prelude.{◌≡◌, ℕ, ◌≤◌, IfSome, IfNone};
ghost use Rattle.pb_words.specs.Numbers.{WritesNumber};
ghost use Rattle.pb_bench.specs.Asks.{Asks, IsPoints, IsSeed};

use pb_words::{Text, read_uint};

/// The most points of a script.
const MOST: u64 = 100_000;

/// The number of points, from 1 to 100,000, and the seed, where the words are this one and these two numbers.
pub fn read_numbers(word: &[u8], words: &[Text]) -> Option<(u32, u64)>
    ensures found { IfSome result (λ asked. Asks word.now words.now asked.0 asked.1) }
    ensures none { IfNone result ((n seed : ℕ) → ¬ (Asks word.now words.now n seed)) }
{
    match words {
        [first, points, seed] => numbers_behind(word, first.bytes(), points.bytes(), seed.bytes()),
        _ => None,
    }
}

/// The two numbers, where the first of three words is this one.
fn numbers_behind(word: &[u8], first: &[u8], points: &[u8], seed: &[u8]) -> Option<(u32, u64)>
    ensures found { IfSome result (λ asked. (first.now ≡ word.now) × IsPoints points.now asked.0 × IsSeed seed.now asked.1) }
    ensures none { IfNone result ((n x : ℕ) → first.now ≡ word.now → IsPoints points.now n → ¬ (IsSeed seed.now x)) }
{
    if first != word {
        return None;
    }
    match points_in(points) {
        Some(n) => match seed_in(seed) {
            Some(x) => Some((n, x)),
            None => None,
        },
        None => None,
    }
}

/// The number of points that the text writes.
fn points_in(text: &[u8]) -> Option<u32>
    ensures found { IfSome result (λ n. IsPoints text.now n) }
    ensures none { IfNone result ((n : ℕ) → ¬ (IsPoints text.now n)) }
{
    match read_uint(text, MOST) {
        Ok(n) => { if n == 0 { None } else { Some(n as u32) } }
        Err(_) => None,
    }
}

/// The seed that the text writes.
fn seed_in(text: &[u8]) -> Option<u64>
    ensures found { IfSome result (λ seed. IsSeed text.now seed) }
    ensures none { IfNone result ((seed : ℕ) → ¬ (IsSeed text.now seed)) }
{
    match read_uint(text, u64::MAX) {
        Ok(seed) => Some(seed),
        Err(_) => None,
    }
}
