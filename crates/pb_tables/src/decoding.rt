ghost use Rattle.std.specs.Prelude.{◌≡◌, ◌≢◌, ℕ, ◌≤◌, List, IfSome, IfNone, MatchBool, length};
ghost use Rattle.base64.specs.Engines.{standard};
ghost use Rattle.base64.specs.GeneralPurpose.{IsBytes, encode_of};
ghost use Rattle.pb_tables.specs.Chunks.{IsChunk};

use base64::engine::general_purpose::STANDARD;

/// How many bytes these letters are written for, which are then in front of `out`; none where the letters
/// aren't those of any bytes.
pub(crate) fn decode(letters: &[u8], out: &mut [u8]) -> Option<usize>
    requires few { length letters.now ≤ 16 }
    requires room { length out.old ≡ 12 }
    ensures some { IfSome result (λ n. IsChunk letters.now n out.new) }
    ensures none { IfNone result ((bytes : List ℕ) → IsBytes bytes → letters.now ≢ encode_of standard bytes) }
{
    match STANDARD.decode_slice_unchecked(letters, out) {
        Ok(n) => Some(n),
        Err(_) => None,
    }
}

/// Whether these letters are those of twelve bytes, which are then in `out`.
pub(crate) fn decode_whole(letters: &[u8], out: &mut [u8]) -> bool
    requires few { length letters.now ≤ 16 }
    requires room { length out.old ≡ 12 }
    ensures { MatchBool result (IsChunk letters.now 12 out.new)
        ((bytes : List ℕ) → IsBytes bytes → length bytes ≡ 12 → letters.now ≢ encode_of standard bytes) }
{
    match decode(letters, out) {
        Some(n) => n == 12,
        None => false,
    }
}
