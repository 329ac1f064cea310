ghost use Rattle.std.specs.Prelude.{◌≡◌, ◌<◌, ◌≤◌, ◌*◌, ◌%◌, ℕ, length, slice_index, IfSome, IfNone};
ghost use Rattle.pb_tables.specs.Tables.{trigger_of, last_trigger};
ghost use Rattle.pb_tables.specs.Held.{IsBad};

/// The place of the first row with a trigger that there isn't.
pub(crate) fn bad_row(words: &[u32]) -> Option<usize>
    requires { length words.now % 4 ≡ 0 }
    ensures some { IfSome result (IsBad words.now) }
    ensures none { IfNone result ((i : ℕ) → 4 * i < length words.now → trigger_of (slice_index words.now (4 * i)) ≤ last_trigger) }
{
    for i in 0..words.len() / 4 {
        if words[4 * i] / 65536 % 16 > 12 {
            return Some(i);
        }
    }
    None
}
