// Laws of what passes know.
ghost use Rattle.std.specs.Prelude.{◌≡◌, ◌+◌, ◌<◌, ◌++◌, ℕ, Bool, List, All, length};
ghost use Rattle.std.specs.List.{count_by};
ghost use mathlib.Core.List.{IsPrefix};
ghost use Rattle.pb_turn.specs.Seeing.{together, entries_at};

/// The calls of a pass stay the same entries as the history grows.
pub fn calls_stay<E>(_of: &[E])
    ensures { (seen more : List E) (made : List ℕ) → All (λ n. n < length seen) made → entries_at (seen ++ more) made ≡ entries_at seen made }
{}

/// Whatever begins with what one pass has seen and with what another has seen has the calls of both. So it is
/// with what a pass has seen that was joined of both, and with the history that it finds when it enters.
pub fn joined_passes_have_seen_both<E>(_of: &[E])
    ensures { (a b history : List E) (mine theirs : List ℕ) → IsPrefix a history → IsPrefix b history → All (λ n. n < length a) mine → All (λ n. n < length b) theirs
        → (entries_at history mine ≡ entries_at a mine) × (entries_at history theirs ≡ entries_at b theirs) }
{}

/// Two passes' positions put together are those of the one and those of the other, however they are counted.
pub fn joined_calls_are_those_of_both()
    ensures { (test : ℕ → Bool) (mine theirs : List ℕ) → count_by test (together mine theirs) ≡ count_by test mine + count_by test theirs }
{}
