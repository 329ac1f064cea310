ghost use Rattle.std.specs.Prelude.{List};

/// What a turn can be made of: a value that stands for lists of entries. For a simulator the entries are
/// its events with their answers, and it stands for the lists that lead to it.
pub trait Stands {
    /// What is added to the history at each turn.
    type Entry;

    // What kind of data says what a value was opened with.
    ghost Origin: { Type 0 };

    // What the value was opened with.
    ghost origin: { Self → Origin };

    // The value stands for this list of entries.
    ghost stands: { Self → List Self.Entry → Type 0 };
}
