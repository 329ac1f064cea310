ghost use Rattle.std.specs.Prelude.{◌≡◌, ◌++◌, ◌∷◌, [], ℕ, List, ◌↔◌, true};
ghost use Rattle.pb_grammar.specs.Streams.{IsWhole, Commands, is_whole};

/// A stream is one list of commands and one rest.
pub fn streams_have_one_list()
    ensures list { (stream : List ℕ) (xs ys : List (List ℕ)) (r s : List ℕ) → Commands stream xs r → Commands stream ys s → xs ≡ ys }
    ensures rest { (stream : List ℕ) (xs ys : List (List ℕ)) (r s : List ℕ) → Commands stream xs r → Commands stream ys s → r ≡ s }
{}

/// A stream grows byte by byte: a byte that makes the rest a whole command adds it to the list, any other the rest
/// keeps. So an assembler that is fed a stream completes its commands, however the stream is cut.
pub fn streams_grow_by_a_byte()
    ensures empty { Commands [] [] [] }
    ensures whole { (stream : List ℕ) (list : List (List ℕ)) (rest : List ℕ) (byte : ℕ) → Commands stream list rest → IsWhole (rest ++ byte ∷ []) → Commands (stream ++ byte ∷ []) (list ++ (rest ++ byte ∷ []) ∷ []) [] }
    ensures begun { (stream : List ℕ) (list : List (List ℕ)) (rest : List ℕ) (byte : ℕ) → Commands stream list rest → ¬ (IsWhole (rest ++ byte ∷ [])) → Commands (stream ++ byte ∷ []) list (rest ++ byte ∷ []) }
{}

/// Whether bytes are one whole command can be computed, and the last of them is a newline.
pub fn whole_commands_are_computed()
    ensures computed { (bytes : List ℕ) → (is_whole bytes ≡ true) ↔ IsWhole bytes }
    ensures ended { (seen : List ℕ) (byte : ℕ) → IsWhole (seen ++ byte ∷ []) → byte ≡ 10 }
{}
