ghost use Rattle.std.specs.Prelude.{◌≡◌, ◌↔◌, ℕ, List, [], ◌∷◌, Bool, true, false, Ok, Err, codes};
ghost use Rattle.pb_tables.specs.Bodies.{Says, SaysNone};
ghost use Rattle.pb_tables.specs.Tables.{IsWritten, IsRefused};
ghost use Rattle.pb_tables.specs.Computed.{written};

use pb_words::Refusal;

/// A body says one list of words, or for one reason none.
pub fn bodies_have_one_meaning()
    ensures words { (base64 : Bool) (body words others : List ℕ) → Says base64 body words → Says base64 body others → words ≡ others }
    ensures reason { (base64 : Bool) (body : List ℕ) (refusal other : Refusal) → SaysNone base64 body refusal → SaysNone base64 body other → refusal ≡ other }
    ensures apart { (base64 : Bool) (body words : List ℕ) (refusal : Refusal) → Says base64 body words → ¬ (SaysNone base64 body refusal) }
{}

/// A table write leaves one table, or is refused for one reason.
pub fn writes_have_one_meaning()
    ensures table { (old : List ℕ) (append base64 : Bool) (body new other : List ℕ) → IsWritten old append base64 body new → IsWritten old append base64 body other → new ≡ other }
    ensures reason { (old : List ℕ) (append base64 : Bool) (body : List ℕ) (refusal other : Refusal) → IsRefused old append base64 body refusal → IsRefused old append base64 body other → refusal ≡ other }
    ensures apart { (old : List ℕ) (append base64 : Bool) (body new : List ℕ) (refusal : Refusal) → IsWritten old append base64 body new → ¬ (IsRefused old append base64 body refusal) }
{}

/// What a table write leaves, or why it is refused, is what is computed, for every list of bytes as the body.
pub fn writes_are_computed()
    ensures table { (old : List ℕ) (append base64 : Bool) (body new : List ℕ)
        → (written old append base64 body ≡ Ok new) ↔ IsWritten old append base64 body new }
    ensures reason { (old : List ℕ) (append base64 : Bool) (body : List ℕ) (refusal : Refusal)
        → (written old append base64 body ≡ Err refusal) ↔ IsRefused old append base64 body refusal }
{}

/// What is computed of a few writes: one row as numbers and in base64, alone and behind another, and of each refusal one.
pub fn writes_by_example()
    ensures numbers { written [] false false (codes " 67108867 0  0 1 ") ≡ Ok (67108867 ∷ 0 ∷ 0 ∷ 1 ∷ []) }
    ensures base64 { written [] false true (codes "AwAABAAAAAAAAAAAAQAAAA==") ≡ Ok (67108867 ∷ 0 ∷ 0 ∷ 1 ∷ []) }
    ensures appended { written (1 ∷ 0 ∷ 0 ∷ 2 ∷ []) true false (codes "3 0 0 4") ≡ Ok (1 ∷ 0 ∷ 0 ∷ 2 ∷ 3 ∷ 0 ∷ 0 ∷ 4 ∷ []) }
    ensures emptied { written (1 ∷ 0 ∷ 0 ∷ 2 ∷ []) false false [] ≡ Ok [] }
    ensures no_number { written [] false false (codes "4294967296 x") ≡ Err Refusal.MalformedValue }
    ensures no_word { written [] false false (codes "4294967296 0 0") ≡ Err Refusal.ValueOutOfRange }
    ensures no_row { written [] false false (codes "851969 0 0") ≡ Err Refusal.NotWholeRows }
    ensures no_trigger { written [] false false (codes "851969 0 0 1") ≡ Err Refusal.ValueOutOfRange }
    ensures no_letters { written [] false true (codes "AR==") ≡ Err Refusal.MalformedBase64 }
    ensures half_a_word { written [] false true (codes "AQAA") ≡ Err Refusal.NotWholeRows }
{}
