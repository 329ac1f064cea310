ghost use Rattle.std.specs.Prelude.{◌≡◌, ℕ, List, true, ◌↔◌};
ghost use Rattle.pb_grammar.specs.Targets.{is_name_byte, Target, WritesTarget, IsTargetText};
ghost use Rattle.pb_grammar.specs.Grammar.{is_target, is_within, names_in};

/// By its number each byte that can stand in a name, and a point for any other.
static NAME_BYTES: [u8; 256] = *b"\
    ................................\
    ................0123456789......\
    .ABCDEFGHIJKLMNOPQRSTUVWXYZ...._\
    .abcdefghijklmnopqrstuvwxyz.....\
    ................................\
    ................................\
    ................................\
    ................................";

/// Whether the text is a target: a field or an attribute, as `LUT1.INPA.DELAY`, all fields of a block or
/// all attributes of a field, as `LUT1.*`, or `*` and one to four names, as `*ENUMS.LUT1.INPA`.
#[tactic(auto, unfolding(crate::specs::Grammar::is_target))]
pub(crate) fn is_target(text: &[u8]) -> bool
    ensures { result ≡ is_target text.now }
{
    if let Some(name) = text.strip_prefix(b"*".as_slice()) {
        within(1, 4, names_in(name))
    } else if let Some(front) = text.strip_suffix(b".*".as_slice()) {
        within(1, 2, names_in(front))
    } else {
        within(2, 3, names_in(text))
    }
}

pub(crate) fn within(low: usize, high: usize, n: usize) -> bool
    ensures { result ≡ is_within low high n }
{
    low <= n && n <= high
}

/// How many names with points between them the text is; 0 for any other text.
#[tactic(auto, using(crate::proofs::NameCounts::names_on_all))]
pub(crate) fn names_in(text: &[u8]) -> usize
    ensures { result ≡ names_in text.now }
{
    let mut count = 1;
    let mut empty = true;
    for b in text {
        if *b == b'.' {
            if empty {
                return 0;
            }
            count += 1;
            empty = true;
        } else if is_name_byte(*b) {
            empty = false;
        } else {
            return 0;
        }
    }
    if empty { 0 } else { count }
}

/// Whether the byte is a letter, a digit or `_`.
fn is_name_byte(b: u8) -> bool
    ensures { result ≡ is_name_byte b }
{
    NAME_BYTES[b as usize] != b'.'
}

/// A text is a target exactly where the test is true of it.
pub fn targets_are_computed()
    ensures { (text : List ℕ) → IsTargetText text ↔ (is_target text ≡ true) }
{}

/// No text is two targets.
pub fn targets_are_read_in_one_way()
    ensures { (text : List ℕ) (s t : Target) → WritesTarget text s → WritesTarget text t → s ≡ t }
{}
