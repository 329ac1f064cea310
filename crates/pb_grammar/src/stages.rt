ghost use Rattle.std.specs.Prelude.{◌≡◌, ◌≢◌, ◌++◌, ◌∷◌, [], List, ℕ, take};
ghost use Rattle.pb_grammar.specs.Grammar.{IsText, said_of};
ghost use Rattle.pb_grammar.specs.Feeding.{IsStage, IsNext, fault_of, room, stage_fault};
ghost use Rattle.pb_grammar.specs.declared.stages.Stage.TheVariants as stages;

use crate::commands::{Command, command_in};
use crate::queries::queried;
use crate::scanning::Scan;
use crate::tables::opening_in;
use crate::targets::is_target;
use pb_words::Refusal;

/// How far the bytes of a command have come.
#[derive(Clone, Copy)]
pub enum Stage {
    /// In the first line.
    First,
    /// In a body, with whether its target is malformed.
    Body { malformed: bool, scan: Scan },
    /// The command is whole, and refused for this reason.
    Whole(Option<Refusal>),
}

/// The stage after one more byte, where these are kept of the bytes before it.
pub(crate) fn next_stage(stage: Stage, kept: &[u8], byte: u8) -> Stage
    ensures { (seen : List ℕ) → IsStage stage seen → kept.now ≡ take room seen → IsNext result (seen ++ byte ∷ []) }
{
    match stage {
        Stage::Body { malformed, scan } => in_body(malformed, scan, byte),
        _ if byte == b'\n' => after_first(kept),
        _ => Stage::First,
    }
}

/// The stage after one more byte of a body or of the empty line behind it.
fn in_body(malformed: bool, scan: Scan, byte: u8) -> Stage
    ensures { (seen : List ℕ) → IsStage (stages.Body malformed scan) seen → IsNext result (seen ++ byte ∷ []) }
{
    if byte != b'\n' || scan.line > 0 {
        Stage::Body {
            malformed,
            scan: scan.after(byte),
        }
    } else if malformed {
        Stage::Whole(Some(Refusal::MalformedCommand))
    } else {
        Stage::Whole(scan.fault)
    }
}

/// The stage after the newline of the first line.
fn after_first(kept: &[u8]) -> Stage
    ensures { (seen : List ℕ) → IsText seen → kept.now ≡ take room seen → IsNext result (seen ++ 10 ∷ []) }
{
    match queried(kept) {
        Some(_) => Stage::Whole(None),
        None => after_any(kept),
    }
}

/// The same, by the form of the line.
fn after_any(kept: &[u8]) -> Stage
    ensures { (seen : List ℕ) → IsText seen → kept.now ≡ take room seen → IsNext result (seen ++ 10 ∷ []) }
{
    match opening_in(kept) {
        Some(opening) => Stage::Body {
            malformed: !is_target(opening.target),
            scan: Scan::new(),
        },
        None => Stage::Whole(fault_of(command_in(kept))),
    }
}

/// The refusal of a whole command.
pub(crate) fn stage_fault(stage: Stage) -> Option<Refusal>
    ensures { result ≡ stage_fault stage }
{
    match stage {
        Stage::Whole(fault) => fault,
        _ => None,
    }
}

/// The refusal of a command.
fn fault_of(command: Command<'_>) -> Option<Refusal>
    ensures { result ≡ fault_of (said_of command.entry) }
{
    match command {
        Command::Bad(refusal) => Some(refusal),
        _ => None,
    }
}
