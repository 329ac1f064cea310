ghost use Rattle.std.specs.Prelude.{◌≡◌, ◌≢◌, true, false, ℕ, ◌<◌, ◌↔◌, ◌⊎◌, List, length, codes, Some, IsTrue, IfOk, IsErrOf};
ghost use Rattle.pb_ports.specs.Ports.{Rose, Takes, IsSpent};
ghost use Rattle.pb_stim.specs.Making.{made};
ghost use Rattle.pb_stim.specs.declared.Cause.{Cause};
ghost use Rattle.pb_replay.specs.Script.{Line, IsScript};
ghost use Rattle.pb_replay.specs.Faults.{first_fault};
ghost use Rattle.pb_bench.specs.Asks.{Asks};
ghost use Rattle.panda_sim.specs.Run.{IsReplay, Replays, Leaves, CallsOf, Makes, EndsOnNoScript, EndsOnScript, TakesUpToOnePieceMore};
ghost use Rattle.panda_sim.specs.Made.{IsAsked, IsKnown, OfMade, WritesText, WritesTally};
ghost use Rattle.panda_sim.specs.Replayed.{BeginWith, HasLines, Replayed, status_of};

use crate::benching::tell_output;
use crate::making::write_script;
use crate::statuses::Status;
use pb_ports::{Read, Sink, Source};
use pb_replay::{Played, ScriptFault, parse, play};
use pb_words::{Steps, Text};
use std::alloc::Global;
use std::sync::ledger::Ledger;

/// Runs the program on these words: `replay` reads a script and writes the answers to its commands, `make N SEED` writes a script, and
/// `bench N SEED` tells of the output of that script in four lines. The counter goes up by one for each block call.
pub fn run<S: Source, K: Sink, L: Ledger>(
    alloc: Global,
    words: &[Text],
    input: &mut S,
    output: &mut K,
    steps: &mut Steps<L>,
) -> Status
    // The words alone make it a wrong use, and then nothing is read or written.
    ensures usage { (result ≡ Status.Usage) ↔ (¬ (IsKnown words.now)) }
    ensures known { result ≢ Status.Usage → IsKnown words.now }
    ensures nothing { result ≡ Status.Usage → (S.left input.new ≡ S.left input.old) × (K.held output.new ≡ K.held output.old) × (steps.new ≡ steps.old) }

    // What `replay` leaves. However it ends, no more is read than a script and one piece.
    ensures leaves { IsReplay words.now → Leaves result (S.left input.old) (S.left input.new) (K.held output.old) (K.held output.new) }
    ensures bounded { TakesUpToOnePieceMore (S.left input.old) (S.left input.new) }

    // What `make` and `bench` write. They read nothing.
    ensures made { (n seed : ℕ) → Asks (codes "make") words.now n seed → WritesText (made n seed) result (K.held output.old) (K.held output.new) }
    ensures told { (n seed : ℕ) → Asks (codes "bench") words.now n seed → WritesTally n seed result (K.held output.old) (K.held output.new) }
    ensures unread { ¬ (IsReplay words.now) → input.new ≡ input.old }

    // A fault has its cause in the input or the output.
    ensures read_cause { result ≡ Status.ReadFault → Rose (S.faults input.old) (S.faults input.new) }
    ensures write_cause { result ≡ Status.WriteFault → Rose (K.faults output.old) (K.faults output.new) }

    // The line and the cause that are told are those of the whole input, however much of it was read.
    ensures fault { (bytes : List ℕ) (line : ℕ) (cause : Cause) → S.left input.old ≡ Some bytes → result ≡ Status.Script line cause
        → first_fault bytes ≡ Some (line, cause) }

    // What is no script is refused, unless the input fails or memory runs out first.
    ensures script { (bytes : List ℕ) → IsReplay words.now → S.left input.old ≡ Some bytes
        → ((lines : List Line) → ¬ (IsScript bytes lines)) → EndsOnNoScript result }

    // Without a script there are no block calls. With one there are at most three for each pair of an eventful tick and a block
    // that is busy at it, and 40 for each line; and at most three for each of the 35 blocks at each eventful tick and each line.
    ensures calls { IsReplay words.now
        → Makes result (steps.new ≡ steps.old) (Replays (S.left input.old) (S.left input.new) (CallsOf steps.old steps.new)) }
    ensures make_calls { IsAsked (codes "make") words.now → steps.new ≡ steps.old }
    ensures bench_calls { (n seed : ℕ) → Asks (codes "bench") words.now n seed
        → Makes result (steps.new ≡ steps.old) (OfMade n seed (CallsOf steps.old steps.new)) }

    // A script with no fault counted is played to its end or its limit, unless memory runs out.
    ensures complete { (bytes : List ℕ) (lines : List Line) → IsReplay words.now → S.left input.old ≡ Some bytes
        → IsScript bytes lines → ¬ (Rose (S.faults input.old) (S.faults input.new)) → ¬ (Rose (K.faults output.old) (K.faults output.new))
        → EndsOnScript result }
    ensures make_complete { IsAsked (codes "make") words.now → ¬ (Rose (K.faults output.old) (K.faults output.new)) → EndsOnScript result }
    ensures bench_complete { IsAsked (codes "bench") words.now → ¬ (Rose (K.faults output.old) (K.faults output.new)) → EndsOnScript result }
{
    if is_make(words) {
        return write_script(alloc, words, output);
    }
    if is_bench(words) {
        return tell_output(alloc, words, output, steps);
    }
    run_words(alloc, words, input, output, steps)
}

fn is_make(words: &[Text]) -> bool
    ensures begin { result ≡ true → BeginWith (codes "make") words.now }
    ensures other { result ≡ false → ¬ (BeginWith (codes "make") words.now) }
{
    begin_with(words, b"make")
}

fn is_bench(words: &[Text]) -> bool
    ensures begin { result ≡ true → BeginWith (codes "bench") words.now }
    ensures other { result ≡ false → ¬ (BeginWith (codes "bench") words.now) }
{
    begin_with(words, b"bench")
}

/// The first word is this one.
fn begin_with(words: &[Text], word: &[u8]) -> bool
    ensures { IsTrue result ↔ BeginWith word.now words.now }
{
    match words {
        [first, ..] => first.bytes() == word,
        [] => false,
    }
}

fn run_words<S: Source, K: Sink, L: Ledger>(
    alloc: Global,
    words: &[Text],
    input: &mut S,
    output: &mut K,
    steps: &mut Steps<L>,
) -> Status
    ensures leaves { Leaves result (S.left input.old) (S.left input.new) (K.held output.old) (K.held output.new) }
    ensures bounded { TakesUpToOnePieceMore (S.left input.old) (S.left input.new) }
    ensures usage { (result ≡ Status.Usage) ↔ (¬ (IsReplay words.now)) }
    ensures known { result ≢ Status.Usage → IsReplay words.now }
    ensures unread { ¬ (IsReplay words.now) → input.new ≡ input.old }
    ensures nothing { result ≡ Status.Usage → steps.new ≡ steps.old }
    ensures read_cause { result ≡ Status.ReadFault → Rose (S.faults input.old) (S.faults input.new) }
    ensures write_cause { result ≡ Status.WriteFault → Rose (K.faults output.old) (K.faults output.new) }
    ensures calls { Makes result (steps.new ≡ steps.old) (Replays (S.left input.old) (S.left input.new) (CallsOf steps.old steps.new)) }
{
    if !is_replay(words) {
        return Status::Usage;
    }
    match read_all(alloc, input) {
        Ok(text) => replay(alloc, text.bytes(), output, steps),
        Err(ReadError::Fault) => Status::ReadFault,
        Err(ReadError::OutOfMemory) => Status::OutOfMemory,
    }
}

/// The longest script, in bytes: 16 MiB.
const LONGEST: usize = 16_777_216;

/// Why the input isn't read to its end.
#[derive(Clone, Copy, Debug, PartialEq, Eq)]
pub(crate) enum ReadError {
    /// The input failed.
    Fault,
    /// Memory ran out.
    OutOfMemory,
}

fn is_replay(words: &[Text]) -> bool
    ensures { IsTrue result ↔ IsReplay words.now }
{
    match words {
        [word] => word.bytes() == b"replay".as_slice(),
        _ => false,
    }
}

/// Reads the input to its end, or until it is too long for a script or a stimulus.
pub(crate) fn read_all<S: Source>(alloc: Global, input: &mut S) -> Result<Text, ReadError>
    ensures taken { IfOk result (λ text. Takes (S.left input.old) text (S.left input.new)) }
    ensures enough { IfOk result (λ text. IsSpent (S.left input.new) ⊎ (16777216 < length text)) }
    ensures bounded { TakesUpToOnePieceMore (S.left input.old) (S.left input.new) }
    ensures cause { IsErrOf result ReadError.Fault → Rose (S.faults input.old) (S.faults input.new) }
{
    let mut text = Text::new(alloc);
    let mut piece = [0u8; 16384];
    while text.bytes().len() <= LONGEST {
        match input.read(&mut piece) {
            Read::Some(n) => match text.append(&piece[..n]) {
                Ok(()) => {}
                Err(_) => return Err(ReadError::OutOfMemory),
            },
            Read::End => return Ok(text),
            Read::Failed => return Err(ReadError::Fault),
        }
    }
    Ok(text)
}

/// Plays the script that the bytes are, if any.
pub(crate) fn replay<K: Sink, L: Ledger>(
    alloc: Global,
    bytes: &[u8],
    output: &mut K,
    steps: &mut Steps<L>,
) -> Status
    ensures replayed { Replayed result bytes.now (K.held output.old) (K.held output.new) }
    ensures calls { Makes result (steps.new ≡ steps.old) (HasLines bytes.now (CallsOf steps.old steps.new)) }
    ensures cause { result ≡ Status.WriteFault → Rose (K.faults output.old) (K.faults output.new) }
{
    match parse(alloc, bytes) {
        Ok(script) => status(play(alloc, &script, output, steps)),
        Err(ScriptFault::Line { line, cause }) => Status::Script { line, cause },
        Err(ScriptFault::OutOfMemory) => Status::OutOfMemory,
    }
}

/// How a run ends, by how playing its script does.
fn status(played: Played) -> Status
    ensures { result ≡ status_of played }
{
    match played {
        Played::Ok => Status::Ok,
        Played::WriteFault => Status::WriteFault,
        Played::OutOfMemory => Status::OutOfMemory,
        Played::EventLimit { tick } => Status::EventLimit { tick },
    }
}
