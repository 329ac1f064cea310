ghost use Rattle.std.specs.Prelude.{◌≡◌, ◌≢◌, ◌↔◌, ◌≤◌, ℕ, codes};
ghost use Rattle.pb_ports.specs.Ports.{Rose};
ghost use Rattle.pb_stim.specs.Making.{made};
ghost use Rattle.pb_replay.specs.Output.{output};
ghost use Rattle.pb_bench.specs.Asks.{Asks};
ghost use Rattle.panda_sim.specs.Run.{CallsOf, EndsOnScript, Makes};
ghost use Rattle.panda_sim.specs.Made.{AreShort, IsAsked, OfMade, WritesTally};
ghost use Rattle.panda_sim.specs.Replayed.{EndsUnread};

use crate::making::write_text;
use crate::running::replay;
use crate::statuses::Status;
use pb_bench::{KeptOutput, read_numbers, tally};
use pb_ports::Sink;
use pb_stim::make;
use pb_words::{Steps, Text};
use std::alloc::Global;
use std::sync::ledger::Ledger;

/// Plays the script of N points and the seed SEED, with the words `bench N SEED`, and tells of its output in four lines: the points, the records
/// that were captured, the bytes of the output, and their sum modulo 2^32.
pub(crate) fn tell_output<K: Sink, L: Ledger>(
    alloc: Global,
    words: &[Text],
    output: &mut K,
    steps: &mut Steps<L>,
) -> Status
    ensures usage { (result ≡ Status.Usage) ↔ (¬ (IsAsked (codes "bench") words.now)) }
    ensures known { result ≢ Status.Usage → IsAsked (codes "bench") words.now }
    ensures nothing { result ≡ Status.Usage → (K.held output.new ≡ K.held output.old) × (steps.new ≡ steps.old) }
    ensures told { (n seed : ℕ) → Asks (codes "bench") words.now n seed → WritesTally n seed result (K.held output.old) (K.held output.new) }
    ensures calls { (n seed : ℕ) → Asks (codes "bench") words.now n seed
        → Makes result (steps.new ≡ steps.old) (OfMade n seed (CallsOf steps.old steps.new)) }
    ensures ends { EndsUnread result }
    ensures cause { result ≡ Status.WriteFault → Rose (K.faults output.old) (K.faults output.new) }
    ensures complete { IsAsked (codes "bench") words.now → ¬ (Rose (K.faults output.old) (K.faults output.new)) → EndsOnScript result }
{
    match read_numbers(b"bench", words) {
        Some((points, seed)) => tell_made(alloc, points, seed, output, steps),
        None => Status::Usage,
    }
}

/// Writes the lines on the output of the script of so many points.
fn tell_made<K: Sink, L: Ledger>(
    alloc: Global,
    points: u32,
    seed: u64,
    output: &mut K,
    steps: &mut Steps<L>,
) -> Status
    requires some { 1 ≤ points }
    requires most { points ≤ 100000 }
    ensures told { WritesTally points seed result (K.held output.old) (K.held output.new) }
    ensures calls { Makes result (steps.new ≡ steps.old) (OfMade points seed (CallsOf steps.old steps.new)) }
    ensures ends { EndsUnread result }
    ensures known { result ≢ Status.Usage }
    ensures cause { result ≡ Status.WriteFault → Rose (K.faults output.old) (K.faults output.new) }
    ensures complete { ¬ (Rose (K.faults output.old) (K.faults output.new)) → EndsOnScript result }
{
    let script = match make(alloc, points, seed) {
        Ok(script) => script,
        Err(_) => return Status::OutOfMemory,
    };
    let mut kept = KeptOutput::new(alloc);
    match replay(alloc, script.bytes(), &mut kept, steps) {
        Status::Ok => tell_kept(alloc, points, seed, kept.bytes(), output),
        Status::EventLimit { tick } => Status::EventLimit { tick },
        Status::Script { .. } => unreachable!(),
        _ => Status::OutOfMemory,
    }
}

/// Writes the lines on this output of the script of so many points.
fn tell_kept<K: Sink>(alloc: Global, points: u32, seed: u64, kept: &[u8], sink: &mut K) -> Status
    requires { OfMade points seed (λ lines. AreShort lines × (kept.now ≡ output lines)) }
    ensures told { WritesTally points seed result (K.held sink.old) (K.held sink.new) }
    ensures ends { EndsUnread result }
    ensures known { result ≢ Status.Usage }
    ensures limit { (tick : ℕ) → result ≢ Status.EventLimit tick }
    ensures cause { result ≡ Status.WriteFault → Rose (K.faults sink.old) (K.faults sink.new) }
    ensures complete { ¬ (Rose (K.faults sink.old) (K.faults sink.new)) → EndsOnScript result }
{
    match tally(alloc, points, kept) {
        Ok(text) => write_text(text.bytes(), sink),
        Err(_) => Status::OutOfMemory,
    }
}
