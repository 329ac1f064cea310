ghost use Rattle.std.specs.Prelude.{◌≡◌, ◌≢◌, ◌↔◌, ◌≤◌, ℕ, codes};
ghost use Rattle.pb_ports.specs.Ports.{Rose};
ghost use Rattle.pb_stim.specs.Making.{made};
ghost use Rattle.pb_bench.specs.Asks.{Asks};
ghost use Rattle.panda_sim.specs.Run.{EndsOnScript};
ghost use Rattle.panda_sim.specs.Made.{IsAsked, WritesText};
ghost use Rattle.panda_sim.specs.Replayed.{EndsUnread};

use crate::statuses::Status;
use pb_bench::read_numbers;
use pb_ports::Sink;
use pb_stim::make;
use pb_words::Text;
use std::alloc::Global;

/// Writes the script of N points and the seed SEED, with the words `make N SEED`.
pub(crate) fn write_script<K: Sink>(alloc: Global, words: &[Text], output: &mut K) -> Status
    ensures usage { (result ≡ Status.Usage) ↔ (¬ (IsAsked (codes "make") words.now)) }
    ensures known { result ≢ Status.Usage → IsAsked (codes "make") words.now }
    ensures nothing { result ≡ Status.Usage → K.held output.new ≡ K.held output.old }
    ensures made { (n seed : ℕ) → Asks (codes "make") words.now n seed → WritesText (made n seed) result (K.held output.old) (K.held output.new) }
    ensures ends { EndsUnread result }
    ensures cause { result ≡ Status.WriteFault → Rose (K.faults output.old) (K.faults output.new) }
    ensures complete { IsAsked (codes "make") words.now → ¬ (Rose (K.faults output.old) (K.faults output.new)) → EndsOnScript result }
{
    match read_numbers(b"make", words) {
        Some((points, seed)) => write_made(alloc, points, seed, output),
        None => Status::Usage,
    }
}

/// Writes the script of so many points.
fn write_made<K: Sink>(alloc: Global, points: u32, seed: u64, output: &mut K) -> Status
    requires some { 1 ≤ points }
    requires most { points ≤ 100000 }
    ensures made { WritesText (made points seed) result (K.held output.old) (K.held output.new) }
    ensures ends { EndsUnread result }
    ensures known { result ≢ Status.Usage }
    ensures cause { result ≡ Status.WriteFault → Rose (K.faults output.old) (K.faults output.new) }
    ensures complete { ¬ (Rose (K.faults output.old) (K.faults output.new)) → EndsOnScript result }
{
    match make(alloc, points, seed) {
        Ok(text) => write_text(text.bytes(), output),
        Err(_) => Status::OutOfMemory,
    }
}

/// Writes a text.
pub(crate) fn write_text<K: Sink>(text: &[u8], output: &mut K) -> Status
    ensures wrote { WritesText text.now result (K.held output.old) (K.held output.new) }
    ensures ends { EndsUnread result }
    ensures known { result ≢ Status.Usage }
    ensures cause { result ≡ Status.WriteFault → Rose (K.faults output.old) (K.faults output.new) }
    ensures complete { ¬ (Rose (K.faults output.old) (K.faults output.new)) → EndsOnScript result }
{
    match output.write_all(text) {
        Ok(()) => Status::Ok,
        Err(_) => Status::WriteFault,
    }
}
