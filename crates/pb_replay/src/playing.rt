ghost use Rattle.std.specs.Prelude.{◌≡◌, ◌≤◌, IfOk};
ghost use Rattle.pb_ports.specs.Ports.{Rose};
ghost use Rattle.pb_replay.specs.Plays.{PlaysKept, CallsKept};

use crate::played::Played;
use crate::players::Player;
use crate::scripts::Script;
use pb_ports::Sink;
use pb_stim::Stimulus;
use pb_words::{OutOfMemory, Steps};
use std::alloc::Global;
use std::sync::ledger::Ledger;

/// Plays a script from its beginning to its end, and writes its output. Where the output fails or memory is wanting, a front of it was
/// written. At its 10,000,000th eventful tick it ends: what the lines before give was written. The counter goes up by one for each
/// block call.
pub fn play<K: Sink, L: Ledger>(
    alloc: Global,
    script: &Script,
    output: &mut K,
    steps: &mut Steps<L>,
) -> Played
    ensures plays { PlaysKept script.now result (K.held output.old) (K.held output.new) }
    ensures calls { CallsKept script.now steps.old steps.new }
    ensures cause { result ≡ Played.WriteFault → Rose (K.faults output.old) (K.faults output.new) }
    ensures count { K.faults output.old ≤ K.faults output.new }
{
    let stimulus = match copied(alloc, script.stimulus()) {
        Ok(stimulus) => stimulus,
        Err(_) => return Played::OutOfMemory,
    };
    match Player::new(alloc, stimulus) {
        Ok(mut player) => {
            let (bytes, moments) = script.steps();
            player.play_steps(bytes, moments, output, steps)
        }
        Err(_) => Played::OutOfMemory,
    }
}

/// The same rows, for a core of its own.
fn copied(alloc: Global, stimulus: &Stimulus) -> Result<Stimulus, OutOfMemory>
    ensures { IfOk result (λ copy. copy ≡ stimulus.now) }
{
    let mut copy = Stimulus::new(alloc);
    for i in 0..stimulus.len() {
        let (tick, target, value) = stimulus.row(i);
        copy.push(tick, target, value)?;
    }
    Ok(copy)
}
