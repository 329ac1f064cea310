ghost use Rattle.std.specs.Prelude.{◌≡◌, ◌≤◌, OnErr};
ghost use Rattle.pb_ports.specs.Ports.{Rose, Writes};
ghost use Rattle.pb_session.specs.Controls.{told};

use pb_core::Answer;
use pb_ports::{Failed, Sink};
use pb_words::{OutOfMemory, Refusal};

/// Writes what came of a command.
pub(crate) fn tell<K: Sink>(
    outcome: &Result<Answer, OutOfMemory>,
    sink: &mut K,
) -> Result<(), Failed>
    ensures writes { Writes (K.held sink.old) (told outcome.now) result (K.held sink.new) }
    ensures cause { OnErr result (Rose (K.faults sink.old) (K.faults sink.new)) }
    ensures count { K.faults sink.old ≤ K.faults sink.new }
{
    match outcome {
        Ok(answer) => sink.write_all(answer.bytes()),
        Err(_) => sink.write_all(Refusal::OutOfMemory.line()),
    }
}
