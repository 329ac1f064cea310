ghost use Rattle.std.specs.Prelude.{◌≡◌, ◌++◌, ◌∷◌, [], List};
ghost use Rattle.std.proofs.Common.{ap};
ghost use Rattle.pb_stim.specs.declared.Row.{Row};
ghost use Rattle.pb_core.specs.Core.{CoreState};
ghost use Rattle.pb_core.specs.Answer.{CanHappen};
ghost use Rattle.pb_core.specs.History.{IsLegal, StandsFor};
ghost use Rattle.pb_core.specs.declared.servers.Entry.{Entry};

use crate::cores::Core;
use crate::events::{Answer, Event};
use pb_turn::Stands;
use pb_words::{OutOfMemory, Steps};
use std::sync::ledger::Ledger;

/// What a history is made of: an event, and what came of it.
#[derive(Debug, Drop)]
pub struct Entry {
    pub event: Event,
    pub result: Result<Answer, OutOfMemory>,
}

/// What sessions are served by: a value that answers events one after the other, as the core does. It stands for legal
/// histories alone.
pub trait Server: Stands<Entry = Entry> {
    // The core in which its histories begin.
    ghost opening: { Self → CoreState };

    /// Lets an event happen, and answers it. Want of memory comes only where it may come in a legal history.
    fn serve<L: Ledger>(
        &mut self,
        event: &Event,
        steps: &mut Steps<L>,
    ) -> Result<Answer, OutOfMemory>
        requires can { CanHappen event.now }
        ensures origin { (history : List Entry) → Self.stands self.old history → Self.origin self.new ≡ Self.origin self.old }
        ensures stands { (history : List Entry) → Self.stands self.old history
            → Self.stands self.new (history ++ record { event = event.now; result = result } ∷ []) };

    // What it was opened with says in which core its histories begin.
    ghost same_opening: { (value other : Self) → Self.origin value ≡ Self.origin other → opening value ≡ opening other };

    // What it stands for is legal.
    ghost legal: { (value : Self) (history : List Entry) → Self.stands value history → IsLegal (opening value) history };
}

/// A core stands for the legal histories in which it may have ended. It was opened with the rows of its stimulus.
impl Stands for Core {
    type Entry = Entry;

    ghost Origin = { List Row };

    ghost origin = { λ core. core.sim.rows };

    ghost stands = { λ core history. StandsFor core history };
}

impl Server for Core {
    ghost use Rattle.pb_core.specs.Core as definition;

    ghost opening = { λ core. definition.opening core.sim.rows };

    fn serve<L: Ledger>(
        &mut self,
        event: &Event,
        steps: &mut Steps<L>,
    ) -> Result<Answer, OutOfMemory> {
        self.apply(event, steps)
    }

    ghost same_opening = { λ value other same. ap (λ rows. definition.opening rows) same };

    ghost legal = { λ value history stands. stands.legal };
}
