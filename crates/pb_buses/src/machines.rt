ghost use Rattle.std.specs.Prelude.{◌≡◌, ℕ, ◌+◌, ◌^◌, ◌<◌, ◌≤◌};
ghost use Rattle.pb_buses.specs.declared.inputs.Outputs.{Outputs};
ghost use Rattle.pb_buses.specs.Rules.{Rules, CountsAreUnseen, IsHorizon, AreCalm, after};

use crate::emits::Emit;
use crate::inputs::{Inputs, Outputs};
use pb_words::Steps;
use std::sync::ledger::Ledger;

/// A block: settings that commands change, and registers that ticks change.
pub trait Machine {
    // How a tick changes the block and what it emits, and what is left of it without its running counts.
    ghost rules: { Rules Self };

    // What the block shows on the buses.
    ghost shown: { Self → Outputs };

    // Whether the block takes a raw value in a field, by the field's place in the catalogue.
    ghost settable: { Self → ℕ → ℕ → Type 0 };

    // The block with this raw value in a field.
    ghost with_field: { Self → ℕ → ℕ → Self };

    /// One tick of the block.
    fn step<L: Ledger>(&mut self, inputs: &Inputs, tick: u64, steps: &mut Steps<L>) -> Emit
        requires { tick < 2 ^ 62 }
        ensures next { self.new ≡ rules.next self.old inputs.now tick }
        ensures emits { result ≡ rules.emitted self.old inputs.now tick }
        ensures counts { steps.new ≡ steps.old + 1 };

    /// How many steps under these inputs, from this tick on, are calm before the first that isn't. None
    /// where all are calm.
    fn horizon<L: Ledger>(&self, inputs: &Inputs, tick: u64, steps: &mut Steps<L>) -> Option<u128>
        requires { tick < 2 ^ 62 }
        ensures horizon { IsHorizon rules inputs.now tick self.now result }
        ensures counts { steps.new ≡ steps.old + 1 };

    /// So many steps under these inputs at once, all of them calm: as many as the horizon says, or fewer.
    /// The first is at this tick, and all of them are below tick 2^62.
    fn coast<L: Ledger>(&mut self, inputs: &Inputs, tick: u64, ticks: u64, steps: &mut Steps<L>)
        requires calm { AreCalm rules inputs.now tick ticks self.old }
        requires end { tick + ticks ≤ 2 ^ 62 }
        ensures left { self.new ≡ after rules inputs.now tick ticks self.old }
        ensures counts { steps.new ≡ steps.old + 1 };

    /// What the block shows on the buses, in the order of the catalogue.
    fn outputs(&self) -> Outputs
        ensures { result ≡ shown self.now };

    /// A field takes a raw value: a param, time or write field of the block, by its place in the
    /// catalogue, and a value in its range.
    fn set(&mut self, field: u8, raw: u64)
        requires { settable self.old field raw }
        ensures { self.new ≡ with_field self.old field raw };

    // Neither the outputs nor whether a step emits depends on the running counts.
    ghost counts_unseen: { CountsAreUnseen rules shown };
}
