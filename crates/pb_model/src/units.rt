ghost use Rattle.std.specs.Prelude.{◌≡◌, ◌≤◌, ◌<◌, ◌+◌, ◌^◌, true, IfOk};
ghost use Rattle.pb_names.specs.declared.lut.TheConstants as lut;
ghost use Rattle.pb_names.specs.declared.pcap.TheConstants as pcap;
ghost use Rattle.pb_names.specs.declared.seq.TheConstants as seq;
ghost use Rattle.pb_tables.specs.Computed.{written, answer_of};
ghost use Rattle.pb_model.specs.Tables.{unit_left};
ghost use Rattle.pb_model.specs.Units.{opening_unit, place_of, next, is_quiet, IsRead, value_read, words_of, bit_outputs, position_outputs};

use pb_buses::{Emit, Inputs, Machine, Outputs};
use pb_logic::{Clock, Counter, Div, Lut, Srgate};
use pb_names::{clock, counter, div, lut, pcap, pcomp, pulse, seq, srgate};
use pb_pcap::Pcap;
use pb_pcomp::Pcomp;
use pb_pulse::Pulse;
use pb_seq::Seq;
use pb_tables::Rows;
use pb_words::{OutOfMemory, Refusal, Steps};
use std::alloc::Global;
use std::sync::ledger::Ledger;

/// A block of one of the nine kinds.
#[derive(Drop)]
pub enum Unit {
    Lut(Lut),
    Srgate(Srgate),
    Div(Div),
    Pulse(Pulse),
    Counter(Counter),
    Clock(Clock),
    Seq(Seq),
    Pcomp(Pcomp),
    Pcap(Pcap),
}

impl Unit {
    /// The unit as the box opens, by the place of its kind in the catalogue, 3 to 11. It takes all the memory
    /// that it needs.
    pub fn new(alloc: Global, block: u8) -> Result<Unit, OutOfMemory>
        requires from_lut { lut.BLOCK ≤ block }
        requires to_pcap { block ≤ pcap.BLOCK }
        ensures { IfOk result (λ unit. unit ≡ opening_unit block) }
    {
        let unit = match block {
            lut::BLOCK => Unit::Lut(Lut::new()),
            srgate::BLOCK => Unit::Srgate(Srgate::new()),
            div::BLOCK => Unit::Div(Div::new()),
            pulse::BLOCK => Unit::Pulse(Pulse::new(alloc)?),
            counter::BLOCK => Unit::Counter(Counter::new()),
            clock::BLOCK => Unit::Clock(Clock::new()),
            seq::BLOCK => Unit::Seq(Seq::new(alloc)?),
            pcomp::BLOCK => Unit::Pcomp(Pcomp::new()),
            _ => Unit::Pcap(Pcap::new()),
        };
        Ok(unit)
    }

    /// The place of its kind in the catalogue.
    pub fn place(&self) -> u8
        ensures { result ≡ place_of self.now }
    {
        match self {
            Unit::Lut(_) => lut::BLOCK,
            Unit::Srgate(_) => srgate::BLOCK,
            Unit::Div(_) => div::BLOCK,
            Unit::Pulse(_) => pulse::BLOCK,
            Unit::Counter(_) => counter::BLOCK,
            Unit::Clock(_) => clock::BLOCK,
            Unit::Seq(_) => seq::BLOCK,
            Unit::Pcomp(_) => pcomp::BLOCK,
            Unit::Pcap(_) => pcap::BLOCK,
        }
    }

    /// Whether a step under these inputs emits nothing. It is no step.
    pub fn is_quiet(&self, inputs: &Inputs) -> bool
        ensures { result ≡ is_quiet self.now inputs.now }
    {
        match self {
            Unit::Pcap(block) => block.is_quiet(inputs),
            Unit::Lut(_)
            | Unit::Srgate(_)
            | Unit::Div(_)
            | Unit::Pulse(_)
            | Unit::Counter(_)
            | Unit::Clock(_)
            | Unit::Seq(_)
            | Unit::Pcomp(_) => true,
        }
    }

    /// One tick of the unit under inputs under which it emits nothing.
    pub fn advance<L: Ledger>(&mut self, inputs: &Inputs, tick: u64, steps: &mut Steps<L>)
        requires quiet { is_quiet self.old inputs.now ≡ true }
        requires tick { tick < 2 ^ 62 }
        ensures next { self.new ≡ next self.old inputs.now tick }
        ensures counts { steps.new ≡ steps.old + 1 }
    {
        match self {
            Unit::Lut(block) => block.advance(inputs, tick, steps),
            Unit::Srgate(block) => block.advance(inputs, tick, steps),
            Unit::Div(block) => block.advance(inputs, tick, steps),
            Unit::Pulse(block) => block.advance(inputs, tick, steps),
            Unit::Counter(block) => block.advance(inputs, tick, steps),
            Unit::Clock(block) => block.advance(inputs, tick, steps),
            Unit::Seq(block) => block.advance(inputs, tick, steps),
            Unit::Pcomp(block) => block.advance(inputs, tick, steps),
            Unit::Pcap(block) => block.advance(inputs, tick, steps),
        }
    }

    /// The value of a read field, by its place in the block.
    pub fn read(&self, field: u8) -> u64
        requires { IsRead self.now field }
        ensures value { result ≡ value_read self.now field }
        ensures small { result < 2 ^ 32 }
    {
        match self {
            Unit::Div(block) => block.read(field),
            Unit::Pulse(block) => block.read(field),
            Unit::Seq(block) => block.read(field),
            Unit::Pcomp(block) => block.read(field),
            Unit::Lut(_) | Unit::Srgate(_) | Unit::Counter(_) | Unit::Clock(_) | Unit::Pcap(_) =>
                unreachable!(),
        }
    }

    /// The table of a sequencer.
    pub fn rows(&self) -> &Rows
        requires { place_of self.now ≡ seq.BLOCK }
        ensures { result.now ≡ words_of self.now }
    {
        match self {
            Unit::Seq(block) => block.rows(),
            Unit::Lut(_)
            | Unit::Srgate(_)
            | Unit::Div(_)
            | Unit::Pulse(_)
            | Unit::Counter(_)
            | Unit::Clock(_)
            | Unit::Pcomp(_)
            | Unit::Pcap(_) => unreachable!(),
        }
    }

    /// Writes the table of a sequencer, as `Rows::write` does. A refused write changes nothing.
    #[tactic(auto, using(crate::proofs::TableLemmas::sequencer_left))]
    pub fn write(&mut self, append: bool, base64: bool, body: &[u8]) -> Result<(), Refusal>
        requires { place_of self.old ≡ seq.BLOCK }
        ensures told { result ≡ answer_of (written (words_of self.old) append base64 body.now) }
        ensures left { self.new ≡ unit_left self.old (written (words_of self.old) append base64 body.now) }
    {
        match self {
            Unit::Seq(block) => block.write(append, base64, body),
            Unit::Lut(_)
            | Unit::Srgate(_)
            | Unit::Div(_)
            | Unit::Pulse(_)
            | Unit::Counter(_)
            | Unit::Clock(_)
            | Unit::Pcomp(_)
            | Unit::Pcap(_) => unreachable!(),
        }
    }

    /// How many bit outputs it has.
    #[tactic(auto, unfolding(crate::specs::Units::bit_outputs, pb_fields::specs::Catalogue::catalogue))]
    pub fn bit_outputs(&self) -> u8
        ensures count { result ≡ bit_outputs (place_of self.now) }
        ensures few { result ≤ 7 }
    {
        match self {
            Unit::Seq(_) => 7,
            Unit::Div(_) | Unit::Pcomp(_) => 2,
            _ => 1,
        }
    }

    /// How many position outputs it has: one or none.
    #[tactic(auto, unfolding(crate::specs::Units::position_outputs, pb_fields::specs::Catalogue::catalogue))]
    pub fn position_outputs(&self) -> u8
        ensures count { result ≡ position_outputs (place_of self.now) }
        ensures few { result ≤ 1 }
    {
        match self {
            Unit::Counter(_) => 1,
            _ => 0,
        }
    }
}

impl Machine for Unit {
    ghost use Rattle.pb_model.specs.Units.{rules, shown, IsSettable, with_field, counts_unseen};

    ghost rules = { rules };

    ghost shown = { shown };

    ghost settable = { IsSettable };

    ghost with_field = { with_field };

    fn step<L: Ledger>(&mut self, inputs: &Inputs, tick: u64, steps: &mut Steps<L>) -> Emit {
        match self {
            Unit::Lut(block) => block.step(inputs, tick, steps),
            Unit::Srgate(block) => block.step(inputs, tick, steps),
            Unit::Div(block) => block.step(inputs, tick, steps),
            Unit::Pulse(block) => block.step(inputs, tick, steps),
            Unit::Counter(block) => block.step(inputs, tick, steps),
            Unit::Clock(block) => block.step(inputs, tick, steps),
            Unit::Seq(block) => block.step(inputs, tick, steps),
            Unit::Pcomp(block) => block.step(inputs, tick, steps),
            Unit::Pcap(block) => block.step(inputs, tick, steps),
        }
    }

    fn horizon<L: Ledger>(&self, inputs: &Inputs, tick: u64, steps: &mut Steps<L>) -> Option<u128> {
        match self {
            Unit::Lut(block) => block.horizon(inputs, tick, steps),
            Unit::Srgate(block) => block.horizon(inputs, tick, steps),
            Unit::Div(block) => block.horizon(inputs, tick, steps),
            Unit::Pulse(block) => block.horizon(inputs, tick, steps),
            Unit::Counter(block) => block.horizon(inputs, tick, steps),
            Unit::Clock(block) => block.horizon(inputs, tick, steps),
            Unit::Seq(block) => block.horizon(inputs, tick, steps),
            Unit::Pcomp(block) => block.horizon(inputs, tick, steps),
            Unit::Pcap(block) => block.horizon(inputs, tick, steps),
        }
    }

    fn coast<L: Ledger>(&mut self, inputs: &Inputs, tick: u64, ticks: u64, steps: &mut Steps<L>) {
        match self {
            Unit::Lut(block) => block.coast(inputs, tick, ticks, steps),
            Unit::Srgate(block) => block.coast(inputs, tick, ticks, steps),
            Unit::Div(block) => block.coast(inputs, tick, ticks, steps),
            Unit::Pulse(block) => block.coast(inputs, tick, ticks, steps),
            Unit::Counter(block) => block.coast(inputs, tick, ticks, steps),
            Unit::Clock(block) => block.coast(inputs, tick, ticks, steps),
            Unit::Seq(block) => block.coast(inputs, tick, ticks, steps),
            Unit::Pcomp(block) => block.coast(inputs, tick, ticks, steps),
            Unit::Pcap(block) => block.coast(inputs, tick, ticks, steps),
        }
    }

    fn outputs(&self) -> Outputs {
        match self {
            Unit::Lut(block) => block.outputs(),
            Unit::Srgate(block) => block.outputs(),
            Unit::Div(block) => block.outputs(),
            Unit::Pulse(block) => block.outputs(),
            Unit::Counter(block) => block.outputs(),
            Unit::Clock(block) => block.outputs(),
            Unit::Seq(block) => block.outputs(),
            Unit::Pcomp(block) => block.outputs(),
            Unit::Pcap(block) => block.outputs(),
        }
    }

    fn set(&mut self, field: u8, raw: u64) {
        match self {
            Unit::Lut(block) => block.set(field, raw),
            Unit::Srgate(block) => block.set(field, raw),
            Unit::Div(block) => block.set(field, raw),
            Unit::Pulse(block) => block.set(field, raw),
            Unit::Counter(block) => block.set(field, raw),
            Unit::Clock(block) => block.set(field, raw),
            Unit::Seq(block) => block.set(field, raw),
            Unit::Pcomp(block) => block.set(field, raw),
            Unit::Pcap(block) => block.set(field, raw),
        }
    }

    ghost counts_unseen = { counts_unseen };
}
