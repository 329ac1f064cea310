ghost use Rattle.std.specs.Prelude.{◌≡◌, ◌+◌, ◌^◌, ◌<◌, ◌≤◌, true, false, map, IfSome};
ghost use Rattle.pb_buses.specs.Buses.{position};
ghost use Rattle.pb_model.specs.Tick.{inputs_of, seen_on, input_after, block_after, emitted_by, or_before, sees_all};
ghost use Rattle.pb_model.specs.Units.{next, emitted};
ghost use Rattle.pb_model.specs.Parts.{IsNarrow, IsNextSight, earlier};

use crate::units::Unit;
use pb_buses::{Buses, Emit, Inputs, Machine, Mux};
use pb_names::pcap;
use pb_words::Steps;
use std::sync::ledger::Ledger;

/// A unit with what its inputs select.
#[derive(Drop)]
pub struct Block {
    pub unit: Unit,
    /// The bit inputs, in the order of the block's bit_mux fields in the catalogue. Those beyond its own
    /// select ZERO.
    pub bits: [Mux; 5],
    /// What the position inputs select, in the order of the block's pos_mux fields in the catalogue: 0 to 31
    /// are the entries of the position bus, 32 is ZERO. Those beyond its own select ZERO.
    pub positions: [u8; 3],
}

impl Block {
    /// What the block sees at the tick of these buses.
    pub fn inputs(&self, buses: &Buses) -> Inputs
        ensures { result ≡ inputs_of buses.now.bus self.now }
    {
        let bits = seen(&self.bits, buses);
        let positions = self.selected_positions(buses);
        if self.sees_all() {
            Inputs {
                bits,
                positions,
                words: buses.words(),
                bus: buses.bus().positions,
            }
        } else {
            Inputs {
                bits,
                positions,
                words: [0; 4],
                bus: [0; 32],
            }
        }
    }

    /// After how many ticks the block sees something else of its bit inputs for the first time, where the buses
    /// stand as they do and its delay lines go on: 1 to 31. None where it goes on to see the same.
    pub fn next_change(&self, buses: &Buses) -> Option<u32>
        ensures next { IsNextSight buses.now.bus self.now.bits result }
        ensures few { IfSome result (λ n. n ≤ 31) }
    {
        next_sight(&self.bits, buses)
    }

    /// One tick: the block sees the buses, its delay lines take what its inputs select, and its unit steps.
    /// The tick is that of the buses.
    pub fn step<L: Ledger>(&mut self, buses: &Buses, tick: u64, steps: &mut Steps<L>) -> Emit
        requires { tick < 2 ^ 62 }
        ensures next { self.new ≡ block_after buses.now.bus tick self.old }
        ensures emits { result ≡ emitted_by buses.now.bus tick self.old }
        ensures counts { steps.new ≡ steps.old + 1 }
    {
        let mut emit = Emit::Nothing;
        if self.sees_all() {
            self.step_capture(buses, tick, steps, &mut emit);
        } else {
            self.advance(buses, &mut nothing_seen(), tick, steps);
        }
        emit
    }

    /// One tick of PCAP. What it emits is put in `emit`, which stays as it is where that is nothing. The words
    /// of the bit bus, which no more than a record has, are packed only where something is emitted.
    pub(crate) fn step_capture<L: Ledger>(
        &mut self,
        buses: &Buses,
        tick: u64,
        steps: &mut Steps<L>,
        emit: &mut Emit,
    )
        requires kind { sees_all self.old ≡ true }
        requires tick { tick < 2 ^ 62 }
        ensures next { self.new ≡ block_after buses.now.bus tick self.old }
        ensures emits { emit.new ≡ or_before emit.old (emitted_by buses.now.bus tick self.old) }
        ensures counts { steps.new ≡ steps.old + 1 }
    {
        let mut inputs = Inputs {
            bits: take(&mut self.bits, buses),
            positions: self.selected_positions(buses),
            words: [0; 4],
            bus: buses.bus().positions,
        };
        if self.unit.is_quiet(&inputs) {
            self.unit.advance(&inputs, tick, steps);
            return;
        }
        inputs.words = buses.words();
        step_into(&mut self.unit, &inputs, tick, steps, emit);
    }

    /// One tick of a block of any kind but PCAP, which emits nothing. What it sees is put in `inputs`.
    #[tactic(auto, using(crate::proofs::ArmLemmas::others_are_quiet))]
    pub(crate) fn advance<L: Ledger>(
        &mut self,
        buses: &Buses,
        inputs: &mut Inputs,
        tick: u64,
        steps: &mut Steps<L>,
    )
        requires kind { sees_all self.old ≡ false }
        requires narrow { IsNarrow inputs.old }
        requires tick { tick < 2 ^ 62 }
        ensures next { self.new ≡ block_after buses.now.bus tick self.old }
        ensures narrow { IsNarrow inputs.new }
        ensures counts { steps.new ≡ steps.old + 1 }
    {
        inputs.bits = take(&mut self.bits, buses);
        inputs.positions = self.selected_positions(buses);
        self.unit.advance(inputs, tick, steps);
    }

    /// The delay line of each bit input takes what the input selects.
    pub fn push(&mut self, buses: &Buses)
        ensures unit { self.new.unit ≡ self.old.unit }
        ensures bits { self.new.bits ≡ map (input_after buses.now.bus) self.old.bits }
        ensures positions { self.new.positions ≡ self.old.positions }
    {
        for mux in self.bits.iter_mut() {
            mux.shift(buses.selected(mux.select()), 1);
        }
    }

    /// PCAP alone sees the whole of both buses.
    pub(crate) fn sees_all(&self) -> bool
        ensures { result ≡ sees_all self.now }
    {
        self.unit.place() == pcap::BLOCK
    }

    /// What its position inputs select.
    fn selected_positions(&self, buses: &Buses) -> [i32; 3]
        ensures { result ≡ map (position buses.now.bus) self.now.positions }
    {
        let mut positions = [0; 3];
        for i in 0..3 {
            positions[i] = buses.selected_position(self.positions[i]);
        }
        positions
    }
}

/// One tick of a unit. What it emits is put in `emit`, which stays as it is where that is nothing.
#[inline(never)]
fn step_into<L: Ledger>(
    unit: &mut Unit,
    inputs: &Inputs,
    tick: u64,
    steps: &mut Steps<L>,
    emit: &mut Emit,
)
    requires { tick < 2 ^ 62 }
    ensures next { unit.new ≡ next unit.old inputs.now tick }
    ensures emits { emit.new ≡ or_before emit.old (emitted unit.old inputs.now tick) }
    ensures counts { steps.new ≡ steps.old + 1 }
{
    match unit.step(inputs, tick, steps) {
        Emit::Nothing => {}
        emitted => *emit = emitted,
    }
}

/// What a block sees of its bit inputs.
fn seen(inputs: &[Mux; 5], buses: &Buses) -> [bool; 5]
    ensures { result ≡ map (seen_on buses.now.bus) inputs.now }
{
    let mut bits = [false; 5];
    for i in 0..5 {
        let mux = &inputs[i];
        bits[i] = mux.seen(buses.selected(mux.select()));
    }
    bits
}

/// After how many ticks something else is seen of one of the inputs.
fn next_sight(inputs: &[Mux; 5], buses: &Buses) -> Option<u32>
    ensures next { IsNextSight buses.now.bus inputs.now result }
    ensures few { IfSome result (λ n. n ≤ 31) }
{
    let mut first = None;
    for i in 0..5 {
        let mux = &inputs[i];
        let change = mux.next_change(buses.selected(mux.select()));
        first = earlier(first, change);
    }
    first
}

/// The earlier of two numbers of ticks, of which none is later than all.
fn earlier(one: Option<u32>, other: Option<u32>) -> Option<u32>
    ensures { result ≡ earlier one other }
{
    match one {
        None => other,
        Some(m) => match other {
            None => Some(m),
            Some(n) => Some(m.min(n)),
        },
    }
}

/// What a block sees of its bit inputs, whose delay lines take what they select.
fn take(inputs: &mut [Mux; 5], buses: &Buses) -> [bool; 5]
    ensures sees { result ≡ map (seen_on buses.now.bus) inputs.old }
    ensures left { inputs.new ≡ map (input_after buses.now.bus) inputs.old }
{
    let mut bits = [false; 5];
    for (i, mux) in inputs.iter_mut().enumerate() {
        bits[i] = mux.take(buses.selected(mux.select()));
    }
    bits
}

/// Room for what a block of any kind but PCAP sees.
pub(crate) fn nothing_seen() -> Inputs
    ensures { IsNarrow result }
{
    Inputs {
        bits: [false; 5],
        positions: [0; 3],
        words: [0; 4],
        bus: [0; 32],
    }
}
