ghost use Rattle.std.specs.Prelude.{◌≡◌, ℕ, ◌+◌, ◌-◌, ◌*◌, ◌^◌, ◌<◌, ◌≤◌, ◌⊎◌, ◌↔◌, true, false, map, min, IfOk, IsTrue, MatchOption};
ghost use Rattle.pb_names.specs.declared.lut.TheConstants as lut;
ghost use Rattle.pb_names.specs.declared.pcap.TheConstants as pcap;
ghost use Rattle.pb_buses.specs.Rules.{after, IsCalm, AreCalm, IsHorizon};
ghost use Rattle.pb_buses.specs.Buses.{selected};
ghost use Rattle.pb_buses.specs.Delay.{latest, seen};
ghost use Rattle.pb_model.specs.Units.{rules};
ghost use Rattle.pb_model.specs.Tick.{inputs_of, sees_all, seen_on, input_after, emitted_by, or_before};
ghost use Rattle.pb_model.specs.Parts.{IsNarrow};
ghost use Rattle.pb_still.specs.Eventful.{IsIdle};
ghost use Rattle.pb_still.specs.Coasting.{input_later};
ghost use Rattle.pb_lazy.specs.Lazy.{lately, opening_lazy, nothing, caught_up, saw, unit_at, settled, awake, capped, IsLoose, IsUnmoved, IsQuiet, IsSound, IsTurn, IsPushed, IsMet, IsKnown, IsStepped, HasEnd};

use crate::same::{are_as_seen, is_wired, nothing_stands_at_zero, select_the_seen, step_unit};
use pb_buses::{Buses, Emit, Inputs, Machine, Mux};
use pb_model::{Block, Unit};
use pb_names::pcap;
use pb_words::{OutOfMemory, Steps};
use std::alloc::Global;
use std::sync::ledger::Ledger;

/// A tick that no box reaches.
const NEVER: u64 = 1 << 62;

/// A block that stays where it is while nothing concerns it. Ticks are of 8 ns.
#[derive(Drop)]
pub struct Lazy {
    /// Its unit stands at tick `own`, its bit inputs at tick `at`.
    pub block: Block,
    /// At each tick from here on, up to the one before now, it saw `kept` and its step was calm.
    pub own: u64,
    /// What it saw at the tick before now.
    pub kept: Inputs,
    /// The first tick at which its step isn't calm if it goes on to see the same, or `NEVER`.
    pub due: u64,
    /// A command has changed it, and `due` isn't known.
    pub outdated: bool,
    /// At each tick from here on, up to the one before now, its bit inputs selected what they had selected last.
    pub at: u64,
    /// Up to the tick before this one it sees the same of its bit inputs if they go on to select the same.
    pub turn: u64,
    /// One of its inputs may select another entry than ZERO, or it is PCAP, which sees both buses.
    pub wired: bool,
}

impl Lazy {
    /// The block as the box opens.
    pub fn new(alloc: Global, kind: u8) -> Result<Lazy, OutOfMemory>
        requires from_lut { lut.BLOCK ≤ kind }
        requires to_pcap { kind ≤ pcap.BLOCK }
        ensures { IfOk result (λ lazy. lazy ≡ opening_lazy kind) }
    {
        let block = Block::new(alloc, kind)?;
        Ok(Lazy {
            block,
            own: 0,
            kept: nothing_seen(),
            due: 0,
            outdated: false,
            at: 0,
            turn: 0,
            wired: true,
        })
    }

    /// Whether it is plain that nothing concerns the block at this tick, which isn't the first: its deadline isn't due, its
    /// inputs select what they selected last, and what it sees doesn't change.
    pub fn is_quiet(&self, buses: &Buses, tick: u64) -> bool
        requires { IsSound tick false self.now }
        ensures { result ≡ true → IsQuiet buses.now.bus tick self.now }
    {
        !self.outdated && tick < self.due && tick < self.turn && self.is_unmoved(buses)
    }

    /// Whether its inputs select what they selected last, and the rest of what it sees is as it was.
    fn is_unmoved(&self, buses: &Buses) -> bool
        requires narrow { sees_all self.now.block ≡ false → IsNarrow self.now.kept }
        requires loose { self.now.wired ≡ false → IsLoose self.now.block self.now.kept }
        ensures { result ≡ true → IsUnmoved buses.now.bus self.now }
    {
        if self.wired {
            return select_the_same(&self.block.bits, buses) && self.sees_same_others(buses);
        }
        nothing_stands_at_zero(buses);
        true
    }

    /// Whether it sees what it saw, apart from its bit inputs. No block but PCAP sees the buses themselves.
    fn sees_same_others(&self, buses: &Buses) -> bool
        requires { sees_all self.now.block ≡ false → IsNarrow self.now.kept }
        ensures { result ≡ true → record (inputs_of buses.now.bus self.now.block) { bits = self.now.kept.bits } ≡ self.now.kept }
    {
        if !select_the_seen(&self.block.positions, &self.kept.positions, buses) {
            return false;
        }
        if !self.is_capture() {
            return true;
        }
        are_as_seen(&self.kept, buses)
    }

    /// PCAP alone sees the whole of both buses.
    fn is_capture(&self) -> bool
        ensures { result ≡ sees_all self.now.block }
    {
        self.block.unit.place() == pcap::BLOCK
    }

    /// What the block sees at this tick.
    pub fn look(&self, buses: &Buses, tick: u64) -> Inputs
        requires { self.now.at ≤ tick }
        ensures { result ≡ inputs_of buses.now.bus (caught_up tick self.now) }
    {
        let mut seen = self.block.inputs(buses);
        seen.bits = seen_late(&self.block.bits, tick - self.at, buses);
        seen
    }

    /// Whether the block is busy at this tick, which isn't the first.
    pub fn is_busy(&self, buses: &Buses, tick: u64) -> bool
        requires sound { IsSound tick false self.now }
        requires known { self.now.outdated ≡ false }
        requires tick { tick < 2 ^ 62 }
        ensures busy { result ≡ true → ¬ (IsIdle buses.now.bus tick (saw false self.now) (caught_up tick self.now)) }
        ensures idle { result ≡ false → IsIdle buses.now.bus tick (saw false self.now) (caught_up tick self.now) }
    {
        if self.is_plain(buses, tick, false) {
            return false;
        }
        let inputs = self.look(buses, tick);
        !self.goes_on(&inputs, tick, false)
    }

    /// One tick. A block that is idle makes no step. What it emits is put in `emit`, which stays as it is where that is nothing.
    pub fn meet<L: Ledger>(
        &mut self,
        buses: &Buses,
        tick: u64,
        first: bool,
        steps: &mut Steps<L>,
        emit: &mut Emit,
    )
        requires sound { IsSound tick first self.old }
        requires known { self.old.outdated ≡ false }
        requires tick { tick < 2 ^ 62 - 1 }
        ensures met { IsMet buses.now.bus tick self.old self.new }
        ensures emits { emit.new ≡ or_before emit.old (emitted_by buses.now.bus tick (caught_up tick self.old)) }
        ensures counts { (IsIdle buses.now.bus tick (saw first self.old) (caught_up tick self.old) × (steps.new ≡ steps.old))
            ⊎ (¬ (IsIdle buses.now.bus tick (saw first self.old) (caught_up tick self.old)) × (steps.new ≤ steps.old + 3)) }
    {
        if self.is_plain(buses, tick, first) {
            return;
        }
        let inputs = self.look(buses, tick);
        self.push(buses, tick);
        if self.goes_on(&inputs, tick, first) {
            return;
        }
        self.step(&inputs, tick, steps, emit);
    }

    /// Whether it is plain that the block is idle. PCAP has to look at both buses, so of it nothing is plain.
    fn is_plain(&self, buses: &Buses, tick: u64, first: bool) -> bool
        requires { IsSound tick first self.now }
        ensures { result ≡ true → (first ≡ false) × IsQuiet buses.now.bus tick self.now }
    {
        if first {
            return false;
        }
        if self.is_capture() {
            return false;
        }
        self.is_quiet(buses, tick)
    }

    /// Whether a block that sees this at the tick is idle.
    fn goes_on(&self, inputs: &Inputs, tick: u64, first: bool) -> bool
        ensures { IsTrue result ↔ ((first ≡ false) × (tick < self.now.due) × (inputs.now ≡ self.now.kept)) }
    {
        !first && tick < self.due && inputs.same(&self.kept)
    }

    /// The delay lines of the bit inputs take what is selected at this tick.
    fn push(&mut self, buses: &Buses, tick: u64)
        requires at { self.old.at ≤ tick }
        requires small { tick < 2 ^ 62 }
        ensures { IsPushed buses.now.bus tick self.old self.new }
    {
        nothing_stands_at_zero(buses);
        let wired = is_wired(&self.block);
        self.settle(tick);
        self.turn = next_turn(&self.block, buses, tick);
        self.block.push(buses);
        self.at = tick + 1;
        self.wired = wired;
    }

    /// Brings the bit inputs to this tick.
    pub fn settle(&mut self, tick: u64)
        requires { self.old.at ≤ tick }
        ensures { self.new ≡ settled tick self.old }
    {
        let ticks = tick - self.at;
        settle_all(&mut self.block.bits, ticks);
        self.at = tick;
    }

    /// A step under these inputs, and the next deadline.
    fn step<L: Ledger>(&mut self, inputs: &Inputs, tick: u64, steps: &mut Steps<L>, emit: &mut Emit)
        requires own { self.old.own ≤ tick }
        requires calm { AreCalm rules self.old.kept self.old.own (tick - self.old.own) self.old.block.unit }
        requires tick { tick < 2 ^ 62 - 1 }
        ensures stepped { IsStepped inputs.now tick self.old self.new }
        ensures emits { emit.new ≡ or_before emit.old (rules.emitted (unit_at tick self.old) inputs.now tick) }
        ensures counts { steps.new ≤ steps.old + 3 }
    {
        self.catch_up(tick, steps);
        step_unit(&mut self.block.unit, inputs, tick, steps, emit);
        self.own = tick + 1;
        self.kept = *inputs;
        self.look_ahead(steps);
    }

    /// Brings the unit to this tick.
    pub fn catch_up<L: Ledger>(&mut self, tick: u64, steps: &mut Steps<L>)
        requires own { self.old.own ≤ tick }
        requires calm { AreCalm rules self.old.kept self.old.own (tick - self.old.own) self.old.block.unit }
        requires tick { tick < 2 ^ 62 }
        ensures left { self.new ≡ awake tick self.old }
        ensures one { steps.new ≤ steps.old + 1 }
        ensures none { self.old.own ≡ tick → steps.new ≡ steps.old }
    {
        if tick <= self.own {
            return;
        }
        self.block
            .unit
            .coast(&self.kept, self.own, tick - self.own, steps);
        self.own = tick;
    }

    /// Finds the deadline.
    pub fn look_ahead<L: Ledger>(&mut self, steps: &mut Steps<L>)
        requires { self.old.own < 2 ^ 62 }
        ensures known { IsKnown self.old self.new }
        ensures counts { steps.new ≡ steps.old + 1 }
    {
        self.due = next_due(&self.block.unit, &self.kept, self.own, steps);
        self.outdated = false;
    }
}

/// The first tick at which a step of the unit isn't calm, if from this tick on it sees this, or `NEVER`.
fn next_due<L: Ledger>(unit: &Unit, inputs: &Inputs, tick: u64, steps: &mut Steps<L>) -> u64
    requires { tick < 2 ^ 62 }
    ensures due { HasEnd unit.now inputs.now tick result }
    ensures counts { steps.new ≡ steps.old + 1 }
{
    match unit.horizon(inputs, tick, steps) {
        None => NEVER,
        Some(ticks) => deadline(tick, ticks),
    }
}

/// The tick so many ticks later, and not beyond `NEVER`.
fn deadline(tick: u64, ticks: u128) -> u64
    requires { tick < 2 ^ 62 }
    ensures { result ≡ capped (tick + ticks) }
{
    let due = u128::from(tick) + ticks.min(u128::from(NEVER));
    due.min(u128::from(NEVER)) as u64
}

/// Room for what a block sees.
fn nothing_seen() -> Inputs
    ensures { result ≡ nothing }
{
    Inputs {
        bits: [false; 5],
        positions: [0; 3],
        words: [0; 4],
        bus: [0; 32],
    }
}

/// Whether the inputs select what they selected last.
fn select_the_same(inputs: &[Mux; 5], buses: &Buses) -> bool
    ensures { result ≡ true → map (λ input. selected buses.now.bus input.select) inputs.now ≡ map latest inputs.now }
{
    for mux in inputs {
        if buses.selected(mux.select()) != mux.latest() {
            return false;
        }
    }
    true
}

/// What is seen of the inputs so many ticks after their own, at which they selected what they had selected last.
fn seen_late(inputs: &[Mux; 5], ticks: u64, buses: &Buses) -> [bool; 5]
    ensures { result ≡ map (seen_on buses.now.bus) (map (lately ticks) inputs.now) }
{
    let mut bits = [false; 5];
    for i in 0..5 {
        bits[i] = seen_then(&inputs[i], ticks, buses);
    }
    bits
}

fn seen_then(mux: &Mux, ticks: u64, buses: &Buses) -> bool
    ensures { result ≡ seen_on buses.now.bus (lately ticks mux.now) }
{
    let mut late = Mux {
        select: mux.select,
        delay: mux.delay,
        line: mux.line,
    };
    late.shift(mux.latest(), ticks);
    late.seen(buses.selected(mux.select()))
}

/// The inputs so many ticks later, at which they select what they selected last.
fn settle_all(inputs: &mut [Mux; 5], ticks: u64)
    ensures { inputs.new ≡ map (lately ticks) inputs.old }
{
    for mux in inputs.iter_mut() {
        let latest = mux.latest();
        mux.shift(latest, ticks);
    }
}

/// The first tick behind this one at which the block sees something else, if the bus doesn't change.
fn next_turn(block: &Block, buses: &Buses, tick: u64) -> u64
    requires { tick < 2 ^ 62 }
    ensures { IsTurn buses.now.bus tick block.now result }
{
    turn_of(&block.bits, buses, tick)
}

/// The same of its bit inputs.
fn turn_of(inputs: &[Mux; 5], buses: &Buses, tick: u64) -> u64
    requires { tick < 2 ^ 62 }
    ensures ahead { tick < result }
    ensures steady { (k : ℕ) → tick + k < result →
        map (seen_on buses.now.bus) (map (input_later buses.now.bus k) inputs.now) ≡ map (seen_on buses.now.bus) inputs.now }
{
    let mut turn = NEVER;
    for mux in inputs {
        turn = sooner(turn, mux, buses, tick);
    }
    turn
}

/// This tick, or the first one behind `tick` at which something else is seen of the input.
fn sooner(turn: u64, mux: &Mux, buses: &Buses, tick: u64) -> u64
    requires small { tick < 2 ^ 62 }
    requires ahead { tick < turn }
    ensures ahead { tick < result }
    ensures within { result ≤ turn }
    ensures steady { (k : ℕ) → tick + k < result → seen_on buses.now.bus (input_later buses.now.bus k mux.now) ≡ seen_on buses.now.bus mux.now }
{
    let selected = buses.selected(mux.select());
    match mux.next_change(selected) {
        None => turn,
        Some(ticks) => turn.min(tick + u64::from(ticks)),
    }
}
