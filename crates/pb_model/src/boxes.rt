ghost use Rattle.std.specs.Prelude.{◌≡◌, true, ◌++◌, ◌≤◌, IfOk, replicate};
ghost use Rattle.pb_names.specs.declared.lut.TheConstants as lut;
ghost use Rattle.pb_names.specs.declared.pcap.TheConstants as pcap;
ghost use Rattle.pb_model.specs.Tick.{opening_block, opening_selections, opening_box};
ghost use Rattle.std.specs.Borrow.{sem};
ghost use Rattle.pb_buses.specs.Delay.{wired, opening_input};
ghost use Rattle.pb_model.specs.Kept.{opening, Agrees};
ghost use Rattle.pb_model.specs.Arming.{is_capture_idle};
ghost use Rattle.pb_model.specs.Lending.{LendsBuses};

use crate::blocks::Block;
use crate::units::Unit;
use pb_buses::{Buses, Mux};
use pb_fields::instances;
use pb_names::{bit_bus, clock, counter, div, lut, pcap, pcomp, position_bus, pulse, seq, srgate};
use pb_words::OutOfMemory;
use std::alloc::Global;
use std::marker::Model;

/// The box at a tick. A clause sees what stands in it, and for each entry of the buses the tick at which it
/// changed last.
#[derive(Drop)]
pub struct BoxState {
    pub(crate) tick: u64,
    pub(crate) buses: Buses,
    /// The settings A to D of BITS.
    pub(crate) settings: [bool; 4],
    /// The blocks that have a machine, in the order of the catalogue.
    pub(crate) blocks: Vec<Block>,
}

impl Model for BoxState {
    ghost use Rattle.pb_model.specs.Kept.{Kept, IsWhole};

    ghost Value = { Kept };

    ghost view = { λ b. record { tick = b.tick; buses = b.buses; settings = b.settings; blocks = b.blocks.items } };

    ghost invariant = { λ b. IsWhole b.blocks.items b.settings };
}

impl BoxState {
    /// The box as it opens at tick 0. No later call takes memory.
    pub fn new(alloc: Global) -> Result<BoxState, OutOfMemory>
        ensures kept { IfOk result (λ b. b ≡ opening) }
        ensures agrees { IfOk result (λ b. Agrees b opening_box) }
        ensures idle { IfOk result (λ b. is_capture_idle b.blocks ≡ true) }
    {
        let mut blocks = Vec::new(alloc);
        for kind in lut::BLOCK..pcap::BLOCK + 1 {
            add(alloc, &mut blocks, kind, instances(kind))?;
        }
        Ok(BoxState {
            tick: 0,
            buses: Buses::new(),
            settings: [false; 4],
            blocks,
        })
    }

    /// The tick at which the box stands, in ticks of 8 ns.
    pub fn now(&self) -> u64
        ensures { result ≡ self.now.tick }
    {
        self.tick
    }

    /// The buses at this tick.
    pub fn buses(&self) -> &Buses
        ensures { result.now ≡ self.now.buses }
    {
        &self.buses
    }

    /// The buses at this tick, for the stimulus to put its values on.
    pub fn buses_mut(&mut self) -> &mut Buses
        ensures* lends { sem 𝓛 (LendsBuses self.entry result) }
        ensures value { result.now ≡ self.old.buses }
    {
        &mut self.buses
    }
}

/// So many more blocks of a kind, as they are when the box opens.
fn add(alloc: Global, blocks: &mut Vec<Block>, kind: u8, count: u8) -> Result<(), OutOfMemory>
    requires from_lut { lut.BLOCK ≤ kind }
    requires to_pcap { kind ≤ pcap.BLOCK }
    ensures { IfOk result (λ _. blocks.new.items ≡ blocks.old.items ++ replicate count (opening_block kind)) }
{
    for _ in 0..count {
        blocks.push(Block::new(alloc, kind)?)?;
    }
    Ok(())
}

impl Block {
    /// A block as the box opens, by the place of its kind in the catalogue, 3 to 11. It takes all the memory that
    /// it needs.
    #[tactic(auto, unfolding(crate::specs::Tick::opening_block))]
    pub fn new(alloc: Global, kind: u8) -> Result<Block, OutOfMemory>
        requires from_lut { lut.BLOCK ≤ kind }
        requires to_pcap { kind ≤ pcap.BLOCK }
        ensures { IfOk result (λ block. block ≡ opening_block kind) }
    {
        let unit = Unit::new(alloc, kind)?;
        let [a, b, c, d, e] = selections(kind);
        Ok(Block {
            unit,
            bits: [input(a), input(b), input(c), input(d), input(e)],
            positions: [position_bus::ZERO; 3],
        })
    }
}

/// What the bit inputs of a kind select as the box opens: the place of a kind is 3 to 11.
#[tactic(auto, unfolding(crate::specs::Tick::opening_selections, pb_fields::specs::Catalogue::catalogue))]
fn selections(kind: u8) -> [u8; 5]
    requires from_lut { lut.BLOCK ≤ kind }
    requires to_pcap { kind ≤ pcap.BLOCK }
    ensures { result ≡ opening_selections kind }
{
    const ZERO: u8 = bit_bus::ZERO;
    const ONE: u8 = bit_bus::ONE;
    match kind {
        srgate::BLOCK | div::BLOCK | pulse::BLOCK | counter::BLOCK => [ONE, ZERO, ZERO, ZERO, ZERO],
        pcap::BLOCK => [ZERO, ONE, ZERO, ZERO, ZERO],
        lut::BLOCK | clock::BLOCK | seq::BLOCK | pcomp::BLOCK => [ZERO; 5],
        _ => unreachable!(),
    }
}

/// A bit input that selects this.
fn input(select: u8) -> Mux
    ensures { result ≡ wired opening_input select }
{
    let mut mux = Mux::new();
    mux.wire(select);
    mux
}
