ghost use Rattle.std.specs.Prelude.{◌≡◌, ℕ, true, false};
ghost use Rattle.pb_names.specs.declared.pcap.TheConstants as pcap;
ghost use Rattle.pb_buses.specs.Rules.{is_record};
ghost use Rattle.pb_model.specs.Units.{place_of, emitted, is_idle, armed, disarmed};
ghost use Rattle.pb_model.specs.Tick.{emitted_of, emitted_by, kind_of};
ghost use Rattle.pb_model.specs.Kept.{stands_of};
ghost use Rattle.pb_model.specs.Arming.{is_capture_idle, with_unit, blocks_armed, blocks_disarmed, kept_with_blocks};

use crate::blocks::Block;
use crate::boxes::BoxState;
use crate::places::machine;
use crate::units::Unit;
use pb_buses::{Buses, Inputs};
use pb_names::pcap;

impl BoxState {
    /// Whether the next tick emits a record. No block makes a step for it.
    pub fn emits(&self) -> bool
        ensures { result ≡ is_record (emitted_of (stands_of self.now)) }
    {
        let place = machine(pcap::BLOCK, pcap::INSTANCES);
        let block = &self.blocks[place as usize];
        block.emits(&self.buses)
    }

    /// PCAP is armed, with room for so many records.
    pub(crate) fn arm(&mut self, room: u64)
        requires { is_capture_idle self.old.blocks ≡ true }
        ensures left { self.new ≡ kept_with_blocks self.old (blocks_armed room self.old.blocks) }
        ensures idle { is_capture_idle self.new.blocks ≡ false }
    {
        let place = machine(pcap::BLOCK, pcap::INSTANCES);
        let block = &mut self.blocks[place as usize];
        block.arm(room);
    }

    /// PCAP becomes idle.
    pub(crate) fn disarm(&mut self)
        requires { is_capture_idle self.old.blocks ≡ false }
        ensures left { self.new ≡ kept_with_blocks self.old (blocks_disarmed self.old.blocks) }
        ensures idle { is_capture_idle self.new.blocks ≡ true }
    {
        let place = machine(pcap::BLOCK, pcap::INSTANCES);
        let block = &mut self.blocks[place as usize];
        block.disarm();
    }
}

impl Block {
    /// Whether a step under these buses emits a record. An idle one emits none, whatever it sees.
    #[tactic(auto, using(crate::proofs::ArmLemmas::unit_quiet))]
    pub fn emits(&self, buses: &Buses) -> bool
        ensures { (tick : ℕ) → result ≡ is_record (emitted_by buses.now.bus tick self.now) }
    {
        if self.unit.is_idle() {
            return false;
        }
        let inputs = self.inputs(buses);
        self.unit.emits(&inputs)
    }

    /// Arms PCAP, with room for so many records.
    pub fn arm(&mut self, room: u64)
        requires kind { kind_of self.old ≡ pcap.BLOCK }
        requires idle { is_idle self.old.unit ≡ true }
        ensures { self.new ≡ with_unit (armed room) self.old }
    {
        self.unit.arm(room);
    }

    /// Makes PCAP idle.
    pub fn disarm(&mut self)
        requires kind { kind_of self.old ≡ pcap.BLOCK }
        requires busy { is_idle self.old.unit ≡ false }
        ensures { self.new ≡ with_unit disarmed self.old }
    {
        self.unit.disarm();
    }
}

impl Unit {
    /// Whether it is no PCAP, or one that is neither armed nor running.
    pub fn is_idle(&self) -> bool
        ensures { result ≡ is_idle self.now }
    {
        match self {
            Unit::Pcap(block) => block.is_idle(),
            Unit::Lut(_)
            | Unit::Srgate(_)
            | Unit::Div(_)
            | Unit::Pulse(_)
            | Unit::Counter(_)
            | Unit::Clock(_)
            | Unit::Seq(_)
            | Unit::Pcomp(_) => true,
        }
    }

    /// Whether a step under these inputs emits a record. It is no step.
    pub fn emits(&self, inputs: &Inputs) -> bool
        ensures { (tick : ℕ) → result ≡ is_record (emitted self.now inputs.now tick) }
    {
        match self {
            Unit::Pcap(block) => block.emits(inputs),
            Unit::Lut(_)
            | Unit::Srgate(_)
            | Unit::Div(_)
            | Unit::Pulse(_)
            | Unit::Counter(_)
            | Unit::Clock(_)
            | Unit::Seq(_)
            | Unit::Pcomp(_) => false,
        }
    }

    /// Arms PCAP, with room for so many records.
    pub fn arm(&mut self, room: u64)
        requires kind { place_of self.old ≡ pcap.BLOCK }
        requires idle { is_idle self.old ≡ true }
        ensures { self.new ≡ armed room self.old }
    {
        match self {
            Unit::Pcap(block) => block.arm(room),
            Unit::Lut(_)
            | Unit::Srgate(_)
            | Unit::Div(_)
            | Unit::Pulse(_)
            | Unit::Counter(_)
            | Unit::Clock(_)
            | Unit::Seq(_)
            | Unit::Pcomp(_) => unreachable!(),
        }
    }

    /// Makes PCAP idle.
    pub fn disarm(&mut self)
        requires kind { place_of self.old ≡ pcap.BLOCK }
        requires busy { is_idle self.old ≡ false }
        ensures { self.new ≡ disarmed self.old }
    {
        match self {
            Unit::Pcap(block) => block.disarm(),
            Unit::Lut(_)
            | Unit::Srgate(_)
            | Unit::Div(_)
            | Unit::Pulse(_)
            | Unit::Counter(_)
            | Unit::Clock(_)
            | Unit::Seq(_)
            | Unit::Pcomp(_) => unreachable!(),
        }
    }
}
