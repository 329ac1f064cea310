ghost use Rattle.std.specs.Prelude.{◌≡◌, ◌+◌, ◌<◌, ℕ, true, false};
ghost use Rattle.pb_buses.specs.declared.Emit.TheVariants as emits;
ghost use Rattle.pb_buses.specs.Rules.{is_record};

use crate::registers::{PcapMode, PcapRegisters, Turn};
use crate::settings::PcapSettings;
use pb_buses::{Edge, Emit, Inputs, Machine, Outputs};
use pb_names::pcap;
use pb_words::Steps;
use std::marker::Model;
use std::sync::ledger::Ledger;

/// A PCAP: samples positions while GATE is 1, and hands out a record at each trigger.
#[derive(Drop)]
pub struct Pcap {
    settings: PcapSettings,
    registers: PcapRegisters,
}

impl Model for Pcap {
    ghost use Rattle.pb_pcap.specs.Pcap.{Capture};

    ghost Value = { Capture };

    ghost view = { λ b. record { settings = b.settings; registers = b.registers } };
}

impl Pcap {
    ghost use Rattle.pb_pcap.specs.Pcap as definition;

    /// A PCAP as the box opens.
    pub fn new() -> Pcap
        ensures { result ≡ definition.opening }
    {
        Pcap {
            settings: PcapSettings {
                trig_edge: Edge::Rising,
            },
            registers: PcapRegisters {
                mode: PcapMode::Idle,
                active: false,
                room: 0,
                ts: 0,
                samples: None,
                trig_before: false,
            },
        }
    }

    /// Whether it is neither armed nor running.
    pub fn is_idle(&self) -> bool
        ensures { result ≡ definition.is_idle self.now }
    {
        self.registers.mode.is_idle()
    }

    /// Arms it, with room for so many records.
    pub fn arm(&mut self, room: u64)
        requires { definition.is_idle self.old ≡ true }
        ensures { self.new ≡ definition.armed self.old room }
    {
        self.registers.mode = PcapMode::Armed;
        self.registers.room = room;
    }

    /// Makes it idle.
    pub fn disarm(&mut self)
        requires { definition.is_idle self.old ≡ false }
        ensures { self.new ≡ definition.disarmed self.old }
    {
        self.registers.mode = PcapMode::Idle;
    }

    /// Whether a step under these inputs emits a record. It is no step.
    pub fn emits(&self, inputs: &Inputs) -> bool
        ensures value { result ≡ definition.emits_record self.now inputs.now }
        ensures step { (tick : ℕ) → result ≡ is_record (definition.rules.emitted self.now inputs.now tick) }
    {
        self.registers.mode.is_running()
            && inputs.bits[pcap::ENABLE as usize]
            && self.registers.is_triggered(&self.settings, inputs)
            && self.registers.room != 0
    }

    /// Whether a step under these inputs emits nothing. It is no step.
    #[tactic(auto, using(crate::proofs::QuietLemmas::quiet_emits))]
    pub fn is_quiet(&self, inputs: &Inputs) -> bool
        ensures value { result ≡ definition.is_quiet self.now inputs.now }
        ensures step { (tick : ℕ) → result ≡ true → definition.rules.emitted self.now inputs.now tick ≡ emits.Nothing }
    {
        !self.registers.mode.is_running()
            || (inputs.bits[pcap::ENABLE as usize]
                && !self.registers.is_triggered(&self.settings, inputs))
    }

    /// One tick of the block under inputs under which it emits nothing.
    pub fn advance<L: Ledger>(&mut self, inputs: &Inputs, tick: u64, steps: &mut Steps<L>)
        requires { definition.is_quiet self.old inputs.now ≡ true }
        ensures next { self.new ≡ definition.rules.next self.old inputs.now tick }
        ensures counts { steps.new ≡ steps.old + 1 }
    {
        steps.tick();
        self.registers.pass(&self.settings, inputs);
        self.registers.trig_before = inputs.bits[pcap::TRIG as usize];
    }
}

impl Machine for Pcap {
    ghost use Rattle.pb_pcap.specs.Pcap as definition;

    ghost rules = { definition.rules };

    ghost shown = { definition.shown };

    ghost settable = { definition.IsSettable };

    ghost with_field = { definition.with_field };

    fn step<L: Ledger>(&mut self, inputs: &Inputs, tick: u64, steps: &mut Steps<L>) -> Emit {
        steps.tick();
        let turn = self.registers.capture(&self.settings, inputs);
        self.registers.trig_before = inputs.bits[pcap::TRIG as usize];
        match turn {
            Turn::Quiet => Emit::Nothing,
            Turn::Over(condition) => Emit::Completed(condition),
            Turn::Due => self.registers.hand_out(inputs),
        }
    }

    fn horizon<L: Ledger>(&self, inputs: &Inputs, tick: u64, steps: &mut Steps<L>) -> Option<u128> {
        steps.tick();
        if self.registers.is_steady(inputs) {
            None
        } else {
            Some(0)
        }
    }

    fn coast<L: Ledger>(&mut self, inputs: &Inputs, tick: u64, ticks: u64, steps: &mut Steps<L>) {
        steps.tick();
        if ticks == 0 {
            return;
        }
        self.registers.coast(inputs, ticks);
    }

    fn outputs(&self) -> Outputs {
        Outputs {
            bits: u8::from(self.registers.active),
            position: 0,
        }
    }

    fn set(&mut self, field: u8, raw: u64) {
        if field == pcap::TRIG_EDGE {
            self.settings.trig_edge = Edge::new(raw);
        }
    }

    ghost counts_unseen = { definition.counts_unseen };
}
