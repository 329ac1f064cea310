ghost use Rattle.std.specs.Prelude.{◌≡◌, ◌<◌, ◌+◌, ◌^◌};

use crate::registers::{PcompRegisters, PcompState, Sign};
use crate::settings::{Direction, PcompSettings, Reference};
use pb_buses::{Emit, Inputs, Machine, Outputs};
use pb_names::pcomp;
use pb_words::Steps;
use std::marker::Model;
use std::sync::ledger::Ledger;

/// A PCOMP: pulses at positions.
#[derive(Drop)]
pub struct Pcomp {
    settings: PcompSettings,
    registers: PcompRegisters,
}

impl Model for Pcomp {
    ghost use Rattle.pb_pcomp.specs.Pcomp.{Compare, CanCount};

    ghost Value = { Compare };

    ghost view = { λ b. record { settings = b.settings; registers = b.registers } };

    ghost invariant = { λ b. CanCount b.registers.state b.registers.produced };
}

impl Pcomp {
    ghost use Rattle.pb_pcomp.specs.Pcomp as definition;

    /// A PCOMP as the box opens.
    pub fn new() -> Pcomp
        ensures { result ≡ definition.opening }
    {
        Pcomp {
            settings: PcompSettings {
                pre_start: 0,
                start: 0,
                step: 0,
                width: 0,
                pulses: 0,
                relative: Reference::Absolute,
                direction: Direction::Positive,
            },
            registers: PcompRegisters {
                state: PcompState::WaitEnable,
                out: false,
                active: false,
                produced: 0,
                origin: 0,
                base: 0,
                sign: Sign::Positive,
                enable_before: false,
            },
        }
    }

    /// The value of a read field, by its place in the catalogue: STATE, as the number of its label, or
    /// PRODUCED.
    pub fn read(&self, field: u8) -> u64
        requires { definition.IsRead field }
        ensures value { result ≡ definition.value_read self.now field }
        ensures small { result < 2 ^ 32 }
    {
        match field {
            pcomp::STATE => u64::from(self.registers.state.label()),
            pcomp::PRODUCED => u64::from(self.registers.produced),
            _ => unreachable!(),
        }
    }

    /// One tick of the block, which emits nothing.
    pub fn advance<L: Ledger>(&mut self, inputs: &Inputs, tick: u64, steps: &mut Steps<L>)
        requires { tick < 2 ^ 62 }
        ensures next { self.new ≡ definition.rules.next self.old inputs.now tick }
        ensures counts { steps.new ≡ steps.old + 1 }
    {
        steps.tick();
        self.registers = self.registers_after(inputs);
    }

    /// The registers one tick later.
    fn registers_after(&self, inputs: &Inputs) -> PcompRegisters
        ensures value { result ≡ definition.registers_after self.now inputs.now }
        ensures counts { definition.CanCount result.state result.produced }
    {
        PcompRegisters {
            enable_before: inputs.bits[pcomp::ENABLE as usize],
            ..self.registers.compared_after(&self.settings, inputs)
        }
    }
}

impl Machine for Pcomp {
    ghost use Rattle.std.specs.Prelude.{refl};
    ghost use Rattle.pb_pcomp.specs.Pcomp as definition;

    ghost rules = { definition.rules };

    ghost shown = { definition.shown };

    ghost settable = { definition.IsSettable };

    ghost with_field = { definition.with_field };

    fn step<L: Ledger>(&mut self, inputs: &Inputs, tick: u64, steps: &mut Steps<L>) -> Emit {
        self.advance(inputs, tick, steps);
        Emit::Nothing
    }

    fn horizon<L: Ledger>(&self, inputs: &Inputs, tick: u64, steps: &mut Steps<L>) -> Option<u128> {
        steps.tick();
        if self.registers_after(inputs) == self.registers {
            None
        } else {
            Some(0)
        }
    }

    fn coast<L: Ledger>(&mut self, inputs: &Inputs, tick: u64, ticks: u64, steps: &mut Steps<L>) {
        steps.tick();
    }

    fn outputs(&self) -> Outputs {
        Outputs {
            bits: u8::from(self.registers.out) + 2 * u8::from(self.registers.active),
            position: 0,
        }
    }

    fn set(&mut self, field: u8, raw: u64) {
        match field {
            pcomp::PRE_START => self.settings.pre_start = raw as u32,
            pcomp::START => self.settings.start = raw.cast_signed() as i32,
            pcomp::STEP => self.settings.step = raw as u32,
            pcomp::WIDTH => self.settings.width = raw as u32,
            pcomp::PULSES => self.settings.pulses = raw as u32,
            pcomp::RELATIVE => self.settings.relative = Reference::new(raw),
            pcomp::DIR => self.settings.direction = Direction::new(raw),
            _ => {}
        }
    }

    ghost counts_unseen = { record {
      outputs = λ seen block. refl;
      records = λ seen inputs tick block. refl;
    } };
}
