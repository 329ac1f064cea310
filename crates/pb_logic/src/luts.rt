ghost use Rattle.std.specs.Prelude.{◌≡◌, ◌≤◌, ◌<◌, ◌+◌, ◌^◌};
ghost use Rattle.pb_lut.specs.Expressions.{bit, place};
ghost use Rattle.pb_logic.specs.Lut.{levels};

use pb_buses::{Emit, Inputs, Machine, Outputs};
use pb_names::lut;
use pb_words::Steps;
use std::marker::Model;
use std::sync::ledger::Ledger;

/// What commands set of a LUT.
#[derive(Clone, Copy, Debug, PartialEq, Eq)]
pub struct LutSettings {
    /// Bit 16A + 8B + 4C + 2D + E is the output for the inputs A to E.
    pub function: u32,
}

/// What ticks change of a LUT.
#[derive(Clone, Copy, Debug, PartialEq, Eq)]
pub struct LutRegisters {
    /// OUT.
    pub out: bool,
}

/// A LUT: a logic function of five inputs.
#[derive(Drop)]
pub struct Lut {
    settings: LutSettings,
    registers: LutRegisters,
}

impl Model for Lut {
    ghost use Rattle.pb_logic.specs.Lut.{LutState};

    ghost Value = { LutState };

    ghost view = { λ b. record { settings = b.settings; registers = b.registers } };
}

impl Lut {
    ghost use Rattle.pb_logic.specs.Lut as definition;

    /// A LUT as the box opens.
    pub fn new() -> Lut
        ensures { result ≡ definition.opening }
    {
        Lut {
            settings: LutSettings { function: 0 },
            registers: LutRegisters { out: false },
        }
    }

    /// One tick of the block, which emits nothing.
    pub fn advance<L: Ledger>(&mut self, inputs: &Inputs, tick: u64, steps: &mut Steps<L>)
        requires { tick < 2 ^ 62 }
        ensures next { self.new ≡ definition.rules.next self.old inputs.now tick }
        ensures counts { steps.new ≡ steps.old + 1 }
    {
        steps.tick();
        self.registers.out = self.settings.output_after(inputs);
    }
}

impl LutSettings {
    ghost use Rattle.pb_logic.specs.Lut as definition;

    fn output_after(&self, inputs: &Inputs) -> bool
        ensures { result ≡ definition.output_after self.now inputs.now }
    {
        (self.function >> place(inputs)) & 1 == 1
    }
}

impl Machine for Lut {
    ghost use Rattle.std.specs.Prelude.{refl};
    ghost use Rattle.pb_logic.specs.Lut as definition;

    ghost rules = { definition.rules };

    ghost shown = { definition.shown };

    ghost settable = { definition.IsSettable };

    ghost with_field = { definition.with_field };

    fn step<L: Ledger>(&mut self, inputs: &Inputs, tick: u64, steps: &mut Steps<L>) -> Emit {
        self.advance(inputs, tick, steps);
        Emit::Nothing
    }

    fn horizon<L: Ledger>(&self, inputs: &Inputs, tick: u64, steps: &mut Steps<L>) -> Option<u128> {
        steps.tick();
        if self.settings.output_after(inputs) == self.registers.out {
            None
        } else {
            Some(0)
        }
    }

    fn coast<L: Ledger>(&mut self, inputs: &Inputs, tick: u64, ticks: u64, steps: &mut Steps<L>) {
        steps.tick();
    }

    fn outputs(&self) -> Outputs {
        Outputs {
            bits: u8::from(self.registers.out),
            position: 0,
        }
    }

    fn set(&mut self, field: u8, raw: u64) {
        match field {
            lut::FUNC => self.settings.function = raw as u32,
            _ => {}
        }
    }

    ghost counts_unseen = { record {
      outputs = λ seen block. refl;
      records = λ seen inputs tick block. refl;
    } };
}

/// Which bit of a function belongs to these inputs.
fn place(inputs: &Inputs) -> u32
    ensures { result ≡ place (levels inputs.now) }
{
    16 * digit(inputs.bits[lut::INPA as usize])
        + 8 * digit(inputs.bits[lut::INPB as usize])
        + 4 * digit(inputs.bits[lut::INPC as usize])
        + 2 * digit(inputs.bits[lut::INPD as usize])
        + digit(inputs.bits[lut::INPE as usize])
}

fn digit(level: bool) -> u32
    ensures value { result ≡ bit level }
    ensures small { result ≤ 1 }
{
    if level { 1 } else { 0 }
}
