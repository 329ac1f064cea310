ghost use Rattle.std.specs.Prelude.{◌≡◌, ◌<◌, ◌+◌, ◌^◌};

use pb_buses::{Emit, Inputs, Machine, Outputs};
use pb_names::{div, first_pulse};
use pb_words::Steps;
use std::marker::Model;
use std::sync::ledger::Ledger;

/// To which output a DIV sends the first pulse after ENABLE rises.
#[derive(Clone, Copy, Debug, PartialEq, Eq)]
pub enum FirstPulse {
    OutN,
    OutD,
}

/// What commands set of a DIV.
#[derive(Clone, Copy, Debug, PartialEq, Eq)]
pub struct DivSettings {
    /// Of so many pulses the last goes to OUTD. 0 counts as 1.
    pub divisor: u32,
    pub first_pulse: FirstPulse,
}

/// What ticks change of a DIV.
#[derive(Clone, Copy, Debug, PartialEq, Eq)]
pub struct DivRegisters {
    /// COUNT: the pulses since the last that went to OUTD.
    pub count: u32,
    pub outd: bool,
    pub outn: bool,
    /// ENABLE as it was seen at the tick before.
    pub enable_before: bool,
    /// INP as it was seen at the tick before.
    pub inp_before: bool,
}

/// A DIV: of every so many pulses, the last goes to OUTD and the others to OUTN.
#[derive(Drop)]
pub struct Div {
    settings: DivSettings,
    registers: DivRegisters,
}

impl Model for Div {
    ghost use Rattle.pb_logic.specs.Div.{DivState};

    ghost Value = { DivState };

    ghost view = { λ b. record { settings = b.settings; registers = b.registers } };
}

impl Div {
    ghost use Rattle.pb_logic.specs.Div as definition;

    /// A DIV as the box opens.
    pub fn new() -> Div
        ensures { result ≡ definition.opening }
    {
        Div {
            settings: DivSettings {
                divisor: 0,
                first_pulse: FirstPulse::OutN,
            },
            registers: DivRegisters {
                count: 0,
                outd: false,
                outn: false,
                enable_before: false,
                inp_before: false,
            },
        }
    }

    /// The value of a read field, by its place in the catalogue: COUNT.
    pub fn read(&self, field: u8) -> u64
        requires { definition.IsRead field }
        ensures value { result ≡ definition.value_read self.now field }
        ensures small { result < 2 ^ 32 }
    {
        match field {
            div::COUNT => u64::from(self.registers.count),
            _ => unreachable!(),
        }
    }

    /// One tick of the block, which emits nothing.
    pub fn advance<L: Ledger>(&mut self, inputs: &Inputs, tick: u64, steps: &mut Steps<L>)
        requires { tick < 2 ^ 62 }
        ensures next { self.new ≡ definition.rules.next self.old inputs.now tick }
        ensures counts { steps.new ≡ steps.old + 1 }
    {
        steps.tick();
        self.registers = self.registers_after(inputs);
    }

    /// The registers one tick later.
    fn registers_after(&self, inputs: &Inputs) -> DivRegisters
        ensures { result ≡ definition.registers_after self.now inputs.now }
    {
        DivRegisters {
            enable_before: inputs.bits[div::ENABLE as usize],
            inp_before: inputs.bits[div::INP as usize],
            ..self.registers.divided_after(&self.settings, inputs)
        }
    }
}

impl FirstPulse {
    ghost use Rattle.pb_logic.specs.Div as definition;

    fn new(raw: u64) -> FirstPulse
        ensures { result ≡ definition.first_pulse_of raw }
    {
        if raw == u64::from(first_pulse::OUT_D) {
            FirstPulse::OutD
        } else {
            FirstPulse::OutN
        }
    }
}

impl DivSettings {
    ghost use Rattle.pb_logic.specs.Div as definition;

    fn last_count(&self) -> u32
        ensures { result ≡ definition.last_count self.now }
    {
        self.divisor.saturating_sub(1)
    }
}

impl DivRegisters {
    ghost use Rattle.pb_logic.specs.Div as definition;

    /// The count that a pulse of this tick finds.
    fn count_at(self, settings: &DivSettings, inputs: &Inputs) -> u32
        ensures { result ≡ definition.count_at settings.now self inputs.now }
    {
        if !inputs.bits[div::ENABLE as usize] || self.enable_before {
            return self.count;
        }
        match settings.first_pulse {
            FirstPulse::OutN => 0,
            FirstPulse::OutD => settings.last_count(),
        }
    }

    /// Nothing goes out.
    fn silent(self, count: u32) -> DivRegisters
        ensures { result ≡ definition.silent self count }
    {
        DivRegisters {
            count,
            outd: false,
            outn: false,
            ..self
        }
    }

    /// The registers one tick later, but for the kept inputs, where the block is enabled.
    fn pulsed(self, settings: &DivSettings, inputs: &Inputs, count: u32) -> DivRegisters
        ensures { result ≡ definition.pulsed settings.now self inputs.now count }
    {
        let inp = inputs.bits[div::INP as usize];
        if !inp {
            self.silent(count)
        } else if self.inp_before {
            DivRegisters { count, ..self }
        } else if count >= settings.last_count() {
            DivRegisters {
                count: 0,
                outd: true,
                outn: false,
                ..self
            }
        } else {
            DivRegisters {
                count: count + 1,
                outd: false,
                outn: true,
                ..self
            }
        }
    }

    /// The registers one tick later, but for the kept inputs.
    fn divided_after(self, settings: &DivSettings, inputs: &Inputs) -> DivRegisters
        ensures { result ≡ definition.divided_after settings.now self inputs.now }
    {
        if inputs.bits[div::ENABLE as usize] {
            self.pulsed(settings, inputs, self.count_at(settings, inputs))
        } else {
            self.silent(self.count)
        }
    }
}

impl Machine for Div {
    ghost use Rattle.std.specs.Prelude.{refl};
    ghost use Rattle.pb_logic.specs.Div as definition;

    ghost rules = { definition.rules };

    ghost shown = { definition.shown };

    ghost settable = { definition.IsSettable };

    ghost with_field = { definition.with_field };

    fn step<L: Ledger>(&mut self, inputs: &Inputs, tick: u64, steps: &mut Steps<L>) -> Emit {
        self.advance(inputs, tick, steps);
        Emit::Nothing
    }

    fn horizon<L: Ledger>(&self, inputs: &Inputs, tick: u64, steps: &mut Steps<L>) -> Option<u128> {
        steps.tick();
        if self.registers_after(inputs) == self.registers {
            None
        } else {
            Some(0)
        }
    }

    fn coast<L: Ledger>(&mut self, inputs: &Inputs, tick: u64, ticks: u64, steps: &mut Steps<L>) {
        steps.tick();
    }

    fn outputs(&self) -> Outputs {
        Outputs {
            bits: u8::from(self.registers.outd) + 2 * u8::from(self.registers.outn),
            position: 0,
        }
    }

    fn set(&mut self, field: u8, raw: u64) {
        match field {
            div::DIVISOR => self.settings.divisor = raw as u32,
            div::FIRST_PULSE => self.settings.first_pulse = FirstPulse::new(raw),
            _ => {}
        }
    }

    ghost counts_unseen = { record {
      outputs = λ seen block. refl;
      records = λ seen inputs tick block. refl;
    } };
}
