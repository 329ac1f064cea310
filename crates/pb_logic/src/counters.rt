ghost use Rattle.std.specs.Prelude.{◌≡◌, ◌<◌, ◌≤◌, ◌+◌, ◌^◌, ◌≤ℤ◌, ◌<ℤ◌, ◌+ℤ◌, ◌-ℤ◌, IsTrue, FitsSigned, pos};
ghost use Rattle.std.specs.Int.{w32, int_rem_euclid};

use pb_buses::{Emit, Inputs, Machine, Outputs};
use pb_names::counter;
use pb_words::Steps;
use std::marker::Model;
use std::sync::ledger::Ledger;

/// What commands set of a COUNTER.
#[derive(Clone, Copy, Debug, PartialEq, Eq)]
pub struct CounterSettings {
    /// Where counting starts as ENABLE rises.
    pub start: i32,
    /// How far one pulse leads.
    pub step: u32,
    /// The least position. Where it is above `max`, or both are 0, the range is that of all positions.
    pub min: i32,
    /// The greatest position.
    pub max: i32,
}

/// What ticks change of a COUNTER.
#[derive(Clone, Copy, Debug, PartialEq, Eq)]
pub struct CounterRegisters {
    /// OUT.
    pub out: i32,
    /// CARRY.
    pub carry: bool,
    /// ENABLE as it was seen at the tick before.
    pub enable_before: bool,
    /// TRIG as it was seen at the tick before.
    pub trig_before: bool,
}

/// A COUNTER: counts pulses up or down in a range of positions, and marks where it went over an end.
#[derive(Drop)]
pub struct Counter {
    settings: CounterSettings,
    registers: CounterRegisters,
}

impl Model for Counter {
    ghost use Rattle.pb_logic.specs.Counter.{CounterState};

    ghost Value = { CounterState };

    ghost view = { λ b. record { settings = b.settings; registers = b.registers } };
}

impl Counter {
    ghost use Rattle.pb_logic.specs.Counter as definition;

    /// A COUNTER as the box opens.
    pub fn new() -> Counter
        ensures { result ≡ definition.opening }
    {
        Counter {
            settings: CounterSettings {
                start: 0,
                step: 1,
                min: 0,
                max: 0,
            },
            registers: CounterRegisters {
                out: 0,
                carry: false,
                enable_before: false,
                trig_before: false,
            },
        }
    }

    /// One tick of the block, which emits nothing.
    pub fn advance<L: Ledger>(&mut self, inputs: &Inputs, tick: u64, steps: &mut Steps<L>)
        requires { tick < 2 ^ 62 }
        ensures next { self.new ≡ definition.rules.next self.old inputs.now tick }
        ensures counts { steps.new ≡ steps.old + 1 }
    {
        steps.tick();
        self.registers = self.registers_after(inputs);
    }

    /// The registers one tick later.
    fn registers_after(&self, inputs: &Inputs) -> CounterRegisters
        ensures { result ≡ definition.registers_after self.now inputs.now }
    {
        CounterRegisters {
            enable_before: inputs.bits[counter::ENABLE as usize],
            trig_before: inputs.bits[counter::TRIG as usize],
            ..self.registers.counted_after(&self.settings, inputs)
        }
    }
}

impl CounterSettings {
    ghost use Rattle.pb_logic.specs.Counter as definition;

    fn is_unlimited(&self) -> bool
        ensures { result ≡ definition.is_unlimited self.now }
    {
        (self.min == 0 && self.max == 0) || self.max < self.min
    }

    /// The least and the greatest position of the range.
    fn range(&self) -> (i32, i32)
        ensures lowest { result.0 ≡ definition.lowest self.now }
        ensures highest { result.1 ≡ definition.highest self.now }
        ensures ordered { result.0 ≤ℤ result.1 }
    {
        if self.is_unlimited() {
            (i32::MIN, i32::MAX)
        } else {
            (self.min, self.max)
        }
    }

    fn is_within(&self, number: i64) -> bool
        ensures value { result ≡ definition.is_within self.now number }
        ensures fits { IsTrue result → FitsSigned w32 number }
    {
        let (lowest, highest) = self.range();
        i64::from(lowest) <= number && number <= i64::from(highest)
    }

    /// Where a number out of the range comes in again.
    fn come_round(&self, number: i64) -> i32
        requires low { pos 0 ≤ℤ (number +ℤ pos 0x2_0000_0000) }
        requires high { number ≤ℤ pos 0x2_0000_0000 }
        ensures { result ≡ definition.come_round self.now number }
    {
        let (lowest, highest) = self.range();
        come_round(lowest, highest, number)
    }

    /// The number that one more pulse leads to from a position.
    fn stepped(&self, out: i32, down: bool) -> i64
        ensures number { result ≡ definition.stepped self.now out down }
        ensures low { pos 0 ≤ℤ (result +ℤ pos 0x2_0000_0000) }
        ensures high { result ≤ℤ pos 0x2_0000_0000 }
    {
        let step = i64::from(self.step);
        if down {
            i64::from(out) - step
        } else {
            i64::from(out) + step
        }
    }
}

fn come_round(lowest: i32, highest: i32, number: i64) -> i32
    requires ordered { lowest ≤ℤ highest }
    requires low { pos 0 ≤ℤ (number +ℤ pos 0x2_0000_0000) }
    requires high { number ≤ℤ pos 0x2_0000_0000 }
    ensures { result ≡ lowest +ℤ int_rem_euclid (number -ℤ lowest) ((highest -ℤ lowest) +ℤ pos 1) }
{
    let size = size(lowest, highest);
    let past = remainder(number - i64::from(lowest), size);
    position(i64::from(lowest) + past)
}

/// A number as a position.
fn position(number: i64) -> i32
    requires { FitsSigned w32 number }
    ensures { result ≡ number }
{
    number as i32
}

/// How many positions a range has.
fn size(lowest: i32, highest: i32) -> i64
    requires { lowest ≤ℤ highest }
    ensures { result ≡ (highest -ℤ lowest) +ℤ pos 1 }
{
    i64::from(highest) - i64::from(lowest) + 1
}

/// The remainder of a number by a size, which is never negative.
fn remainder(number: i64, size: i64) -> i64
    requires { pos 0 <ℤ size }
    ensures value { result ≡ int_rem_euclid number size }
    ensures low { pos 0 ≤ℤ result }
    ensures high { result <ℤ size }
{
    number.rem_euclid(size)
}

impl CounterRegisters {
    ghost use Rattle.pb_logic.specs.Counter as definition;

    /// The registers after a pulse that led to this number.
    fn reached(self, settings: &CounterSettings, number: i64) -> CounterRegisters
        requires low { pos 0 ≤ℤ (number +ℤ pos 0x2_0000_0000) }
        requires high { number ≤ℤ pos 0x2_0000_0000 }
        ensures { result ≡ definition.reached settings.now self number }
    {
        if settings.is_within(number) {
            CounterRegisters {
                out: number as i32,
                carry: false,
                ..self
            }
        } else {
            CounterRegisters {
                out: settings.come_round(number),
                carry: true,
                ..self
            }
        }
    }

    /// The registers one tick later, but for the kept inputs, where the block was enabled before.
    fn counted(self, settings: &CounterSettings, inputs: &Inputs) -> CounterRegisters
        ensures { result ≡ definition.counted settings.now self inputs.now }
    {
        let trig = inputs.bits[counter::TRIG as usize];
        if trig && !self.trig_before {
            let down = inputs.bits[counter::DIR as usize];
            self.reached(settings, settings.stepped(self.out, down))
        } else if trig {
            self
        } else {
            CounterRegisters {
                carry: false,
                ..self
            }
        }
    }

    /// The registers one tick later, but for the kept inputs.
    fn counted_after(self, settings: &CounterSettings, inputs: &Inputs) -> CounterRegisters
        ensures { result ≡ definition.counted_after settings.now self inputs.now }
    {
        if !inputs.bits[counter::ENABLE as usize] {
            CounterRegisters {
                carry: false,
                ..self
            }
        } else if !self.enable_before {
            CounterRegisters {
                out: settings.start,
                carry: false,
                ..self
            }
        } else {
            self.counted(settings, inputs)
        }
    }
}

impl Machine for Counter {
    ghost use Rattle.std.specs.Prelude.{refl};
    ghost use Rattle.pb_logic.specs.Counter as definition;

    ghost rules = { definition.rules };

    ghost shown = { definition.shown };

    ghost settable = { definition.IsSettable };

    ghost with_field = { definition.with_field };

    fn step<L: Ledger>(&mut self, inputs: &Inputs, tick: u64, steps: &mut Steps<L>) -> Emit {
        self.advance(inputs, tick, steps);
        Emit::Nothing
    }

    fn horizon<L: Ledger>(&self, inputs: &Inputs, tick: u64, steps: &mut Steps<L>) -> Option<u128> {
        steps.tick();
        if self.registers_after(inputs) == self.registers {
            None
        } else {
            Some(0)
        }
    }

    fn coast<L: Ledger>(&mut self, inputs: &Inputs, tick: u64, ticks: u64, steps: &mut Steps<L>) {
        steps.tick();
    }

    fn outputs(&self) -> Outputs {
        Outputs {
            bits: u8::from(self.registers.carry),
            position: self.registers.out,
        }
    }

    fn set(&mut self, field: u8, raw: u64) {
        match field {
            counter::START => self.settings.start = raw.cast_signed() as i32,
            counter::STEP => self.settings.step = raw as u32,
            counter::MIN => self.settings.min = raw.cast_signed() as i32,
            counter::MAX => self.settings.max = raw.cast_signed() as i32,
            _ => {}
        }
    }

    ghost counts_unseen = { record {
      outputs = λ seen block. refl;
      records = λ seen inputs tick block. refl;
    } };
}
