ghost use Rattle.std.specs.Prelude.{◌≡◌, ◌<◌, ◌+◌, ◌-◌, ◌%◌, ◌^◌, ℕ, min, true};
ghost use Rattle.pb_buses.specs.Rules.{IsHorizon};
ghost use Rattle.pb_buses.specs.declared.Inputs.{Inputs};

use pb_buses::{Emit, Inputs, Machine, Outputs};
use pb_names::clock;
use pb_words::Steps;
use std::marker::Model;
use std::sync::ledger::Ledger;

/// What commands set of a CLOCK.
#[derive(Clone, Copy, Debug, PartialEq, Eq)]
pub struct ClockSettings {
    /// PERIOD in ticks of 8 ns, below 2^48. Below 2 it counts as 2.
    pub period: u64,
    /// WIDTH in ticks of 8 ns, below 2^48. 0 is half of the period.
    pub width: u64,
}

/// What ticks change of a CLOCK.
#[derive(Clone, Copy, Debug, PartialEq, Eq)]
pub struct ClockRegisters {
    /// How many ticks of the period have gone by.
    pub count: u64,
    /// OUT.
    pub out: bool,
}

/// A CLOCK: for as long as it is enabled, a pulse in every period.
#[derive(Drop)]
pub struct Clock {
    settings: ClockSettings,
    registers: ClockRegisters,
}

impl Model for Clock {
    ghost use Rattle.pb_logic.specs.Clock.{ClockState};

    ghost Value = { ClockState };

    ghost view = { λ b. record { settings = b.settings; registers = b.registers } };
}

impl Clock {
    ghost use Rattle.pb_logic.specs.Clock as definition;

    /// A CLOCK as the box opens.
    pub fn new() -> Clock
        ensures { result ≡ definition.opening }
    {
        Clock {
            settings: ClockSettings {
                period: 0,
                width: 0,
            },
            registers: ClockRegisters {
                count: 0,
                out: false,
            },
        }
    }

    /// One tick of the block, which emits nothing.
    pub fn advance<L: Ledger>(&mut self, inputs: &Inputs, tick: u64, steps: &mut Steps<L>)
        requires { tick < 2 ^ 62 }
        ensures next { self.new ≡ definition.rules.next self.old inputs.now tick }
        ensures counts { steps.new ≡ steps.old + 1 }
    {
        steps.tick();
        self.registers = if inputs.bits[clock::ENABLE as usize] {
            self.registers.running(&self.settings)
        } else {
            ClockRegisters {
                count: 0,
                out: false,
            }
        };
    }
}

impl ClockSettings {
    ghost use Rattle.pb_logic.specs.Clock as definition;

    fn period(&self) -> u64
        ensures { result ≡ definition.period_of self.now }
    {
        self.period.max(2)
    }

    fn width(&self) -> u64
        ensures { result ≡ definition.width_of self.now }
    {
        if self.width == 0 {
            self.period() / 2
        } else {
            self.width
        }
    }

    /// The count after so many ticks, of which there is one at least, where the clock is enabled.
    fn count_after(&self, count: u64, ticks: u64) -> u64
        ensures { result ≡ (min count (definition.period_of self.now - 1) + ticks) % definition.period_of self.now }
    {
        let period = self.period();
        let ticks = u128::from(count.min(period - 1)) + u128::from(ticks);
        (ticks % u128::from(period)) as u64
    }
}

impl ClockRegisters {
    ghost use Rattle.pb_logic.specs.Clock as definition;

    /// The registers one tick later, where the clock is enabled.
    fn running(self, settings: &ClockSettings) -> ClockRegisters
        ensures { result ≡ definition.running settings.now self }
    {
        let is_last = self.count >= settings.period() - 1;
        ClockRegisters {
            count: if is_last { 0 } else { self.count + 1 },
            out: self.count < settings.width(),
        }
    }

    /// How many steps are calm before the output turns, where the clock is enabled.
    fn calm_ticks(self, settings: &ClockSettings) -> Option<u128>
        ensures { (inputs : Inputs) (tick : ℕ) → definition.enable inputs ≡ true
            → IsHorizon definition.rules inputs tick (record { settings = settings.now; registers = self }) result }
    {
        let period = settings.period();
        let width = settings.width();
        if !self.out {
            if self.count < width {
                return Some(0);
            }
            return Some(u128::from(period.saturating_sub(self.count).max(1)));
        }
        if self.count >= width {
            return Some(0);
        }
        if width >= period {
            return None;
        }
        Some(u128::from(width - self.count))
    }
}

impl Machine for Clock {
    ghost use Rattle.std.specs.Prelude.{refl};
    ghost use Rattle.pb_logic.specs.Clock as definition;

    ghost rules = { definition.rules };

    ghost shown = { definition.shown };

    ghost settable = { definition.IsSettable };

    ghost with_field = { definition.with_field };

    fn step<L: Ledger>(&mut self, inputs: &Inputs, tick: u64, steps: &mut Steps<L>) -> Emit {
        self.advance(inputs, tick, steps);
        Emit::Nothing
    }

    fn horizon<L: Ledger>(&self, inputs: &Inputs, tick: u64, steps: &mut Steps<L>) -> Option<u128> {
        steps.tick();
        if inputs.bits[clock::ENABLE as usize] {
            self.registers.calm_ticks(&self.settings)
        } else if self.registers.out {
            Some(0)
        } else {
            None
        }
    }

    fn coast<L: Ledger>(&mut self, inputs: &Inputs, tick: u64, ticks: u64, steps: &mut Steps<L>) {
        steps.tick();
        if ticks == 0 {
            return;
        }
        if inputs.bits[clock::ENABLE as usize] {
            self.registers.count = self.settings.count_after(self.registers.count, ticks);
        } else {
            self.registers.count = 0;
        }
    }

    fn outputs(&self) -> Outputs {
        Outputs {
            bits: u8::from(self.registers.out),
            position: 0,
        }
    }

    fn set(&mut self, field: u8, raw: u64) {
        match field {
            clock::PERIOD => self.settings.period = raw,
            clock::WIDTH => self.settings.width = raw,
            _ => {}
        }
    }

    ghost counts_unseen = { record {
      outputs = λ seen block. refl;
      records = λ seen inputs tick block. refl;
    } };
}
