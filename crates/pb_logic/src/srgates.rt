ghost use Rattle.std.specs.Prelude.{◌≡◌, ◌<◌, ◌+◌, ◌^◌};

use pb_buses::{Edge, Emit, Inputs, Machine, Outputs};
use pb_names::{srgate, when_disabled};
use pb_words::Steps;
use std::marker::Model;
use std::sync::ledger::Ledger;

/// What an SRGATE shows while ENABLE is 0.
#[derive(Clone, Copy, Debug, PartialEq, Eq)]
pub enum WhenDisabled {
    Low,
    High,
    /// What it showed before.
    Keep,
}

/// What a command asked for: FORCE_SET or FORCE_RST.
#[derive(Clone, Copy, Debug, PartialEq, Eq)]
pub enum Force {
    Set,
    Reset,
}

/// What commands set of an SRGATE.
#[derive(Clone, Copy, Debug, PartialEq, Eq)]
pub struct SrgateSettings {
    pub when_disabled: WhenDisabled,
    pub set_edge: Edge,
    pub rst_edge: Edge,
}

/// What ticks change of an SRGATE.
#[derive(Clone, Copy, Debug, PartialEq, Eq)]
pub struct SrgateRegisters {
    /// OUT.
    pub out: bool,
    /// SET as it was seen at the tick before.
    pub set_before: bool,
    /// RST as it was seen at the tick before.
    pub rst_before: bool,
    /// The force that the next tick obeys.
    pub pending: Option<Force>,
}

/// An SRGATE: an output that is set and reset by edges of two inputs, or forced by a command.
#[derive(Drop)]
pub struct Srgate {
    settings: SrgateSettings,
    registers: SrgateRegisters,
}

impl Model for Srgate {
    ghost use Rattle.pb_logic.specs.Srgate.{SrgateState};

    ghost Value = { SrgateState };

    ghost view = { λ b. record { settings = b.settings; registers = b.registers } };
}

impl Srgate {
    ghost use Rattle.pb_logic.specs.Srgate as definition;

    /// An SRGATE as the box opens.
    pub fn new() -> Srgate
        ensures { result ≡ definition.opening }
    {
        Srgate {
            settings: SrgateSettings {
                when_disabled: WhenDisabled::Low,
                set_edge: Edge::Rising,
                rst_edge: Edge::Rising,
            },
            registers: SrgateRegisters {
                out: false,
                set_before: false,
                rst_before: false,
                pending: None,
            },
        }
    }

    /// One tick of the block, which emits nothing.
    pub fn advance<L: Ledger>(&mut self, inputs: &Inputs, tick: u64, steps: &mut Steps<L>)
        requires { tick < 2 ^ 62 }
        ensures next { self.new ≡ definition.rules.next self.old inputs.now tick }
        ensures counts { steps.new ≡ steps.old + 1 }
    {
        steps.tick();
        self.registers = self.registers_after(inputs);
    }

    /// The registers one tick later.
    fn registers_after(&self, inputs: &Inputs) -> SrgateRegisters
        ensures { result ≡ definition.registers_after self.now inputs.now }
    {
        SrgateRegisters {
            out: self.registers.output_after(&self.settings, inputs),
            set_before: inputs.bits[srgate::SET as usize],
            rst_before: inputs.bits[srgate::RST as usize],
            pending: None,
        }
    }
}

impl WhenDisabled {
    ghost use Rattle.pb_logic.specs.Srgate as definition;

    fn new(raw: u64) -> WhenDisabled
        ensures { result ≡ definition.when_disabled_of raw }
    {
        if raw == u64::from(when_disabled::HIGH) {
            WhenDisabled::High
        } else if raw == u64::from(when_disabled::KEEP) {
            WhenDisabled::Keep
        } else {
            WhenDisabled::Low
        }
    }
}

impl SrgateRegisters {
    ghost use Rattle.pb_logic.specs.Srgate as definition;

    /// The output one tick later.
    fn output_after(self, settings: &SrgateSettings, inputs: &Inputs) -> bool
        ensures { result ≡ definition.output_after self.pending settings.now self inputs.now }
    {
        match self.pending {
            Some(Force::Set) => true,
            Some(Force::Reset) => false,
            None => self.unforced(settings, inputs),
        }
    }

    fn unforced(self, settings: &SrgateSettings, inputs: &Inputs) -> bool
        ensures { result ≡ definition.unforced settings.now self inputs.now }
    {
        if inputs.bits[srgate::ENABLE as usize] {
            return self.gated(settings, inputs);
        }
        match settings.when_disabled {
            WhenDisabled::Low => false,
            WhenDisabled::High => true,
            WhenDisabled::Keep => self.out,
        }
    }

    /// An edge of RST comes before an edge of SET.
    fn gated(self, settings: &SrgateSettings, inputs: &Inputs) -> bool
        ensures { result ≡ definition.gated settings.now self inputs.now }
    {
        let set = inputs.bits[srgate::SET as usize];
        let rst = inputs.bits[srgate::RST as usize];
        if settings.rst_edge.is_at(self.rst_before, rst) {
            false
        } else if settings.set_edge.is_at(self.set_before, set) {
            true
        } else {
            self.out
        }
    }
}

impl Machine for Srgate {
    ghost use Rattle.std.specs.Prelude.{refl};
    ghost use Rattle.pb_logic.specs.Srgate as definition;

    ghost rules = { definition.rules };

    ghost shown = { definition.shown };

    ghost settable = { definition.IsSettable };

    ghost with_field = { definition.with_field };

    fn step<L: Ledger>(&mut self, inputs: &Inputs, tick: u64, steps: &mut Steps<L>) -> Emit {
        self.advance(inputs, tick, steps);
        Emit::Nothing
    }

    fn horizon<L: Ledger>(&self, inputs: &Inputs, tick: u64, steps: &mut Steps<L>) -> Option<u128> {
        steps.tick();
        if self.registers_after(inputs) == self.registers {
            None
        } else {
            Some(0)
        }
    }

    fn coast<L: Ledger>(&mut self, inputs: &Inputs, tick: u64, ticks: u64, steps: &mut Steps<L>) {
        steps.tick();
    }

    fn outputs(&self) -> Outputs {
        Outputs {
            bits: u8::from(self.registers.out),
            position: 0,
        }
    }

    fn set(&mut self, field: u8, raw: u64) {
        match field {
            srgate::WHEN_DISABLED => self.settings.when_disabled = WhenDisabled::new(raw),
            srgate::SET_EDGE => self.settings.set_edge = Edge::new(raw),
            srgate::RST_EDGE => self.settings.rst_edge = Edge::new(raw),
            srgate::FORCE_SET => self.registers.pending = Some(Force::Set),
            srgate::FORCE_RST => self.registers.pending = Some(Force::Reset),
            _ => {}
        }
    }

    ghost counts_unseen = { record {
      outputs = λ seen block. refl;
      records = λ seen inputs tick block. refl;
    } };
}
