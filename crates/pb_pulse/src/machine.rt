ghost use Rattle.std.specs.Prelude.{◌≡◌, ◌<◌, ◌+◌, ◌^◌, IfOk};

use crate::queues::Queue;
use crate::registers::PulseRegisters;
use crate::settings::PulseSettings;
use pb_buses::{Edge, Emit, Inputs, Machine, Outputs};
use pb_names::pulse;
use pb_words::{OutOfMemory, Steps};
use std::alloc::Global;
use std::marker::Model;
use std::sync::ledger::Ledger;

/// A PULSE: trains of pulses behind a trigger.
#[derive(Drop)]
pub struct Pulse {
    settings: PulseSettings,
    queue: Queue,
    registers: PulseRegisters,
}

impl Model for Pulse {
    ghost use Rattle.std.specs.Prelude.{◌<◌, ◌^◌};
    ghost use Rattle.pb_pulse.specs.Pulse.{Generator};

    ghost Value = { Generator };

    ghost view = { λ b. record { settings = b.settings; queue = b.queue; registers = b.registers } };

    ghost invariant = { λ b. b.settings.delay < 2 ^ 48 };
}

impl Pulse {
    ghost use Rattle.pb_pulse.specs.Pulse as definition;

    /// A PULSE as the box opens, with room for 255 trains. No later call takes memory.
    pub fn new(alloc: Global) -> Result<Pulse, OutOfMemory>
        ensures { IfOk result (λ pulse. pulse ≡ definition.opening) }
    {
        Ok(Pulse {
            settings: PulseSettings {
                delay: 0,
                width: 0,
                pulses: 0,
                step: 0,
                trig_edge: Edge::Rising,
            },
            queue: Queue::new(alloc)?,
            registers: PulseRegisters {
                dropped: 0,
                out: false,
                enable_before: false,
                trig_before: false,
            },
        })
    }

    /// The value of a read field, by its place in the catalogue: QUEUED or DROPPED.
    pub fn read(&self, field: u8) -> u64
        requires { definition.IsRead field }
        ensures value { result ≡ definition.value_read self.now field }
        ensures small { result < 2 ^ 32 }
    {
        match field {
            pulse::QUEUED => self.queue.len() as u64,
            pulse::DROPPED => u64::from(self.registers.dropped),
            _ => unreachable!(),
        }
    }

    /// One tick of the block, which emits nothing.
    pub fn advance<L: Ledger>(&mut self, inputs: &Inputs, tick: u64, steps: &mut Steps<L>)
        requires { tick < 2 ^ 62 }
        ensures next { self.new ≡ definition.rules.next self.old inputs.now tick }
        ensures counts { steps.new ≡ steps.old + 1 }
    {
        steps.tick();
        if inputs.bits[pulse::ENABLE as usize] {
            self.run(inputs, tick);
        } else {
            self.stop();
        }
        self.registers.enable_before = inputs.bits[pulse::ENABLE as usize];
        self.registers.trig_before = inputs.bits[pulse::TRIG as usize];
    }

    /// An edge of TRIG asks for a train. Gives what DROPPED becomes.
    fn trigger(&mut self, inputs: &Inputs, tick: u64) -> u32
        requires { tick < 2 ^ 62 }
        ensures queue { self.new ≡ definition.with_queue self.old (definition.queue_before self.old inputs.now tick) }
        ensures dropped { result ≡ definition.dropped_after self.old inputs.now tick }
    {
        let counted = self.registers.counted(inputs);
        let trig = inputs.bits[pulse::TRIG as usize];
        let edge = self.settings.trig_edge;
        if !edge.is_at(self.registers.trig_before, trig) {
            return counted;
        }
        let train = self.settings.train_at(tick);
        if self.queue.ask(train) {
            counted
        } else {
            counted.saturating_add(1)
        }
    }

    /// A tick at which ENABLE is 1, but for the kept inputs.
    fn run(&mut self, inputs: &Inputs, tick: u64)
        requires { tick < 2 ^ 62 }
        ensures { self.new ≡ definition.running self.old inputs.now tick }
    {
        let dropped = self.trigger(inputs, tick);
        let out = self.queue.pass(tick);
        self.registers = PulseRegisters {
            dropped,
            out,
            ..self.registers
        };
    }

    /// A tick at which ENABLE is 0, but for the kept inputs.
    fn stop(&mut self)
        ensures { self.new ≡ definition.stopped self.old }
    {
        self.queue.clear();
        self.registers.out = false;
    }
}

impl Machine for Pulse {
    ghost use Rattle.std.specs.Prelude.{refl};
    ghost use Rattle.pb_pulse.specs.Pulse as definition;

    ghost rules = { definition.rules };

    ghost shown = { definition.shown };

    ghost settable = { definition.IsSettable };

    ghost with_field = { definition.with_field };

    fn step<L: Ledger>(&mut self, inputs: &Inputs, tick: u64, steps: &mut Steps<L>) -> Emit {
        self.advance(inputs, tick, steps);
        Emit::Nothing
    }

    fn horizon<L: Ledger>(&self, inputs: &Inputs, tick: u64, steps: &mut Steps<L>) -> Option<u128> {
        steps.tick();
        let enable = inputs.bits[pulse::ENABLE as usize];
        if enable != self.registers.enable_before {
            return Some(0);
        }
        if inputs.bits[pulse::TRIG as usize] != self.registers.trig_before {
            return Some(0);
        }
        if enable {
            return self.queue.still(tick, self.registers.out);
        }
        if self.registers.out || !self.queue.is_empty() {
            return Some(0);
        }
        None
    }

    fn coast<L: Ledger>(&mut self, inputs: &Inputs, tick: u64, ticks: u64, steps: &mut Steps<L>) {
        steps.tick();
    }

    fn outputs(&self) -> Outputs {
        Outputs {
            bits: u8::from(self.registers.out),
            position: 0,
        }
    }

    fn set(&mut self, field: u8, raw: u64) {
        match field {
            pulse::DELAY => self.settings.delay = raw,
            pulse::WIDTH => self.settings.width = raw,
            pulse::PULSES => self.settings.pulses = raw as u16,
            pulse::STEP => self.settings.step = raw,
            pulse::TRIG_EDGE => self.settings.trig_edge = Edge::new(raw),
            _ => {}
        }
    }

    ghost counts_unseen = { record {
      outputs = λ seen block. refl;
      records = λ seen inputs tick block. refl;
    } };
}
