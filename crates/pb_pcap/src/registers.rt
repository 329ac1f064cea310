ghost use Rattle.std.specs.Prelude.{◌≡◌, ◌≢◌, true};

use crate::samples::PcapSamples;
use crate::settings::PcapSettings;
use pb_buses::{Condition, Emit, Inputs, Record};
use pb_names::pcap;

/// Whether a PCAP captures.
#[derive(Clone, Copy, Debug, PartialEq, Eq)]
pub enum PcapMode {
    /// It wasn't armed, or its acquisition is over.
    Idle,
    /// It waits for ENABLE.
    Armed,
    /// It samples, and records at triggers.
    Running,
}

/// What a tick comes to.
#[derive(Clone, Copy, Debug)]
pub(crate) enum Turn {
    /// Nothing is emitted.
    Quiet,
    /// A record is due, and there is room for it.
    Due,
    /// The acquisition is over.
    Over(Condition),
}

/// What ticks, arming and disarming change of a PCAP.
#[derive(Clone, Copy, Debug)]
pub struct PcapRegisters {
    pub mode: PcapMode,
    /// ACTIVE.
    pub active: bool,
    /// For how many more records there is room.
    pub room: u64,
    /// The time stamp: ticks of 8 ns since the run began, modulo 2^64.
    pub ts: u64,
    /// None until there is a sample.
    pub samples: Option<PcapSamples>,
    /// TRIG as it was seen at the tick before.
    pub trig_before: bool,
}

impl PcapMode {
    ghost use Rattle.pb_pcap.specs.Pcap as definition;

    pub(crate) fn is_idle(self) -> bool
        ensures { result ≡ definition.is_idle_mode self }
    {
        matches!(self, PcapMode::Idle)
    }

    pub(crate) fn is_running(self) -> bool
        ensures { result ≡ definition.is_running_mode self }
    {
        matches!(self, PcapMode::Running)
    }
}

impl PcapRegisters {
    ghost use Rattle.pb_pcap.specs.Pcap as definition;
    ghost use Rattle.pb_buses.specs.declared.Emit.TheVariants as emits;
    ghost use Rattle.pb_pcap.specs.Turns.{Turns, finished, with_first_sample};

    /// Whether a record is due.
    pub(crate) fn is_triggered(&self, settings: &PcapSettings, inputs: &Inputs) -> bool
        ensures { result ≡ definition.is_triggered settings.now self.now inputs.now }
    {
        settings
            .trig_edge
            .is_at(self.trig_before, inputs.bits[pcap::TRIG as usize])
    }

    /// The tick is a sample where GATE is 1.
    fn sample(&mut self, inputs: &Inputs)
        ensures { self.new ≡ definition.sampled self.old inputs.now }
    {
        if !inputs.bits[pcap::GATE as usize] {
            return;
        }
        let ts = self.ts;
        match &mut self.samples {
            Some(samples) => samples.add(ts, &inputs.bus),
            None => self.begin_samples(&inputs.bus),
        }
    }

    /// The first sample.
    #[inline(never)]
    fn begin_samples(&mut self, bus: &[i32; 32])
        ensures { self.new ≡ with_first_sample self.old bus.now }
    {
        self.samples = Some(PcapSamples::first(self.ts, bus));
    }

    /// The record of this tick.
    fn record(&self, inputs: &Inputs) -> Record
        ensures { result ≡ definition.record_of self.now.samples self.now.ts inputs.now }
    {
        match &self.samples {
            Some(samples) => Record {
                value: inputs.bus,
                least: samples.least,
                greatest: samples.greatest,
                sum: samples.sums,
                ts_start: samples.ts_start,
                ts_end: samples.ts_end,
                ts_trig: self.ts,
                gate_duration: samples.count,
                words: inputs.words,
            },
            None => Record {
                value: inputs.bus,
                least: inputs.bus,
                greatest: inputs.bus,
                sum: [0; 32],
                ts_start: self.ts,
                ts_end: self.ts,
                ts_trig: self.ts,
                gate_duration: 0,
                words: inputs.words,
            },
        }
    }

    /// The run is over.
    fn end(&mut self)
        ensures { self.new ≡ definition.ended self.old }
    {
        self.mode = PcapMode::Idle;
        self.active = false;
    }

    /// A run begins.
    fn begin(&mut self)
        ensures { self.new ≡ definition.begun self.old }
    {
        self.mode = PcapMode::Running;
        self.active = true;
        self.ts = 0;
        self.samples = None;
    }

    /// Hands out the record: there is room for one less, samples begin anew, and time goes on.
    #[inline(never)]
    pub(crate) fn hand_out(&mut self, inputs: &Inputs) -> Emit
        requires { self.old.room ≢ 0 }
        ensures next { self.new ≡ finished self.old }
        ensures emits { result ≡ emits.Record (definition.record_of self.old.samples self.old.ts inputs.now) }
    {
        let row = self.record(inputs);
        self.room -= 1;
        self.samples = None;
        self.ts = self.ts.wrapping_add(1);
        Emit::Record(row)
    }

    /// A tick of a run, but for the kept input, up to its record.
    fn run(&mut self, settings: &PcapSettings, inputs: &Inputs) -> Turn
        ensures { Turns PcapMode.Running settings.now self.old self.new inputs.now result }
    {
        if !inputs.bits[pcap::ENABLE as usize] {
            self.end();
            return Turn::Over(Condition::Ok);
        }
        self.sample(inputs);
        if !self.is_triggered(settings, inputs) {
            self.ts = self.ts.wrapping_add(1);
            return Turn::Quiet;
        }
        if self.room == 0 {
            self.end();
            self.ts = self.ts.wrapping_add(1);
            return Turn::Over(Condition::Overrun);
        }
        Turn::Due
    }

    /// A tick, but for the kept input, up to its record.
    pub(crate) fn capture(&mut self, settings: &PcapSettings, inputs: &Inputs) -> Turn
        ensures { Turns self.old.mode settings.now self.old self.new inputs.now result }
    {
        match self.mode {
            PcapMode::Idle => {
                self.active = false;
                Turn::Quiet
            }
            PcapMode::Armed => {
                if inputs.bits[pcap::ENABLE as usize] {
                    self.begin();
                } else {
                    self.active = false;
                }
                Turn::Quiet
            }
            PcapMode::Running => self.run(settings, inputs),
        }
    }

    /// A tick at which nothing is emitted, but for the kept input.
    #[tactic(auto, using(crate::proofs::QuietLemmas::quiet_turn))]
    pub(crate) fn pass(&mut self, settings: &PcapSettings, inputs: &Inputs)
        requires { definition.is_quiet_in self.old.mode settings.now self.old inputs.now ≡ true }
        ensures { self.new ≡ definition.captured self.old.mode settings.now self.old inputs.now }
    {
        let _turn = self.capture(settings, inputs);
    }
}
