ghost use Rattle.std.specs.Prelude.{◌≡◌, ◌≤◌, ◌^◌, pos, ◌+ℤ◌, ◌*ℤ◌, ◌↔◌, IsTrue};
ghost use Rattle.std.specs.Int.{w64, int_wrap};
ghost use Rattle.pb_pcap.specs.Each.{each};
ghost use Rattle.pb_pcap.specs.Pcap as definition;
ghost use Rattle.pb_pcap.specs.Resting as parts;

use crate::registers::{PcapMode, PcapRegisters};
use crate::samples::{PcapSamples, keep_greatest, keep_least};
use pb_buses::Inputs;
use pb_names::pcap;

impl PcapRegisters {
    /// Whether the next tick under these inputs is calm.
    pub(crate) fn is_steady(&self, inputs: &Inputs) -> bool
        ensures { IsTrue result ↔ parts.IsSteady self.now inputs.now }
    {
        self.trig_before == inputs.bits[pcap::TRIG as usize] && self.rests(inputs)
    }

    fn rests(&self, inputs: &Inputs) -> bool
        ensures { IsTrue result ↔ parts.Rests self.now.mode self.now inputs.now }
    {
        match self.mode {
            PcapMode::Idle => !self.active,
            PcapMode::Armed => !inputs.bits[pcap::ENABLE as usize] && !self.active,
            PcapMode::Running => inputs.bits[pcap::ENABLE as usize] && self.keeps(inputs),
        }
    }

    /// Whether the next tick is no sample, or one that changes running counts alone.
    fn keeps(&self, inputs: &Inputs) -> bool
        ensures { IsTrue result ↔ parts.AreKept (definition.gate inputs.now) self.now.samples inputs.now.bus }
    {
        if !inputs.bits[pcap::GATE as usize] {
            return true;
        }
        match &self.samples {
            Some(samples) => samples.holds(&inputs.bus),
            None => false,
        }
    }

    /// So many calm ticks at once, one at least and at most 2^62.
    pub(crate) fn coast(&mut self, inputs: &Inputs, ticks: u64)
        requires { ticks ≤ 2 ^ 62 }
        ensures { self.new ≡ parts.coasted self.old inputs.now ticks }
    {
        match self.mode {
            PcapMode::Idle | PcapMode::Armed => {}
            PcapMode::Running => self.run_on(inputs, ticks),
        }
    }

    fn run_on(&mut self, inputs: &Inputs, ticks: u64)
        requires { ticks ≤ 2 ^ 62 }
        ensures { self.new ≡ parts.run_on self.old inputs.now ticks }
    {
        let ts = self.ts;
        self.ts = ts.wrapping_add(ticks);
        if !inputs.bits[pcap::GATE as usize] {
            return;
        }
        match &mut self.samples {
            Some(samples) => samples.add_many(ts, ticks, &inputs.bus),
            None => {}
        }
    }
}

impl PcapSamples {
    /// Whether one more sample leaves the least and the greatest values as they are.
    fn holds(&self, bus: &[i32; 32]) -> bool
        ensures { IsTrue result ↔ parts.Holds self.now bus.now }
    {
        let mut least = self.least;
        keep_least(&mut least, bus);
        let mut greatest = self.greatest;
        keep_greatest(&mut greatest, bus);
        are_same(&least, &self.least) && are_same(&greatest, &self.greatest)
    }

    /// So many samples of these positions, the first of them at this time stamp, which change running
    /// counts alone.
    fn add_many(&mut self, ts: u64, ticks: u64, bus: &[i32; 32])
        requires { ticks ≤ 2 ^ 62 }
        ensures { self.new ≡ parts.with_more self.old ts ticks bus.now }
    {
        self.count = self.count.wrapping_add(ticks);
        add_times(&mut self.sums, ticks, bus);
        self.ts_end = ts.wrapping_add(ticks);
    }
}

fn are_same(a: &[i32], b: &[i32]) -> bool
    ensures { IsTrue result ↔ (a.now ≡ b.now) }
{
    a == b
}

fn add_times(sums: &mut [i64; 32], ticks: u64, bus: &[i32; 32])
    requires { ticks ≤ 2 ^ 62 }
    ensures { sums.new ≡ each (parts.added_times (pos ticks)) sums.old bus.now }
{
    for i in 0..bus.len() {
        sums[i] = added_times(sums[i], ticks, bus[i]);
    }
}

/// A position added to a sum so many times, modulo 2^64.
fn added_times(sum: i64, ticks: u64, position: i32) -> i64
    requires { ticks ≤ 2 ^ 62 }
    ensures { result ≡ parts.added_times (pos ticks) sum position }
{
    added(sum, product(signed(ticks), position))
}

fn added(sum: i64, more: i64) -> i64
    ensures { result ≡ int_wrap w64 (sum +ℤ more) }
{
    sum.wrapping_add(more)
}

fn product(times: i64, position: i32) -> i64
    ensures { result ≡ int_wrap w64 (times *ℤ position) }
{
    times.wrapping_mul(i64::from(position))
}

fn signed(ticks: u64) -> i64
    requires { ticks ≤ 2 ^ 62 }
    ensures { result ≡ pos ticks }
{
    ticks as i64
}
