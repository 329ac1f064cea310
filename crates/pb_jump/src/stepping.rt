ghost use Rattle.std.specs.Prelude.{◌≡◌, ℕ, ◌+◌, ◌-◌, ◌^◌, ◌<◌, ◌≤◌, true, false, drop};
ghost use Rattle.pb_stim.specs.declared.Row.{Row};
ghost use Rattle.std.specs.List.{AllByRecursion};
ghost use Rattle.pb_model.specs.Kept.{stands_of};
ghost use Rattle.pb_model.specs.Tick.{emitted_of};
ghost use Rattle.pb_model.specs.Arming.{is_capture_idle, idle_after};
ghost use Rattle.pb_still.specs.Eventful.{Moment, IsEventful, IsStill};
ghost use Rattle.pb_going.specs.Sims.{Agrees, AreKnown, now_of, outdated};
ghost use Rattle.pb_going.specs.Moving.{IsPlain, JumpsTo, StepsTo};

use crate::showing::show;
use crate::sims::Sim;
use pb_buses::Emit;
use pb_lazy::{are_quiet, first_due, is_one_busy, meet_all, refresh_all};
use pb_still::{put_rows, put_values};
use pb_stim::Stimulus;
use pb_words::Steps;
use std::sync::ledger::Ledger;

impl Sim {
    /// Whether it is plain that nothing happens at now but counting.
    pub(crate) fn is_quiet(&self) -> bool
        ensures { result ≡ true → IsPlain self.now }
    {
        !self.first && !self.stood && are_quiet(&self.lazies, &self.buses, self.tick)
    }

    /// Whether the tick at which the box stands is eventful.
    pub(crate) fn is_eventful(&self) -> bool
        requires known { AreKnown self.now }
        requires tick { self.now.tick < 2 ^ 62 }
        ensures eventful { (moment : Moment) → Agrees self.now moment → result ≡ true → IsEventful moment }
        ensures still { (moment : Moment) → Agrees self.now moment → result ≡ false → IsStill moment }
        ensures quiet { result ≡ false → emitted_of (stands_of (now_of self.now)) ≡ Emit.Nothing }
    {
        if self.first {
            return true;
        }
        if self.stood {
            return true;
        }
        is_one_busy(&self.lazies, &self.buses, self.tick)
    }

    /// Many quiet ticks at once: up to the first that may be another, and not beyond this one.
    pub(crate) fn jump(&mut self, to: u64)
        requires plain { IsPlain self.old }
        requires ahead { self.old.tick < to }
        requires small { to < 2 ^ 62 }
        ensures ahead { self.old.tick < self.new.tick }
        ensures within { self.new.tick ≤ to }
        ensures known { AreKnown self.new }
        ensures moved { (moment : Moment) → Agrees self.old moment → JumpsTo moment self.new }
        ensures idle { is_capture_idle (now_of self.new).blocks ≡ is_capture_idle (now_of self.old).blocks }
    {
        let due = first_due(&self.lazies, to);
        self.tick = next_row(&self.stimulus, self.place, due);
        self.place = put_rows(&self.stimulus, self.place, &mut self.values, self.tick);
        put_values(&mut self.buses, &self.values, self.tick);
    }

    /// One tick. What PCAP emits.
    pub(crate) fn step<L: Ledger>(&mut self, steps: &mut Steps<L>) -> Emit
        requires known { AreKnown self.old }
        requires small { self.old.tick < 2 ^ 62 - 1 }
        ensures tick { self.new.tick ≡ self.old.tick + 1 }
        ensures known { AreKnown self.new }
        ensures emits { result ≡ emitted_of (stands_of (now_of self.old)) }
        ensures moved { (moment : Moment) → Agrees self.old moment → StepsTo moment self.new result steps.old steps.new }
        ensures idle { is_capture_idle (now_of self.new).blocks ≡ idle_after result (is_capture_idle (now_of self.old).blocks) }
        ensures quiet { is_capture_idle (now_of self.old).blocks ≡ true → result ≡ Emit.Nothing }
    {
        let emit = meet_all(&mut self.lazies, &self.buses, self.tick, self.first, steps);
        self.tick += 1;
        show(&self.lazies, &self.settings, &mut self.buses, self.tick);
        self.place = put_rows(&self.stimulus, self.place, &mut self.values, self.tick);
        put_values(&mut self.buses, &self.values, self.tick);
        self.first = false;
        self.stood = false;
        emit
    }

    /// Finds each deadline that is outdated.
    pub(crate) fn refresh<L: Ledger>(&mut self, steps: &mut Steps<L>)
        requires { self.old.tick < 2 ^ 62 }
        ensures known { AreKnown self.new }
        ensures tick { self.new.tick ≡ self.old.tick }
        ensures same { (moment : Moment) → Agrees self.old moment → Agrees self.new moment }
        ensures idle { is_capture_idle (now_of self.new).blocks ≡ is_capture_idle (now_of self.old).blocks }
        ensures counts { steps.new ≤ steps.old + outdated self.old }
    {
        refresh_all(&mut self.lazies, steps);
    }
}

/// This tick, or that of the first row that is still to come.
fn next_row(stimulus: &Stimulus, place: usize, to: u64) -> u64
    ensures within { result ≤ to }
    ensures coming { (k : ℕ) → k < result → AllByRecursion (λ (row : Row). k < row.tick) (drop place stimulus.now) }
    ensures ahead { (k : ℕ) → k < to → AllByRecursion (λ (row : Row). k < row.tick) (drop place stimulus.now) → k < result }
{
    if stimulus.len() <= place {
        return to;
    }
    let (at, _target, _value) = stimulus.row(place);
    to.min(at)
}
