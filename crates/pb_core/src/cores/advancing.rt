ghost use Rattle.std.specs.Prelude.{◌≡◌, ◌-◌, ◌<◌, ◌≤◌, ◌^◌, false, Some, is_none};
ghost use Rattle.pb_acquire.specs.Acquisitions.{AllAcquisitions};
ghost use Rattle.pb_acquire.specs.Kept as acquire;
ghost use Rattle.pb_buses.specs.declared.Condition.{Condition};
ghost use Rattle.pb_model.specs.Arming.{is_capture_idle};
ghost use Rattle.pb_still.specs.Eventful.{Moment};
ghost use Rattle.pb_going.specs.Sims.{now_of, outdated};
ghost use Rattle.pb_going.specs.Sims as sims;
ghost use Rattle.pb_going.specs.Advanced.{IsAdvanced, ArePushed, idle_at_end};
ghost use Rattle.pb_core.specs.declared.events.Event.TheVariants as events;
ghost use Rattle.pb_core.specs.Core.{CoreState};
ghost use Rattle.pb_core.specs.Answer.{IsTold, after_told};
ghost use Rattle.pb_core.specs.Costs.{AdvanceCosts};
ghost use Rattle.pb_core.specs.Kept.{Agrees};
ghost use Rattle.pb_core.specs.Taking.{IsTaken, ended_by};

use crate::cores::Core;
use crate::events::Answer;
use pb_acquire::Acquisitions;
use pb_buses::Condition;
use pb_jump::{Advanced, Sim};
use pb_pcap::Records;
use pb_words::Steps;
use std::sync::ledger::Ledger;

impl Core {
    /// The answer to an advance to this tick, over at most so many eventful ticks. A tick below now is as good as now.
    #[inline(never)]
    pub(crate) fn advance<L: Ledger>(&mut self, to: u64, most: u64, steps: &mut Steps<L>) -> Answer
        requires small { to < 2 ^ 62 }
        requires some { 1 ≤ most }
        ensures told { (core : CoreState) → Agrees self.old core → IsTold core (events.Advance to most) result }
        ensures core { (core : CoreState) → Agrees self.old core → Agrees self.new (after_told core (events.Advance to most) result) }
        ensures counts { (core : CoreState) → Agrees self.old core → AdvanceCosts core self.old self.new steps.old steps.new }
    {
        let target = to.max(self.sim.now());
        let end = run(&mut self.sim, &mut self.acquisitions, target, most, steps);
        end_with(&mut self.acquisitions, end.completed);
        Answer::Reached {
            tick: end.reached,
            why: end.why,
        }
    }
}

/// The box advances, and the records that PCAP hands out on the way go to the acquisition that is armed or running.
fn run<L: Ledger>(
    sim: &mut Sim,
    acquisitions: &mut Acquisitions,
    to: u64,
    most: u64,
    steps: &mut Steps<L>,
) -> Advanced
    requires onward { sim.old.tick ≤ to }
    requires limit { to < 2 ^ 62 }
    requires some { 1 ≤ most }
    requires idle { is_capture_idle (now_of sim.old).blocks ≡ is_none acquisitions.old.running }
    ensures reached { result.reached ≡ sim.new.tick }
    ensures advanced { (moment : Moment) → sims.Agrees sim.old moment →
        IsAdvanced moment to most result sim.new steps.old steps.new (outdated sim.old) }
    ensures taken { (moment : Moment) (all : AllAcquisitions) → sims.Agrees sim.old moment → acquire.Agrees acquisitions.old all →
        IsTaken moment (sim.new.tick - sim.old.tick) result.completed all acquisitions.new }
    ensures known { outdated sim.new ≡ 0 }
    ensures idle { is_capture_idle (now_of sim.new).blocks ≡ idle_at_end result.completed (is_none acquisitions.new.running) }
    ensures runs { (condition : Condition) → result.completed ≡ Some condition → is_none acquisitions.new.running ≡ false }
{
    match acquisitions.running() {
        Some(records) => capture(sim, to, most, records, steps),
        None => sim.advance(to, most, None, steps),
    }
}

/// The same where PCAP is armed or running: the records that it hands out are pushed.
fn capture<L: Ledger>(
    sim: &mut Sim,
    to: u64,
    most: u64,
    records: &mut Records,
    steps: &mut Steps<L>,
) -> Advanced
    requires onward { sim.old.tick ≤ to }
    requires limit { to < 2 ^ 62 }
    requires some { 1 ≤ most }
    requires busy { is_capture_idle (now_of sim.old).blocks ≡ false }
    ensures reached { result.reached ≡ sim.new.tick }
    ensures advanced { (moment : Moment) → sims.Agrees sim.old moment →
        IsAdvanced moment to most result sim.new steps.old steps.new (outdated sim.old) }
    ensures pushed { (moment : Moment) → sims.Agrees sim.old moment →
        ArePushed moment (sim.new.tick - sim.old.tick) result.completed records.old records.new }
    ensures known { outdated sim.new ≡ 0 }
    ensures idle { is_capture_idle (now_of sim.new).blocks ≡ idle_at_end result.completed false }
{
    sim.advance(to, most, Some(records), steps)
}

/// The acquisition that is armed or running is over, if PCAP has completed it.
fn end_with(acquisitions: &mut Acquisitions, completed: Option<Condition>)
    requires { (condition : Condition) → completed ≡ Some condition → is_none acquisitions.old.running ≡ false }
    ensures ended { (all : AllAcquisitions) → acquire.Agrees acquisitions.old all → acquire.Agrees acquisitions.new (ended_by completed all) }
    ensures idle { is_none acquisitions.new.running ≡ idle_at_end completed (is_none acquisitions.old.running) }
{
    match completed {
        Some(condition) => acquisitions.complete(condition),
        None => {}
    }
}
