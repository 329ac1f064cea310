ghost use Rattle.std.specs.Prelude.{◌≡◌, ◌+◌, ◌-◌, ◌^◌, ◌<◌, ◌≤◌, true, false, None, Some};
ghost use Rattle.pb_buses.specs.Rules.{is_record};
ghost use Rattle.pb_model.specs.Kept.{stands_of};
ghost use Rattle.pb_model.specs.Tick.{emitted_of};
ghost use Rattle.pb_model.specs.Arming.{is_capture_idle};
ghost use Rattle.pb_still.specs.Eventful.{Moment};
ghost use Rattle.pb_going.specs.Sims.{Agrees, AreKnown, now_of, outdated};
ghost use Rattle.pb_jump.specs.Taking.{IsSame, IsTaken};
ghost use Rattle.pb_going.specs.Advanced.{IsAdvanced, IsCaptured, AreGiven, AreLeft, ArePushed, idle_at_end};

use crate::sims::Sim;
use pb_buses::{Condition, Emit};
use pb_going::{Advanced, Why};
use pb_model::machine;
use pb_names::pcap;
use pb_pcap::Records;
use pb_words::Steps;
use std::sync::ledger::Ledger;

impl Sim {
    /// Advances to a tick below 2^62 that isn't below now, or up to the eventful tick behind `most` of them, or up to one that
    /// emits a record for which there is no memory. The records of an acquisition that is armed or running are pushed.
    pub fn advance<L: Ledger>(
        &mut self,
        to: u64,
        most: u64,
        records: Option<&mut Records>,
        steps: &mut Steps<L>,
    ) -> Advanced
        requires onward { self.old.tick ≤ to }
        requires limit { to < 2 ^ 62 }
        requires some { 1 ≤ most }
        requires given { AreGiven records (is_capture_idle (now_of self.old).blocks) }
        ensures reached { result.reached ≡ self.new.tick }
        ensures advanced { (moment : Moment) → Agrees self.old moment →
            IsAdvanced moment to most result self.new steps.old steps.new (outdated self.old) }
        ensures records { (moment : Moment) → Agrees self.old moment →
            AreLeft moment (self.new.tick - self.old.tick) result.completed records.entry records.exit }
        ensures idle { is_capture_idle (now_of self.new).blocks ≡ idle_at_end result.completed (is_capture_idle (now_of self.old).blocks) }
        ensures quiet { is_capture_idle (now_of self.old).blocks ≡ true → result.completed ≡ None }
        ensures known { outdated self.new ≡ 0 }
    {
        self.refresh(steps);
        match records {
            Some(records) => self.capture(to, most, records, steps),
            None => self.go(to, most, steps),
        }
    }

    /// The same where PCAP is armed or running.
    fn capture<L: Ledger>(
        &mut self,
        to: u64,
        most: u64,
        records: &mut Records,
        steps: &mut Steps<L>,
    ) -> Advanced
        requires onward { self.old.tick ≤ to }
        requires limit { to < 2 ^ 62 }
        requires known { AreKnown self.old }
        requires busy { is_capture_idle (now_of self.old).blocks ≡ false }
        ensures reached { result.reached ≡ self.new.tick }
        ensures advanced { (moment : Moment) → Agrees self.old moment →
            IsAdvanced moment to most result self.new steps.old steps.new 0 }
        ensures pushed { (moment : Moment) → Agrees self.old moment →
            ArePushed moment (self.new.tick - self.old.tick) result.completed records.old records.new }
        ensures idle { is_capture_idle (now_of self.new).blocks ≡ idle_at_end result.completed false }
        ensures known { AreKnown self.new }
    {
        let mut completed = None;
        let mut count = 0;
        while self.tick < to {
            if self.is_quiet() {
                self.jump(to);
                continue;
            }
            if self.is_eventful() {
                if count == most {
                    return self.ended(Why::Events, completed);
                }
                if !self.has_room(records) {
                    return self.ended(Why::Memory, completed);
                }
                count += 1;
                let emit = self.step(steps);
                completed = take(records, emit, completed);
                continue;
            }
            let _nothing = self.step(steps);
        }
        self.ended(Why::Target, completed)
    }

    /// Makes room in memory for the record that the next tick emits, if it emits one, and says whether there is.
    fn has_room(&self, records: &mut Records) -> bool
        ensures same { IsSame records.old records.new }
        ensures room { result ≡ true → is_record (emitted_of (stands_of (now_of self.now))) ≡ true → 1 ≤ records.new.spare }
        ensures lacks { result ≡ false → is_record (emitted_of (stands_of (now_of self.now))) ≡ true }
    {
        if !self.emits() {
            return true;
        }
        match records.reserve() {
            Ok(()) => true,
            Err(_) => false,
        }
    }

    /// The same where PCAP is idle.
    fn go<L: Ledger>(&mut self, to: u64, most: u64, steps: &mut Steps<L>) -> Advanced
        requires onward { self.old.tick ≤ to }
        requires limit { to < 2 ^ 62 }
        requires known { AreKnown self.old }
        requires idle { is_capture_idle (now_of self.old).blocks ≡ true }
        ensures reached { result.reached ≡ self.new.tick }
        ensures advanced { (moment : Moment) → Agrees self.old moment →
            IsAdvanced moment to most result self.new steps.old steps.new 0 }
        ensures captured { (moment : Moment) → Agrees self.old moment → IsCaptured moment (self.new.tick - self.old.tick) result.completed }
        ensures idle { is_capture_idle (now_of self.new).blocks ≡ true }
        ensures quiet { result.completed ≡ None }
        ensures known { AreKnown self.new }
    {
        let mut count = 0;
        while self.tick < to {
            if self.is_quiet() {
                self.jump(to);
                continue;
            }
            if self.is_eventful() {
                if most <= count {
                    return self.ended(Why::Events, None);
                }
                let _none = self.step(steps);
                count += 1;
                continue;
            }
            let _none = self.step(steps);
        }
        self.ended(Why::Target, None)
    }

    /// Whether the next tick emits a record. No block makes a step for it.
    fn emits(&self) -> bool
        ensures { result ≡ is_record (emitted_of (stands_of (now_of self.now))) }
    {
        let place = machine(pcap::BLOCK, pcap::INSTANCES);
        let lazy = &self.lazies[place as usize];
        let inputs = lazy.look(&self.buses, self.tick);
        lazy.block.unit.emits(&inputs)
    }

    fn ended(&self, why: Why, completed: Option<Condition>) -> Advanced
        ensures { result ≡ record { reached = self.now.tick; why = why; completed = completed } }
    {
        Advanced {
            reached: self.tick,
            why,
            completed,
        }
    }
}

/// What a tick emits goes to the records, where there is room in memory for one, or is the completion.
fn take(records: &mut Records, emit: Emit, completed: Option<Condition>) -> Option<Condition>
    requires { is_record emit ≡ true → 1 ≤ records.old.spare }
    ensures { IsTaken emit completed result records.old records.new }
{
    match emit {
        Emit::Nothing => completed,
        Emit::Record(row) => {
            let _kept = records.push(&row);
            completed
        }
        Emit::Completed(condition) => Some(condition),
    }
}
