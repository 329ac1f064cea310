ghost use Rattle.std.specs.Prelude.{◌≡◌, ℕ, ◌+◌, ◌-◌, ◌^◌, ◌<◌, ◌≤◌, true, false, count_by, if◌then◌else◌};
ghost use Rattle.std.specs.List.{AllByRecursion};
ghost use Rattle.pb_still.specs.Eventful.{IsIdle};
ghost use Rattle.pb_lazy.specs.declared.lazies.Lazy.{Lazy};
ghost use Rattle.pb_lazy.specs.Lazy.{caught_up, saw, IsSound, IsQuiet};
ghost use Rattle.pb_lazy.specs.Meeting.{MetSoFar, IsRefreshed, AreRefreshed, IsOneBusy};

use crate::lazies::Lazy;
use pb_buses::{Buses, Emit};
use pb_words::Steps;
use std::sync::ledger::Ledger;

/// Whether it is plain that nothing concerns any of the blocks at this tick, which isn't the first.
pub fn are_quiet(lazies: &[Lazy], buses: &Buses, tick: u64) -> bool
    requires { AllByRecursion (IsSound tick false) lazies.now }
    ensures { result ≡ true → AllByRecursion (IsQuiet buses.now.bus tick) lazies.now }
{
    for lazy in lazies {
        if !lazy.is_quiet(buses, tick) {
            return false;
        }
    }
    true
}

/// Whether one of the blocks is busy at this tick, which isn't the first.
pub fn is_one_busy(lazies: &[Lazy], buses: &Buses, tick: u64) -> bool
    requires sound { AllByRecursion (IsSound tick false) lazies.now }
    requires known { AllByRecursion (λ (lazy : Lazy). lazy.outdated ≡ false) lazies.now }
    requires tick { tick < 2 ^ 62 }
    ensures busy { result ≡ true → IsOneBusy buses.now.bus tick lazies.now }
    ensures idle { result ≡ false → AllByRecursion (λ (lazy : Lazy). IsIdle buses.now.bus tick (saw false lazy) (caught_up tick lazy)) lazies.now }
{
    for lazy in lazies {
        if lazy.is_busy(buses, tick) {
            return true;
        }
    }
    false
}

/// The first tick at which one of the blocks may be busy, and not beyond this one.
pub fn first_due(lazies: &[Lazy], to: u64) -> u64
    ensures within { result ≤ to }
    ensures each { AllByRecursion (λ (lazy : Lazy). (result ≤ lazy.due) × (result ≤ lazy.turn)) lazies.now }
    ensures ahead { (tick : ℕ) → tick < to → AllByRecursion (λ (lazy : Lazy). (tick < lazy.due) × (tick < lazy.turn)) lazies.now → tick < result }
{
    let mut first = to;
    for lazy in lazies {
        first = least(first, lazy.due, lazy.turn);
    }
    first
}

/// The least of three ticks.
fn least(a: u64, b: u64, c: u64) -> u64
    ensures first { result ≤ a }
    ensures second { result ≤ b }
    ensures third { result ≤ c }
    ensures ahead { (tick : ℕ) → tick < a → tick < b → tick < c → tick < result }
{
    a.min(b).min(c)
}

/// Finds each deadline that is outdated.
pub fn refresh_all<L: Ledger>(lazies: &mut Vec<Lazy>, steps: &mut Steps<L>)
    requires { AllByRecursion (λ (lazy : Lazy). lazy.own < 2 ^ 62) lazies.old.items }
    ensures refreshed { AreRefreshed lazies.old.items lazies.new.items }
    ensures counts { steps.new ≤ steps.old + count_by (λ (lazy : Lazy). lazy.outdated) lazies.old.items }
{
    for lazy in lazies.iter_mut() {
        refresh_one(lazy, steps);
    }
}

/// Finds a deadline that is outdated.
fn refresh_one<L: Ledger>(lazy: &mut Lazy, steps: &mut Steps<L>)
    requires { lazy.old.own < 2 ^ 62 }
    ensures refreshed { IsRefreshed lazy.old lazy.new }
    ensures counts { steps.new ≤ steps.old + (if lazy.old.outdated then 1 else 0) }
{
    if !lazy.outdated {
        return;
    }
    lazy.look_ahead(steps);
}

/// All blocks make the tick. What PCAP emits.
pub fn meet_all<L: Ledger>(
    lazies: &mut Vec<Lazy>,
    buses: &Buses,
    tick: u64,
    first: bool,
    steps: &mut Steps<L>,
) -> Emit
    requires sound { AllByRecursion (IsSound tick first) lazies.old.items }
    requires known { AllByRecursion (λ (lazy : Lazy). lazy.outdated ≡ false) lazies.old.items }
    requires tick { tick < 2 ^ 62 - 1 }
    ensures { MetSoFar buses.now.bus tick first lazies.old.items lazies.new.items result steps.old steps.new }
{
    let mut emit = Emit::Nothing;
    for lazy in lazies.iter_mut() {
        lazy.meet(buses, tick, first, steps, &mut emit);
    }
    emit
}
