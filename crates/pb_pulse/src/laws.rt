ghost use Rattle.std.specs.Prelude.{ℕ, ◌≡◌, ◌↔◌, IsTrue, true, false, length};
ghost use Rattle.pb_pulse.specs.declared.trains.Train.{Train};
ghost use Rattle.pb_pulse.specs.Train.{is_on, IsOn};
ghost use Rattle.pb_pulse.specs.Examples.{pair, narrow, behind_110};

/// A train is on at a tick exactly where one of its pulses is.
pub fn on_by_some_pulse()
    ensures { (tick : ℕ) (train : Train) → IsTrue (is_on tick train) ↔ IsOn tick train }
{}

/// Two pulses of three ticks, ten apart, begin five ticks behind the first of two triggers. The second comes too
/// early and is dropped. Where a pulse has no width, both are.
pub fn pulses_by_example()
    ensures delay { (behind_110 pair 1).registers.out ≡ false }
    ensures second_is_dropped { (behind_110 pair 1).registers.dropped ≡ 1 }
    ensures rises { (behind_110 pair 6).registers.out ≡ true }
    ensures is_queued { length (behind_110 pair 7).queue ≡ 1 }
    ensures last { (behind_110 pair 8).registers.out ≡ true }
    ensures has_left { length (behind_110 pair 8).queue ≡ 0 }
    ensures falls { (behind_110 pair 9).registers.out ≡ false }
    ensures narrow_are_dropped { (behind_110 narrow 1).registers.dropped ≡ 2 }
    ensures narrow_is_low { (behind_110 narrow 8).registers.out ≡ false }
{}
