ghost use Rattle.std.specs.Prelude.{◌≡◌, ◌<◌, ◌↔◌, ◌⊎◌, ℕ, true, suc, ◌+◌};
ghost use Rattle.pb_still.specs.Eventful.{Moment, Busy, IsEventful, IsStill, Run, moment_after};
ghost use Rattle.pb_still.specs.Coasting.{StaysFor, coasted_moment};

/// Where nothing happens but counting for so many ticks, they come to one coast: the time is so many ticks
/// later, each block has made so many steps under the same inputs, its delay lines have moved on by as many, and
/// the bus is the same until the stimulus puts the values of the new tick on it. Where the first of these ticks is
/// still, none of them is eventful, and no block is busy at any of them.
pub fn quiet_ticks_are_one_coast()
    ensures coast { (n : ℕ) (moment : Moment) → StaysFor (suc n) moment →
        moment_after (suc n) moment ≡ coasted_moment (suc n) moment }
    ensures still { (n : ℕ) (moment : Moment) → StaysFor n moment → IsStill moment → Run n moment 0 0 }
{}

/// How many blocks are busy at a moment, and how many ticks of a run are eventful, is one number. A tick is eventful
/// exactly where an event stood at it or that number of blocks isn't 0.
pub fn busy_blocks_are_counted_once()
    ensures busy { (moment : Moment) (m n : ℕ) → Busy moment m → Busy moment n → m ≡ n }
    ensures eventful { (moment : Moment) (busy : ℕ) → Busy moment busy → IsEventful moment ↔ ((moment.stood ≡ true) ⊎ (0 < busy)) }
    ensures runs { (n : ℕ) (moment : Moment) (a b c d : ℕ) → Run n moment a b → Run n moment c d → (a ≡ c) × (b ≡ d) }
{}
