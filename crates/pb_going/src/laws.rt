ghost use Rattle.std.specs.Prelude.{◌≡◌, ℕ, ℤ, ◌+◌, ◌<◌, ◌≤◌, ◌++◌, Bool, true, false, List, map, drop};
ghost use Rattle.std.specs.List.{AllByRecursion};
ghost use Rattle.pb_buses.specs.declared.Buses.{Buses};
ghost use Rattle.pb_buses.specs.declared.Emit.{Emit};
ghost use Rattle.pb_stim.specs.declared.Row.{Row};
ghost use Rattle.pb_model.specs.Kept.{buses_with};
ghost use Rattle.pb_still.specs.Current.{IsCurrent, values_at};
ghost use Rattle.pb_still.specs.Current as current;
ghost use Rattle.pb_still.specs.Eventful.{Moment, IsIdle, IsEventful, IsStill, Busy, Run, moment_after};
ghost use Rattle.pb_lazy.specs.declared.Lazy.{Lazy};
ghost use Rattle.pb_lazy.specs.Lazy.{saw, caught_up};
ghost use Rattle.pb_lazy.specs.Meeting.{MetSoFar, IsOneBusy};
ghost use Rattle.pb_going.specs.Sims.{Going, going, Agrees, IsGoing, now_of, block_in};
ghost use Rattle.pb_going.specs.Moving.{IsPlain, JumpsTo, StepsTo};
ghost use Rattle.pb_going.specs.Advanced.{handed_out};

/// Where all blocks have met a tick, their outputs and then the values of the stimulus are put on the buses, and what is
/// kept is that of the next moment.
pub fn ticks_come_to_the_next_moment()
    ensures steps { (g : Going) (moment : Moment) → Agrees g moment → IsGoing g → (news : List Lazy) (emit : Emit) (was spent : ℕ) →
        MetSoFar g.buses.bus g.tick g.first g.lazies news emit was spent → (shown driven : Buses) (values : List ℤ) →
        shown ≡ buses_with (g.tick + 1) (map block_in news) g.settings g.buses → values ≡ values_at g.rows (g.tick + 1) →
        driven ≡ current.buses_with values (g.tick + 1) shown →
        StepsTo moment (going g.rows (g.tick + 1) driven g.settings news false false) emit was spent }
{}

/// Where it is plain that nothing happens but counting, what is kept goes on to any tick up to which no deadline is due, no
/// turn and no row comes.
pub fn jumps_come_to_later_moments()
    ensures jumps { (g : Going) (later place : ℕ) (old values : List ℤ) (buses : Buses) → IsGoing g → IsPlain g →
        IsCurrent g.rows place old g.tick → g.tick < later →
        AllByRecursion (λ (l : Lazy). (later ≤ l.due) × (later ≤ l.turn)) g.lazies →
        ((k : ℕ) → k < later → AllByRecursion (λ (row : Row). k < row.tick) (drop place g.rows)) →
        values ≡ values_at g.rows later → buses ≡ current.buses_with values later g.buses →
        (moment : Moment) → Agrees g moment → JumpsTo moment (going g.rows later buses g.settings g.lazies false false) }
{}

/// A tick is eventful where it is the first, an event stands at it or a walk over the blocks finds one that is busy; and it is
/// still where none of it is so.
pub fn walks_tell_what_is_eventful()
    ensures first { (g : Going) (moment : Moment) → Agrees g moment → IsGoing g → g.first ≡ true → IsEventful moment }
    ensures stood { (g : Going) (moment : Moment) → Agrees g moment → g.stood ≡ true → IsEventful moment }
    ensures busy { (g : Going) (moment : Moment) → Agrees g moment → g.first ≡ false → IsOneBusy g.buses.bus g.tick g.lazies → IsEventful moment }
    ensures still { (g : Going) (moment : Moment) → Agrees g moment → g.first ≡ false → g.stood ≡ false →
        AllByRecursion (λ (l : Lazy). IsIdle g.buses.bus g.tick (saw false l) (caught_up g.tick l)) g.lazies → IsStill moment }
{}

/// A run in two parts is a run, and hands out what both do.
pub fn runs_come_in_parts()
    ensures moments { (m n : ℕ) (moment : Moment) → moment_after n (moment_after m moment) ≡ moment_after (m + n) moment }
    ensures runs { (m n : ℕ) (moment : Moment) (a b c d : ℕ) → Run m moment a b → Run n (moment_after m moment) c d → Run (m + n) moment (a + c) (b + d) }
    ensures handed { (m n : ℕ) (moment : Moment) → handed_out (m + n) moment ≡ handed_out m moment ++ handed_out n (moment_after m moment) }
    ensures eventful { (moment : Moment) (busy : ℕ) → IsEventful moment → Busy moment busy → Run 1 moment 1 busy }
    ensures still { (moment : Moment) (busy : ℕ) → IsStill moment → Busy moment busy → Run 1 moment 0 busy }
{}
