ghost use Rattle.std.specs.Prelude.{◌≡◌, ℕ, List, Option};

use std::sync::Wait;

/// Tells which tick it is to be, and lets time pass.
pub trait Pacer {
    ghost use Rattle.pb_ports.specs.Moments.{IsTick, Tells};

    /// The moments still to come, in ticks, or `None` where the pacer doesn't tell them.
    ghost moments: { Self → Option (List ℕ) };

    /// The moment, in ticks of 8 ns, below 2^62. Where the moments are told it takes off and gives the first, and 0 where none is
    /// left.
    fn now(&mut self) -> u64
        ensures tick { IsTick result }
        ensures tells { Tells (moments self.old) result (moments self.new) };

    /// Lets some time pass. It takes no moment.
    fn pause<R: Wait>(&mut self, rt: &R)
        ensures { moments self.new ≡ moments self.old };
}
