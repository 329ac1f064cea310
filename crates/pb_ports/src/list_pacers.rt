ghost use Rattle.std.specs.Prelude.{◌≡◌, Some, All};
ghost use Rattle.pb_ports.specs.Moments.{IsTick, Tells, first_moment, later_moments};

use crate::pacers::Pacer;
use std::marker::Model;
use std::sync::Wait;

/// A pacer that gives the moments of a list in turn, and then 0. A pause takes no time.
#[derive(Debug, Drop)]
pub struct ListPacer {
    moments: Vec<u64>,
}

impl Model for ListPacer {
    ghost use Rattle.std.specs.Prelude.{ℕ, List, All};
    ghost use Rattle.pb_ports.specs.Moments.{IsTick};

    ghost Value = { List ℕ };

    ghost view = { λ s. s.moments.items };

    ghost invariant = { λ s. All IsTick s.moments.items };
}

impl ListPacer {
    /// A pacer of these moments, in ticks, each below 2^62.
    pub fn new(moments: Vec<u64>) -> ListPacer
        requires { All IsTick moments.items }
        ensures { result ≡ moments.items }
    {
        ListPacer { moments }
    }
}

impl Pacer for ListPacer {
    ghost moments = { λ s. Some s };

    fn now(&mut self) -> u64
        ensures tick { IsTick result }
        ensures tells { Tells (Some self.old) result (Some self.new) }
        ensures moment { result ≡ first_moment self.old }
        ensures later { self.new ≡ later_moments self.old }
    {
        if self.moments.is_empty() {
            return 0;
        }
        self.moments.remove(0)
    }

    fn pause<R: Wait>(&mut self, _rt: &R)
        ensures { self.new ≡ self.old }
    {}
}
