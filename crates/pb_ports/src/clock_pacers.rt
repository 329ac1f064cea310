//! The system's clock as a pacer. A program's `main` makes one:
//!
//! ```text
//! let pacer = ClockPacer::new(rt);
//! ```
ghost use Rattle.std.specs.Prelude.{◌≡◌, ◌-◌, ◌/◌, ◌^◌, min, None};
ghost use Rattle.pb_ports.specs.Moments.{IsTick, Tells};

use crate::pacers::Pacer;
use std::sync::Wait;
use std::thread;
use std::time::{Clock, Duration, Instant};

/// The last tick that is told.
const LAST: u128 = (1 << 62) - 1;

/// A tick in nanoseconds.
const TICK: u128 = 8;

/// The time since this pacer was made, in ticks of 8 ns. It doesn't tell what it is going to say. A clock that can't be read gives 0.
#[derive(Clone, Copy)]
pub struct ClockPacer<C: Clock + Copy> {
    clock: C,
    start: Option<Instant>,
}

impl<C: Clock + Copy> ClockPacer<C> {
    /// A pacer that begins at tick 0 now.
    pub fn new(clock: C) -> ClockPacer<C> {
        ClockPacer {
            clock,
            start: Instant::now(&clock).ok(),
        }
    }
}

impl<C: Clock + Copy> Pacer for ClockPacer<C> {
    ghost moments = { λ _. None };

    fn now(&mut self) -> u64
        ensures tick { IsTick result }
        ensures tells { Tells None result None }
    {
        match self.start {
            Some(start) => match start.elapsed(&self.clock) {
                Ok(time) => ticks_of(time.as_nanos()),
                Err(_) => 0,
            },
            None => 0,
        }
    }

    fn pause<R: Wait>(&mut self, _rt: &R) {
        thread::sleep(&self.clock, Duration::from_millis(1));
    }
}

/// So many nanoseconds in ticks, up to the last tick.
fn ticks_of(nanos: u128) -> u64
    ensures { result ≡ min (nanos / 8) (2 ^ 62 - 1) }
{
    (nanos / TICK).min(LAST) as u64
}
