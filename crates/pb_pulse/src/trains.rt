ghost use Rattle.std.specs.Prelude.{ℕ, ◌≡◌, ◌+◌, ◌-◌, ◌*◌, ◌<◌, ◌≤◌, ◌^◌};
ghost use Rattle.pb_pulse.specs.Holding.{Holds};

/// A train of pulses. Ticks are of 8 ns.
#[derive(Clone, Copy, Debug, PartialEq, Eq)]
pub struct Train {
    /// The tick at which the first pulse begins.
    pub start: u64,
    /// How many ticks each pulse is long.
    pub width: u64,
    /// How many ticks the beginnings of two pulses are apart.
    pub step: u64,
    /// How many pulses there are, at least one.
    pub number: u16,
}

impl Train {
    ghost use Rattle.pb_pulse.specs.Train as definition;

    /// The tick at which a pulse begins; the first is pulse 0.
    fn rise(self, pulse: u16) -> u128
        ensures value { result ≡ definition.rise_of self pulse }
        ensures bound { result < 2 ^ 81 }
    {
        u128::from(self.start) + u128::from(pulse) * u128::from(self.step)
    }

    /// The tick behind the last pulse.
    pub(crate) fn end(self) -> u128
        requires { 0 < self.number }
        ensures value { result ≡ definition.end_of self }
    {
        self.rise(self.number - 1) + u128::from(self.width)
    }

    /// The last pulse that has begun at a tick from the start on.
    fn begun(self, tick: u64) -> u16
        requires one { 0 < self.number }
        requires started { self.start ≤ tick }
        ensures below { result < self.number }
        ensures begun { definition.rise_of self result ≤ tick }
        ensures next { result + 1 < self.number → tick < definition.rise_of self (result + 1) }
        ensures last { (i : ℕ) → i < self.number → definition.rise_of self i ≤ tick → definition.rise_of self i ≤ definition.rise_of self result }
    {
        let last = self.number - 1;
        if self.step == 0 {
            return last;
        }
        let steps = (tick - self.start) / self.step;
        if steps < u64::from(last) {
            steps as u16
        } else {
            last
        }
    }

    /// Whether one of the pulses is on at a tick.
    pub(crate) fn is_on_at(self, tick: u64) -> bool
        requires { 0 < self.number }
        ensures { result ≡ definition.is_on tick self }
    {
        if tick < self.start {
            return false;
        }
        let pulse = self.begun(tick);
        u128::from(tick) < self.rise(pulse) + u128::from(self.width)
    }

    /// The tick up to which it stays on, or off, as it is at a tick; its last tick, if it doesn't change before.
    pub(crate) fn holds_until(self, tick: u64) -> u128
        requires pulses { definition.HasPulses self }
        requires runs { tick + 1 < definition.end_of self }
        ensures { Holds tick self result }
    {
        if tick < self.start {
            return u128::from(self.start);
        }
        if self.step == self.width {
            return self.end() - 1;
        }
        let pulse = self.begun(tick);
        let fall = self.rise(pulse) + u128::from(self.width);
        if fall <= u128::from(tick) {
            return self.rise(pulse + 1);
        }
        if pulse + 1 == self.number {
            return self.end() - 1;
        }
        fall
    }
}
