ghost use Rattle.std.specs.Prelude.{◌≡◌, ◌+◌, ◌<◌, ◌^◌};

use crate::trains::Train;
use pb_buses::Edge;

/// What commands set of a PULSE. Times are ticks of 8 ns, up to 2^48 - 1.
#[derive(Clone, Copy, Debug, PartialEq, Eq)]
pub struct PulseSettings {
    /// How far behind the trigger the first pulse begins.
    pub delay: u64,
    /// How long a pulse is.
    pub width: u64,
    /// How many pulses a train has. 0 counts as 1.
    pub pulses: u16,
    /// How far the beginnings of two pulses are apart.
    pub step: u64,
    /// Which edge of TRIG asks for a train.
    pub trig_edge: Edge,
}

impl PulseSettings {
    ghost use Rattle.pb_pulse.specs.Pulse as definition;

    /// The train that an edge of TRIG asks for at a tick.
    pub(crate) fn train_at(&self, tick: u64) -> Train
        requires tick { tick < 2 ^ 62 }
        requires delay { self.now.delay < 2 ^ 48 }
        ensures value { result ≡ definition.train_at self.now tick }
        ensures one { 0 < result.number }
    {
        Train {
            start: tick + self.delay,
            width: self.width,
            step: self.step,
            number: self.pulses.max(1),
        }
    }
}
