ghost use Rattle.std.specs.Prelude.{◌≡◌};

use pb_buses::Inputs;
use pb_names::pulse;

/// What ticks change of a PULSE, but for its queue.
#[derive(Clone, Copy, Debug, PartialEq, Eq)]
pub struct PulseRegisters {
    /// DROPPED: the trains that were dropped since ENABLE rose, up to 2^32 - 1.
    pub dropped: u32,
    /// OUT.
    pub out: bool,
    /// ENABLE as it was seen at the tick before.
    pub enable_before: bool,
    /// TRIG as it was seen at the tick before.
    pub trig_before: bool,
}

impl PulseRegisters {
    ghost use Rattle.pb_pulse.specs.Pulse as definition;

    /// The trains that were dropped before this tick, which are counted anew where ENABLE rises.
    pub(crate) fn counted(&self, inputs: &Inputs) -> u32
        ensures { result ≡ definition.counted_before self.now inputs.now }
    {
        if inputs.bits[pulse::ENABLE as usize] && !self.enable_before {
            0
        } else {
            self.dropped
        }
    }
}
