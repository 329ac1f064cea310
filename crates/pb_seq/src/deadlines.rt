ghost use Rattle.std.specs.Prelude.{◌≡◌, ◌<◌, ◌↔◌, IsTrue};
ghost use Rattle.pb_seq.specs.Seq as definition;
ghost use Rattle.pb_seq.specs.Parts as parts;
ghost use Rattle.pb_tables.specs.Bodies.{AreWords};

use crate::registers::{SeqRegisters, SeqState};
use crate::settings::SeqSettings;
use pb_buses::Inputs;
use pb_tables::Rows;

impl SeqRegisters {
    fn uncounted(self) -> SeqRegisters
        ensures { result ≡ parts.with_ticks self 0 }
    {
        SeqRegisters {
            ticks_left: 0,
            ..self
        }
    }

    fn is_same(self, other: SeqRegisters) -> bool
        ensures { IsTrue result ↔ (self ≡ other) }
    {
        self == other
    }

    pub(crate) fn is_in_phase(self) -> bool
        ensures { result ≡ parts.is_in_phase self.state }
    {
        matches!(self.state, SeqState::Phase1 | SeqState::Phase2)
    }

    /// Whether the next tick leaves all but the ticks left as it is.
    pub(crate) fn is_still(self, settings: &SeqSettings, rows: &Rows, inputs: &Inputs) -> bool
        requires words { AreWords rows.now }
        requires shows { self.out < 64 }
        ensures { IsTrue result ↔ parts.AreStill settings.now rows.now self inputs.now }
    {
        let later = self.after(settings, rows, inputs).uncounted();
        later.is_same(self.uncounted())
    }

    /// The registers so many calm ticks later.
    pub(crate) fn coasted(
        self,
        settings: &SeqSettings,
        rows: &Rows,
        inputs: &Inputs,
        ticks: u64,
    ) -> SeqRegisters
        requires words { AreWords rows.now }
        requires shows { self.out < 64 }
        ensures value { result ≡ parts.coasted settings.now rows.now self inputs.now ticks }
        ensures shows { result.out < 64 }
    {
        if ticks == 0 {
            return self;
        }
        if self.is_in_phase() {
            SeqRegisters {
                ticks_left: self.ticks_left.saturating_sub(ticks),
                ..self
            }
        } else {
            self.after(settings, rows, inputs)
        }
    }
}
