use pb_stim::Stimulus;
use pb_words::Text;
use std::marker::Model;

/// Where a text stands among the bytes of its script.
#[derive(Clone, Copy, Debug)]
pub(crate) struct Span {
    pub(crate) from: usize,
    pub(crate) to: usize,
}

/// What is played at a tick.
#[derive(Clone, Copy, Debug)]
pub(crate) enum Act {
    /// A control session, 1 to 8, sends this line.
    Command(u32, Span),
    /// A control session closes.
    CloseControl(u32),
    /// A data session, 1 to 8, opens with this options line.
    OpenData(u32, Span),
    /// A data session takes one piece.
    Take(u32),
    /// A data session closes.
    CloseData(u32),
    /// The end of the script.
    End,
}

/// An act at a tick, in ticks of 8 ns.
#[derive(Clone, Copy, Debug)]
pub(crate) struct Step {
    pub(crate) tick: u64,
    pub(crate) act: Act,
}

/// A script that has been read: the rows of its stimulus, and all else that is played. A clause sees these two lists.
#[derive(Debug, Drop)]
pub struct Script {
    pub(crate) stimulus: Stimulus,
    /// The bytes of the script, among which the texts of its lines stand.
    pub(crate) bytes: Text,
    pub(crate) steps: Vec<Step>,
}

impl Model for Script {
    ghost use Rattle.std.specs.Prelude.{map, All};
    ghost use Rattle.pb_replay.specs.Kept.{Kept};
    ghost use Rattle.pb_replay.specs.Steps.{step_line, IsStep};

    ghost Value = { Kept };

    ghost view = { λ s. record { rows = s.stimulus; lines = map (step_line s.bytes) s.steps.items } };

    ghost invariant = { λ s. All (IsStep s.bytes) s.steps.items };
}

impl Script {
    ghost use Rattle.std.specs.Prelude.{◌≡◌, map, All};
    ghost use Rattle.pb_replay.specs.Steps.{step_line, IsStep};

    /// The rows of the stimulus.
    pub(crate) fn stimulus(&self) -> &Stimulus
        ensures { result.now ≡ self.now.rows }
    {
        &self.stimulus
    }

    /// The bytes of the script, and all that is played.
    pub(crate) fn steps(&self) -> (&[u8], &[Step])
        ensures lines { map (step_line result.0.now) result.1.now ≡ self.now.lines }
        ensures each { All (IsStep result.0.now) result.1.now }
    {
        (self.bytes.bytes(), self.steps.as_slice())
    }
}
