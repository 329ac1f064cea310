ghost use Rattle.std.specs.Prelude.{◌≡◌, ℕ, ◌≤◌, List, Option, OnErr};

/// A write failed.
#[derive(Clone, Copy, Debug, PartialEq, Eq, Hash)]
pub struct Failed;

/// Where bytes go.
pub trait Sink {
    ghost use Rattle.pb_ports.specs.Ports.{Rose, Writes};

    /// The bytes that the sink holds, or `None` where it doesn't tell them.
    ghost held: { Self → Option (List ℕ) };

    /// How many calls have failed, kept at the end of its range.
    ghost faults: { Self → ℕ };

    /// Writes all these bytes, or fails after some front of them.
    fn write_all(&mut self, bytes: &[u8]) -> Result<(), Failed>
        ensures writes { Writes (held self.old) bytes.now result (held self.new) }
        ensures cause { OnErr result (Rose (faults self.old) (faults self.new)) }
        ensures count { faults self.old ≤ faults self.new };
}
