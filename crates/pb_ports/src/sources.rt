ghost use Rattle.std.specs.Prelude.{◌≡◌, ℕ, ◌<◌, ◌≤◌, List, Option, length};

/// What a read answers.
#[derive(Clone, Copy, Debug, PartialEq, Eq, Hash)]
pub enum Read {
    /// So many bytes, at least one, stand at the front of the buffer.
    Some(usize),
    /// No byte is left.
    End,
    /// The source failed. Nothing was taken, and what the buffer holds is left open.
    Failed,
}

/// Where bytes come from.
pub trait Source {
    ghost use Rattle.pb_ports.specs.Ports.{Rose, Reads};

    /// The bytes left, or `None` where the source doesn't tell them.
    ghost left: { Self → Option (List ℕ) };

    /// How many calls have failed, kept at the end of its range.
    ghost faults: { Self → ℕ };

    /// Reads the next bytes into the buffer. It says nothing of the buffer behind these bytes.
    fn read(&mut self, buf: &mut [u8]) -> Read
        requires { 0 < length buf.old }
        ensures reads { Reads (left self.old) buf.new result (left self.new) }
        ensures cause { result ≡ Read.Failed → Rose (faults self.old) (faults self.new) }
        ensures count { faults self.old ≤ faults self.new };
}
