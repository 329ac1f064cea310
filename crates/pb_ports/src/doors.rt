ghost use Rattle.std.specs.Prelude.{◌≡◌, ℕ, ◌≤◌, List, Option, OnErr, IfOk};

use crate::sinks::{Failed, Sink};
use crate::sources::Source;
use std::sync::Wait;

/// Where connections come in, one after the other.
pub trait Door {
    ghost use Rattle.pb_ports.specs.Ports.{Rose};
    ghost use Rattle.pb_ports.specs.Doors.{Comes, IsFresh};

    /// Gives what the other side of a connection sends.
    type In: Source + Drop;

    /// Takes what is sent to the other side.
    type Out: Sink + Drop;

    /// The bytes of each connection still to come, in order, or `None` where the door doesn't tell them.
    ghost ways: { Self → Option (List (List ℕ)) };

    /// How many calls have failed, kept at the end of its range.
    ghost faults: { Self → ℕ };

    /// Waits for the next connection and gives its two halves, or fails and leaves the connections to come as they are.
    fn accept<R: Wait>(&mut self, rt: &R) -> Result<(Self::In, Self::Out), Failed>
        ensures comes { IfOk result (λ way. Comes (ways self.old) (Self.In.left way.0) (ways self.new)) }
        ensures fresh { IfOk result (λ way. IsFresh (Self.In.faults way.0) (Self.Out.faults way.1) (Self.Out.held way.1)) }
        ensures kept { OnErr result (ways self.new ≡ ways self.old) }
        ensures cause { OnErr result (Rose (faults self.old) (faults self.new)) }
        ensures count { faults self.old ≤ faults self.new };
}

/// Gives doors, each of which lets in the connections of a port.
pub trait Listen {
    ghost use Rattle.pb_ports.specs.Ports.{Rose};

    /// What a port gets: it goes with the thread that serves it.
    type Way: Door + Drop + Send + 'static;

    /// How many calls have failed, kept at the end of its range.
    ghost faults: { Self → ℕ };

    /// A door of the port of this number. The first call for a port opens it; the doors of one port share its connections.
    fn door(&mut self, port: u16) -> Result<Self::Way, Failed>
        ensures cause { OnErr result (Rose (faults self.old) (faults self.new)) }
        ensures count { faults self.old ≤ faults self.new };
}
