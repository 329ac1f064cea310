ghost use Rattle.std.specs.Prelude.{◌≡◌, ◌≤◌, Some, All, IfOk, OnErr};
ghost use Rattle.pb_ports.specs.Doors.{Comes, IsFresh};
ghost use Rattle.pb_ports.specs.FakeDoors.{Admits, IsFreshWay, Opens, bytes_to_come};
ghost use Rattle.pb_ports.specs.Ports.{Rose};

use crate::counts::count_on;
use crate::doors::{Door, Listen};
use crate::mem_sinks::MemSink;
use crate::mem_sources::MemSource;
use crate::sinks::Failed;
use std::marker::Model;
use std::sync::Wait;

/// A door in memory. It gives its connections in turn, and then each call fails.
#[derive(Debug, Drop)]
pub struct MemDoor {
    ways: Vec<(MemSource, MemSink)>,
    faults: u64,
}

impl Model for MemDoor {
    ghost use Rattle.std.specs.Prelude.{All};
    ghost use Rattle.pb_ports.specs.FakeDoors.{Doorway, IsFreshWay};

    ghost Value = { Doorway };

    ghost view = { λ s. record { ways = s.ways.items; faults = s.faults } };

    ghost invariant = { λ s. All IsFreshWay s.ways.items };
}

impl MemDoor {
    /// A door that gives these connections in turn. Neither half of one may have been used.
    pub fn new(ways: Vec<(MemSource, MemSink)>) -> MemDoor
        requires { All IsFreshWay ways.items }
        ensures ways { result.ways ≡ ways.items }
        ensures faults { result.faults ≡ 0 }
    {
        MemDoor { ways, faults: 0 }
    }

    /// How many calls have failed.
    pub fn faults(&self) -> u64
        ensures { result ≡ self.now.faults }
    {
        self.faults
    }
}

impl Door for MemDoor {
    type In = MemSource;

    type Out = MemSink;

    ghost ways = { λ s. Some (bytes_to_come s) };

    ghost faults = { λ s. s.faults };

    fn accept<R: Wait>(&mut self, _rt: &R) -> Result<(MemSource, MemSink), Failed>
        ensures comes { IfOk result (λ way. Comes (Some (bytes_to_come self.old)) (Some way.0.left) (Some (bytes_to_come self.new))) }
        ensures fresh { IfOk result (λ way. IsFresh way.0.faults way.1.faults (Some way.1.held)) }
        ensures kept { OnErr result (Some (bytes_to_come self.new) ≡ Some (bytes_to_come self.old)) }
        ensures cause { OnErr result (Rose self.old.faults self.new.faults) }
        ensures count { self.old.faults ≤ self.new.faults }
        ensures exact { Admits self.old result self.new }
    {
        if self.ways.is_empty() {
            self.faults = count_on(self.faults);
            return Err(Failed);
        }
        Ok(self.ways.remove(0))
    }
}

/// A listener in memory. It gives its doors in turn, whatever the port, and then each call fails.
#[derive(Debug, Drop)]
pub struct MemListen {
    doors: Vec<MemDoor>,
    faults: u64,
}

impl Model for MemListen {
    ghost use Rattle.pb_ports.specs.FakeDoors.{Hall};

    ghost Value = { Hall };

    ghost view = { λ s. record { doors = s.doors.items; faults = s.faults } };
}

impl MemListen {
    /// A listener that gives these doors in turn.
    pub fn new(doors: Vec<MemDoor>) -> MemListen
        ensures doors { result.doors ≡ doors.items }
        ensures faults { result.faults ≡ 0 }
    {
        MemListen { doors, faults: 0 }
    }

    /// How many calls have failed.
    pub fn faults(&self) -> u64
        ensures { result ≡ self.now.faults }
    {
        self.faults
    }
}

impl Listen for MemListen {
    type Way = MemDoor;

    ghost faults = { λ s. s.faults };

    fn door(&mut self, _port: u16) -> Result<MemDoor, Failed>
        ensures cause { OnErr result (Rose self.old.faults self.new.faults) }
        ensures count { self.old.faults ≤ self.new.faults }
        ensures exact { Opens self.old result self.new }
    {
        if self.doors.is_empty() {
            self.faults = count_on(self.faults);
            return Err(Failed);
        }
        Ok(self.doors.remove(0))
    }
}
