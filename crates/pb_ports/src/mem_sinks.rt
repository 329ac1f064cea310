ghost use Rattle.std.specs.Prelude.{◌≡◌, ◌<◌, ◌≤◌, Some, IfOk, OnErr};
ghost use Rattle.pb_ports.specs.Fakes.{first_store, Stores};
ghost use Rattle.pb_ports.specs.Ports.{Rose, Writes};

use crate::counts::{count_on, is_due};
use crate::sinks::{Failed, Sink};
use pb_words::OutOfMemory;
use std::alloc::Global;
use std::marker::Model;

/// A sink in memory. It has a fixed room and fails at one numbered call, if at any, and where a piece
/// goes beyond the room.
#[derive(Debug, Drop)]
pub struct MemSink {
    held: Vec<u8>,
    room: usize,
    calls: u64,
    fail_at: Option<u64>,
    faults: u64,
}

impl Model for MemSink {
    ghost use Rattle.std.specs.Prelude.{◌≤◌, vec_len, vec_capacity};
    ghost use Rattle.pb_ports.specs.Fakes.{Store};

    ghost Value = { Store };

    ghost view = { λ s. record {
      held = s.held.items;
      room = s.room;
      calls = s.calls;
      fail_at = s.fail_at;
      faults = s.faults;
    } };

    ghost invariant = { λ s. (vec_len s.held ≤ s.room) × (s.room ≤ vec_capacity s.held) };
}

impl MemSink {
    /// An empty sink for at most `room` bytes, whose call of the number `fail_at` fails. Calls are
    /// numbered from 1. The room is taken here, so that a write takes no memory.
    pub fn new(alloc: Global, room: usize, fail_at: Option<u64>) -> Result<MemSink, OutOfMemory>
        ensures ok { IfOk result (λ sink. sink ≡ first_store room fail_at) }
        ensures err { OnErr result (0 < room) }
    {
        let held = Vec::with_capacity(alloc, room)?;
        Ok(MemSink {
            held,
            room,
            calls: 0,
            fail_at,
            faults: 0,
        })
    }

    /// The bytes that were written.
    pub fn bytes(&self) -> &[u8]
        ensures { result.now ≡ self.now.held }
    {
        self.held.as_slice()
    }

    /// How many calls have failed.
    pub fn faults(&self) -> u64
        ensures { result ≡ self.now.faults }
    {
        self.faults
    }
}

impl Sink for MemSink {
    ghost held = { λ s. Some s.held };

    ghost faults = { λ s. s.faults };

    fn write_all(&mut self, bytes: &[u8]) -> Result<(), Failed>
        ensures writes { Writes (Some self.old.held) bytes.now result (Some self.new.held) }
        ensures cause { OnErr result (Rose self.old.faults self.new.faults) }
        ensures count { self.old.faults ≤ self.new.faults }
        ensures exact { Stores self.old bytes.now result self.new }
    {
        let due = is_due(self.fail_at, self.calls);
        self.calls = count_on(self.calls);
        if due {
            self.faults = count_on(self.faults);
            return Err(Failed);
        }
        let fitting = bytes.len().min(self.room - self.held.len());
        self.held.extend_from_slice(&bytes[..fitting]).unwrap();
        if fitting < bytes.len() {
            self.faults = count_on(self.faults);
            return Err(Failed);
        }
        Ok(())
    }
}
