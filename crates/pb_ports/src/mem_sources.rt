ghost use Rattle.std.specs.Prelude.{◌≡◌, ◌<◌, ◌≤◌, Some, length};
ghost use Rattle.pb_ports.specs.Fakes.{first_supply, Supplies};
ghost use Rattle.pb_ports.specs.Ports.{Rose, Reads};

use crate::counts::{count_on, is_due};
use crate::sources::{Read, Source};
use pb_words::Text;
use std::marker::Model;

/// A source in memory. It gives its bytes in pieces and fails at one numbered call, if at any.
#[derive(Debug, Drop)]
pub struct MemSource {
    bytes: Text,
    at: usize,
    piece: usize,
    calls: u64,
    fail_at: Option<u64>,
    faults: u64,
}

impl Model for MemSource {
    ghost use Rattle.std.specs.Prelude.{◌≤◌, drop, length};
    ghost use Rattle.pb_ports.specs.Fakes.{Supply};

    ghost Value = { Supply };

    ghost view = { λ s. record {
      left = drop s.at s.bytes;
      piece = s.piece;
      calls = s.calls;
      fail_at = s.fail_at;
      faults = s.faults;
    } };

    ghost invariant = { λ s. (s.at ≤ length s.bytes) × (1 ≤ s.piece) };
}

impl MemSource {
    /// A source of these bytes that gives at most `piece` bytes a call, and whose call of the number
    /// `fail_at` fails. Calls are numbered from 1, and the call after a failed one goes on as if the
    /// failed one had not been.
    pub fn new(bytes: Text, piece: usize, fail_at: Option<u64>) -> MemSource
        requires { 1 ≤ piece }
        ensures { result ≡ first_supply bytes piece fail_at }
    {
        MemSource {
            bytes,
            at: 0,
            piece,
            calls: 0,
            fail_at,
            faults: 0,
        }
    }

    /// How many calls have failed.
    pub fn faults(&self) -> u64
        ensures { result ≡ self.now.faults }
    {
        self.faults
    }
}

impl Source for MemSource {
    ghost left = { λ s. Some s.left };

    ghost faults = { λ s. s.faults };

    fn read(&mut self, buf: &mut [u8]) -> Read
        requires { 0 < length buf.old }
        ensures reads { Reads (Some self.old.left) buf.new result (Some self.new.left) }
        ensures cause { result ≡ Read.Failed → Rose self.old.faults self.new.faults }
        ensures count { self.old.faults ≤ self.new.faults }
        ensures exact { Supplies self.old (length buf.old) result self.new }
    {
        let due = is_due(self.fail_at, self.calls);
        self.calls = count_on(self.calls);
        if due {
            self.faults = count_on(self.faults);
            return Read::Failed;
        }
        let left = &self.bytes.bytes()[self.at..];
        if left.is_empty() {
            return Read::End;
        }
        let n = self.piece.min(buf.len()).min(left.len());
        buf[..n].copy_from_slice(&left[..n]);
        self.at += n;
        Read::Some(n)
    }
}
