//! Writers as sinks. A program's `main` makes one over standard output:
//!
//! ```text
//! fn main(rt: HostRuntime) {
//!     let mut output = WriterSink::new(io::writer(&rt));
//!     ..
//! }
//! ```
ghost use Rattle.std.specs.Prelude.{◌≡◌, ◌≤◌, None, OnErr};
ghost use Rattle.pb_ports.specs.Adapters.{WritesOut, faults_after_write};
ghost use Rattle.pb_ports.specs.Ports.{Rose, Writes};

use crate::counts::count_on;
use crate::sinks::{Failed, Sink};
use std::io;

/// How often a write that a signal interrupts is made again before it counts as a fault.
const RETRIES: u32 = 64;

/// A writer as a sink. It tells nothing of its bytes, and counts each failed call as a fault. Every
/// call ends with a flush, so what was written has left the program.
#[derive(Drop)]
pub struct WriterSink<W> {
    writer: W,
    faults: u64,
}

impl<W> WriterSink<W> {
    /// A sink over this writer, with no fault so far.
    pub fn new(writer: W) -> WriterSink<W>
        ensures writer { result.writer ≡ writer }
        ensures faults { result.faults ≡ 0 }
    {
        WriterSink { writer, faults: 0 }
    }

    /// How many calls have failed.
    pub fn faults(&self) -> u64
        ensures { result ≡ self.now.faults }
    {
        self.faults
    }
}

impl<W: io::Write> Sink for WriterSink<W> {
    ghost held = { λ _. None };

    ghost faults = { λ s. s.faults };

    fn write_all(&mut self, bytes: &[u8]) -> Result<(), Failed>
        ensures writes { Writes None bytes.now result None }
        ensures cause { OnErr result (Rose self.old.faults self.new.faults) }
        ensures count { self.old.faults ≤ self.new.faults }
        ensures out { WritesOut (W.contents self.old.writer) bytes.now result (W.contents self.new.writer) }
        ensures faults { self.new.faults ≡ faults_after_write result self.old.faults }
    {
        let outcome = write_out(&mut self.writer, bytes);
        if outcome.is_err() {
            self.faults = count_on(self.faults);
        }
        outcome
    }
}

/// Writes all the bytes and flushes, or fails after some front of them.
#[tactic(auto, using(crate::proofs::WrittenFronts::writing))]
fn write_out<W: io::Write>(writer: &mut W, bytes: &[u8]) -> Result<(), Failed>
    ensures { WritesOut (W.contents writer.old) bytes.now result (W.contents writer.new) }
{
    let mut rest = bytes;
    let mut retries = RETRIES;
    while !rest.is_empty() {
        match writer.write(rest) {
            Ok(0) => return Err(Failed),
            Ok(n) => rest = &rest[n..],
            Err(e) => {
                if retries == 0 || e.kind() != io::ErrorKind::Interrupted {
                    return Err(Failed);
                }
                retries -= 1;
            }
        }
    }
    match writer.flush() {
        Ok(()) => Ok(()),
        Err(_) => Err(Failed),
    }
}
