//! Readers as sources. A program's `main` makes one over standard input:
//!
//! ```text
//! fn main(rt: HostRuntime) {
//!     let mut input = ReaderSource::new(rt.reader());
//!     ..
//! }
//! ```
ghost use Rattle.std.specs.Prelude.{◌≡◌, ◌<◌, ◌≤◌, None, length};
ghost use Rattle.std.specs.Io.{ReadsAtMost};
ghost use Rattle.std.specs.Io.KnownBytes.{ReadConsumes};
ghost use Rattle.pb_ports.specs.Adapters.{PassesOn, faults_after_read};
ghost use Rattle.pb_ports.specs.Ports.{Rose, Reads};

use crate::counts::count_on;
use crate::sources::{Read, Source};
use std::io;

/// How often a read that a signal interrupts is made again before it counts as a fault.
const RETRIES: u32 = 64;

/// A reader as a source. It tells nothing of its bytes, and counts each error of the reader as a fault.
#[derive(Drop)]
pub struct ReaderSource<R> {
    reader: R,
    faults: u64,
}

impl<R> ReaderSource<R> {
    /// A source over this reader, with no fault so far.
    pub fn new(reader: R) -> ReaderSource<R>
        ensures reader { result.reader ≡ reader }
        ensures faults { result.faults ≡ 0 }
    {
        ReaderSource { reader, faults: 0 }
    }

    /// How many calls have failed.
    pub fn faults(&self) -> u64
        ensures { result ≡ self.now.faults }
    {
        self.faults
    }
}

impl<R: io::Read> Source for ReaderSource<R> {
    ghost left = { λ _. None };

    ghost faults = { λ s. s.faults };

    fn read(&mut self, buf: &mut [u8]) -> Read
        requires { 0 < length buf.old }
        ensures reads { Reads None buf.new result None }
        ensures cause { result ≡ Read.Failed → Rose self.old.faults self.new.faults }
        ensures count { self.old.faults ≤ self.new.faults }
        ensures passes { PassesOn (R.remaining self.old.reader) buf.new result (R.remaining self.new.reader) }
        ensures faults { self.new.faults ≡ faults_after_read result self.old.faults }
    {
        match read_once(&mut self.reader, buf) {
            Ok(0) => Read::End,
            Ok(n) => Read::Some(n),
            Err(_) => {
                self.faults = count_on(self.faults);
                Read::Failed
            }
        }
    }
}

/// One read, made again where a signal interrupts it.
fn read_once<R: io::Read>(reader: &mut R, buf: &mut [u8]) -> io::Result<usize>
    ensures bound { ReadsAtMost result buf.new }
    ensures bytes { ReadConsumes (R.remaining reader.old) (R.remaining reader.new) result buf.new }
{
    for _ in 0..RETRIES {
        match reader.read(buf) {
            Err(e) if e.kind() == io::ErrorKind::Interrupted => {}
            outcome => return outcome,
        }
    }
    reader.read(buf)
}
