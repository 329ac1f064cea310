ghost use Rattle.std.specs.Prelude.{◌≡◌, ℕ, ◌+◌, ◌<◌, ◌≤◌, List, [], ◌∷◌, ◌++◌, length, take, drop};

use crate::numbers::put_front;
use std::marker::Model;

const ROOM: usize = 64;

/// A text of at most 64 bytes that is put together on the stack. A clause sees the bytes.
#[derive(Drop)]
pub struct Line {
    bytes: [u8; 64],
    len: usize,
}

impl Model for Line {
    ghost Value = { List ℕ };

    ghost view = { λ l. take l.len l.bytes };

    ghost invariant = { λ l. l.len ≤ 64 };
}

impl Line {
    /// An empty line.
    pub fn new() -> Line
        ensures { result ≡ [] }
    {
        Line {
            bytes: [0; ROOM],
            len: 0,
        }
    }

    /// Adds a byte at the end.
    pub fn push(&mut self, byte: u8)
        requires { length self.old < 64 }
        ensures { self.new ≡ self.old ++ byte ∷ [] }
    {
        self.bytes[self.len] = byte;
        self.len += 1;
    }

    /// Adds bytes at the end.
    pub fn append(&mut self, text: &[u8])
        requires { length self.old + length text.now ≤ 64 }
        ensures { self.new ≡ self.old ++ text.now }
    {
        let end = self.len + text.len();
        self.bytes[self.len..end].copy_from_slice(text);
        self.len = end;
    }

    /// Writes the bytes at the front of `out`, and answers their number.
    pub fn put(&self, out: &mut [u8]) -> usize
        requires { length self.now ≤ length out.old }
        ensures len { result ≡ length self.now }
        ensures written { out.new ≡ self.now ++ drop (length self.now) out.old }
    {
        put_front(&self.bytes[..self.len], out)
    }
}
