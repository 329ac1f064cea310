ghost use Rattle.std.specs.Prelude.{◌≡◌, ℕ, List, [], ◌++◌, decimal, OnOk, OnErr};

use crate::memory::OutOfMemory;
use itoa::Buffer;
use std::alloc::Global;
use std::marker::Model;

/// A list of bytes that grows at its end. A clause sees the bytes.
#[derive(Debug, Drop)]
pub struct Text {
    held: Vec<u8>,
}

impl Model for Text {
    ghost Value = { List ℕ };

    ghost view = { λ t. t.held.items };
}

impl Text {
    /// An empty text. It takes no memory before it grows.
    pub fn new(alloc: Global) -> Text
        ensures { result ≡ [] }
    {
        Text {
            held: Vec::new(alloc),
        }
    }

    /// Adds bytes at the end.
    pub fn append(&mut self, bytes: &[u8]) -> Result<(), OutOfMemory>
        ensures ok { OnOk result (self.new ≡ self.old ++ bytes.now) }
        ensures err { OnErr result (self.new ≡ self.old) }
    {
        self.held.extend_from_slice(bytes)?;
        Ok(())
    }

    /// Adds the number at the end, as a decimal without leading zeros.
    pub fn append_number(&mut self, number: u64) -> Result<(), OutOfMemory>
        ensures ok { OnOk result (self.new ≡ self.old ++ decimal number) }
        ensures err { OnErr result (self.new ≡ self.old) }
    {
        let mut buffer = Buffer::new();
        self.append(buffer.format(number).as_bytes())
    }

    /// The bytes of the text.
    pub fn bytes(&self) -> &[u8]
        ensures { result.now ≡ self.now }
    {
        self.held.as_slice()
    }

    /// Makes the text empty, and keeps its memory for what is added next.
    pub fn clear(&mut self)
        ensures { self.new ≡ [] }
    {
        self.held.clear();
    }
}
