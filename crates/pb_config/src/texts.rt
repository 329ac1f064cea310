ghost use Rattle.std.specs.Prelude.{◌≡◌, ℕ, ◌≤◌, ◌++◌, List, length, take, drop};
ghost use Rattle.pb_words.specs.Cuts.{without_spaces};

use pb_words::{put_front, take_out_spaces};
use std::marker::Model;

const ROOM: usize = 128;

/// A text of at most 128 bytes. A clause sees the bytes.
#[derive(Drop)]
pub(crate) struct KeptText {
    bytes: [u8; 128],
    len: usize,
}

impl Model for KeptText {
    ghost Value = { List ℕ };

    ghost view = { λ t. take t.len t.bytes };

    ghost invariant = { λ t. t.len ≤ 128 };
}

impl KeptText {
    pub fn new(text: &[u8]) -> KeptText
        requires { length text.now ≤ 128 }
        ensures { result ≡ text.now }
    {
        let mut bytes = [0; ROOM];
        bytes[..text.len()].copy_from_slice(text);
        KeptText {
            bytes,
            len: text.len(),
        }
    }

    /// Keeps the text instead.
    pub fn keep(&mut self, text: &[u8])
        requires { length text.now ≤ 128 }
        ensures { self.new ≡ text.now }
    {
        self.bytes[..text.len()].copy_from_slice(text);
        self.len = text.len();
    }

    /// Keeps the text without its spaces instead.
    pub fn keep_bare(&mut self, text: &[u8])
        requires { length text.now ≤ 128 }
        ensures { self.new ≡ without_spaces text.now }
    {
        self.len = take_out_spaces(text, &mut self.bytes);
    }

    /// The text.
    pub fn bytes(&self) -> &[u8]
        ensures { result.now ≡ self.now }
    {
        &self.bytes[..self.len]
    }

    /// Writes the text at the front of `out`, and answers its length.
    pub fn put(&self, out: &mut [u8]) -> usize
        requires { 128 ≤ length out.old }
        ensures len { result ≡ length self.now }
        ensures written { out.new ≡ self.now ++ drop (length self.now) out.old }
    {
        put_front(&self.bytes[..self.len], out)
    }
}
