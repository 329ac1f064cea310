ghost use Rattle.std.specs.Prelude.{◌≡◌, ◌≢◌, ◌<◌, ◌≤◌, ◌*◌, ◌/◌, ◌%◌, ◌^◌, ◌+◌, ℕ, List, [], ◌∷◌, ◌++◌, false, true, length, slice_index, vec_len, MatchBool, IfSome, IfNone, OnOk, IfErr};

use crate::decoding::{decode, decode_whole};
use crate::reading::{are_numerals, next_number};
use crate::triggers::bad_row;
use byteorder::{ByteOrder, LittleEndian};
use pb_words::{OutOfMemory, Refusal, read_u32};
use std::alloc::Global;

/// The most words of a table.
pub(crate) const MOST: usize = 16384;

/// The words of a body, as far as it is read: the number of all, and the first of them, as many as a table has at
/// most.
#[derive(Drop)]
pub(crate) struct Draft {
    pub(crate) words: Vec<u32>,
    pub(crate) count: usize,
    ghost sized: { vec_len words ≡ 16384 },
}

impl Draft {
    ghost use Rattle.pb_tables.specs.Bodies.{Says, SaysNone, letters};
    ghost use Rattle.pb_tables.specs.Tables.{CanFollow, CannotFollow};
    ghost use Rattle.pb_tables.specs.Held.{Holds, IsRead, AreLetters};
    ghost use Rattle.pb_tables.specs.Computed.{words_in};
    ghost use Rattle.pb_words.specs.declared.refusals.Refusal.TheVariants as refusals;

    pub(crate) fn new(alloc: Global) -> Result<Draft, OutOfMemory> {
        let words = Vec::from_elem(alloc, 0, MOST)?;
        Ok(Draft { words, count: 0 })
    }

    /// Reads the words of a body. On an error what is held is of no use.
    pub(crate) fn read(&mut self, base64: bool, body: &[u8]) -> Result<(), Refusal>
        ensures ok { OnOk result (IsRead base64 body.now self.new) }
        ensures err { IfErr result (SaysNone base64 body.now) }
    {
        if base64 {
            self.read_base64(body)
        } else {
            self.read_numbers(body)
        }
    }

    /// Whether the words that are held can follow so many words of a table, or why not.
    pub(crate) fn check(&self, before: usize) -> Result<(), Refusal>
        requires { before ≤ 16384 }
        ensures ok { (words : List ℕ) → Holds self.now words → OnOk result (CanFollow before words) }
        ensures err { (words : List ℕ) → Holds self.now words → IfErr result (CannotFollow before words) }
    {
        if self.count % 4 != 0 {
            return Err(Refusal::NotWholeRows);
        }
        if MOST - before < self.count {
            return Err(Refusal::TableTooLong);
        }
        match bad_row(&self.words[..self.count]) {
            Some(_) => Err(Refusal::ValueOutOfRange),
            None => Ok(()),
        }
    }

    fn read_numbers(&mut self, body: &[u8]) -> Result<(), Refusal>
        ensures ok { OnOk result (IsRead false body.now self.new) }
        ensures err { IfErr result (SaysNone false body.now) }
    {
        if !are_numerals(body) {
            return Err(Refusal::MalformedValue);
        }
        self.count = 0;
        let mut fits = true;
        let mut rest = body;
        while let Some((digits, behind)) = next_number(rest) {
            match read_u32(digits) {
                Ok(word) => self.push(word),
                Err(_) => fits = false,
            }
            rest = behind;
        }
        if fits {
            Ok(())
        } else {
            Err(Refusal::ValueOutOfRange)
        }
    }

    /// Reads letters in chunks of sixteen, which are three words each; the last may be shorter.
    fn read_base64(&mut self, body: &[u8]) -> Result<(), Refusal>
        ensures ok { OnOk result (IsRead true body.now self.new) }
        ensures err { IfErr result (SaysNone true body.now) }
    {
        self.count = 0;
        let mut chunk = [0u8; 16];
        let mut n = 0;
        for b in body {
            if *b == b'\n' {
                continue;
            }
            if n < 16 {
                chunk[n] = *b;
                n += 1;
                continue;
            }
            if !self.add_chunk(&chunk) {
                return Err(Refusal::MalformedBase64);
            }
            chunk[0] = *b;
            n = 1;
        }
        self.add_last(&chunk[..n])
    }

    /// Adds the three words of a chunk that more letters follow. Whether there are three.
    fn add_chunk(&mut self, chunk: &[u8]) -> bool
        requires full { length chunk.now ≡ 16 }
        requires room { self.old.count + 3 < 2 ^ 64 }
        ensures count { MatchBool result (self.new.count ≡ self.old.count + 3) (self.new.count ≡ self.old.count) }
        ensures added { MatchBool result
            ((seen : List ℕ) → AreLetters self.old seen chunk.now → AreLetters self.new seen [])
            ((seen rest body : List ℕ) → AreLetters self.old seen chunk.now → letters body ≡ seen ++ rest → rest ≢ [] → SaysNone true body refusals.MalformedBase64) }
    {
        let mut out = [0u8; 12];
        if !decode_whole(chunk, &mut out) {
            return false;
        }
        self.add_words(&out);
        true
    }

    /// Adds the words of the last chunk.
    fn add_last(&mut self, chunk: &[u8]) -> Result<(), Refusal>
        requires few { length chunk.now ≤ 16 }
        requires room { self.old.count + 3 < 2 ^ 64 }
        ensures ok { (body : List ℕ) → AreLetters self.old (letters body) chunk.now → OnOk result (IsRead true body self.new) }
        ensures err { IfErr result (λ e. (body : List ℕ) → AreLetters self.old (letters body) chunk.now → SaysNone true body e) }
    {
        let mut out = [0u8; 12];
        match decode(chunk, &mut out) {
            Some(n) => {
                if n % 4 != 0 {
                    return Err(Refusal::NotWholeRows);
                }
                self.add_words(&out[..n]);
                Ok(())
            }
            None => Err(Refusal::MalformedBase64),
        }
    }

    /// Adds the words of these bytes.
    fn add_words(&mut self, bytes: &[u8])
        requires few { length bytes.now ≤ 12 }
        requires room { self.old.count + 3 < 2 ^ 64 }
        ensures count { self.new.count ≡ self.old.count + length bytes.now / 4 }
        ensures held { (words : List ℕ) → Holds self.old words → Holds self.new (words ++ words_in (length bytes.now / 4) bytes.now) }
    {
        for i in 0..bytes.len() / 4 {
            let (_before, rest) = bytes.split_at(4 * i);
            self.push(LittleEndian::read_u32(rest));
        }
    }

    fn push(&mut self, word: u32)
        requires { self.old.count + 1 < 2 ^ 64 }
        ensures count { self.new.count ≡ self.old.count + 1 }
        ensures held { (words : List ℕ) → Holds self.old words → Holds self.new (words ++ word ∷ []) }
    {
        if self.count >= MOST {
            self.count += 1;
            return;
        }
        self.words[self.count] = word;
        self.count += 1;
    }
}
