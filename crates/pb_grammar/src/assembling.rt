ghost use Rattle.std.specs.Prelude.{◌≡◌, ◌≤◌, ◌+◌, ◌++◌, ◌∷◌, [], length, take};

use crate::queries::queried;
use crate::scanning::{LONGEST, LONGEST_BODY};
use crate::stages::{Stage, next_stage, stage_fault};
use pb_words::{OutOfMemory, Refusal};
use std::alloc::Global;
use std::marker::Model;

/// The most bytes of a command that isn't refused: a line, a body, and two newlines.
const ROOM: usize = LONGEST + 1 + LONGEST_BODY + 1;

/// Puts the commands of a stream together from its bytes, in buffers that are taken at opening.
#[derive(Drop)]
pub struct Assembler {
    bytes: Vec<u8>,
    used: usize,
    stage: Stage,
}

impl Model for Assembler {
    ghost use Rattle.std.specs.Prelude.{◌≡◌, ◌≤◌, take, vec_len};
    ghost use Rattle.pb_grammar.specs.Feeding.{Kept, room};

    ghost Value = { Kept };

    ghost view = { λ a. record { bytes = take a.used a.bytes.items; stage = a.stage } };

    ghost invariant = { λ a. (a.used ≤ room) × (vec_len a.bytes ≡ room) };
}

impl Assembler {
    ghost use Rattle.std.specs.Prelude.{◌≡◌, ◌≤◌, ◌+◌, ◌++◌, ◌∷◌, [], List, ℕ, None, IsTrue, IfOk, MatchResult, ◌↔◌, length, take};
    ghost use Rattle.pb_grammar.specs.Grammar.{command_of, Bad, IsText};
    ghost use Rattle.pb_grammar.specs.Streams.{IsWhole, is_whole, with_line, left_waiting};
    ghost use Rattle.pb_grammar.specs.Feeding.{Fed, Completed, HasWhole, IsKnown, begun_at, nothing, room};
    ghost use Rattle.pb_grammar.specs.declared.stages.Stage.TheVariants as stages;

    /// An assembler that was fed nothing. It takes all the memory that it needs.
    pub fn new(alloc: Global) -> Result<Assembler, OutOfMemory>
        ensures nothing { IfOk result (λ assembler. assembler ≡ nothing) }
        ensures fed { IfOk result (λ assembler. Fed assembler []) }
    {
        let bytes = Vec::from_elem(alloc, 0, ROOM)?;
        Ok(Assembler {
            bytes,
            used: 0,
            stage: Stage::First,
        })
    }

    /// Takes the stream's next byte, and says whether it completes a command. The byte after that begins the next one.
    /// A first line is read once more at its newline; any other byte is one step.
    pub fn feed(&mut self, byte: u8) -> bool
        ensures completes { (seen : List ℕ) → Fed self.old seen → IsTrue result ↔ IsWhole (seen ++ byte ∷ []) }
        ensures whole { (seen : List ℕ) → Fed self.old seen → IsTrue result → Completed self.new (seen ++ byte ∷ []) }
        ensures next { IsTrue result → Fed self.new [] }
        ensures begun { (seen : List ℕ) → Fed self.old seen → ¬ (IsTrue result) → Fed self.new (seen ++ byte ∷ []) }
        ensures ended { IsTrue result ↔ HasWhole self.new }
    {
        self.begin();
        self.stage = next_stage(self.stage, &self.bytes[..self.used], byte);
        self.keep(byte);
        self.has_whole()
    }

    /// Feeds the text of a line and its newline, each byte as `feed` takes it, and says whether the newline completes a
    /// command. A first line is copied at once.
    pub fn feed_line(&mut self, line: &[u8]) -> bool
        requires { IsText line.now }
        ensures whole { (seen : List ℕ) → Fed self.old seen → result ≡ is_whole (with_line seen line.now) }
        ensures completed { (seen : List ℕ) → Fed self.old seen → IsTrue result → Completed self.new (with_line seen line.now) }
        ensures fed { (seen : List ℕ) → Fed self.old seen → Fed self.new (left_waiting seen line.now) }
        ensures ended { IsTrue result ↔ HasWhole self.new }
    {
        self.begin();
        if self.keep_query(line) {
            return true;
        }
        self.feed_text(line);
        self.feed(b'\n')
    }

    /// The bytes of the command that the last byte completed, its last newline included, or why it is refused:
    /// `LineTooLong`, `NotPrintable`, `MalformedCommand` or `TableTooLong`.
    pub fn whole(&self) -> Result<&[u8], Refusal>
        requires { HasWhole self.now }
        ensures { (bytes : List ℕ) → Completed self.now bytes → MatchResult result (λ whole. (whole.now ≡ bytes) × IsKnown (command_of bytes)) (λ refusal. command_of bytes ≡ Bad refusal) }
    {
        match stage_fault(self.stage) {
            Some(refusal) => Err(refusal),
            None => Ok(&self.bytes[..self.used]),
        }
    }

    /// Forgets an unfinished command.
    pub fn clear(&mut self)
        ensures nothing { self.new ≡ nothing }
        ensures fed { Fed self.new [] }
    {
        self.used = 0;
        self.stage = Stage::First;
    }

    /// Keeps a line and its newline, where it is a query that one look shows and nothing was fed before it.
    fn keep_query(&mut self, line: &[u8]) -> bool
        ensures first { IsTrue result → self.old ≡ nothing }
        ensures whole { IsTrue result → Completed self.new (line.now ++ 10 ∷ []) }
        ensures same { ¬ (IsTrue result) → self.new ≡ self.old }
    {
        if !self.is_new() {
            return false;
        }
        match queried(line) {
            Some(_) => {
                self.keep_whole(line);
                true
            }
            None => false,
        }
    }

    /// Keeps a line and its newline as a command that isn't refused.
    fn keep_whole(&mut self, line: &[u8])
        requires new { self.old ≡ nothing }
        requires short { length line.now ≤ 4096 }
        ensures { self.new ≡ record { bytes = take room (line.now ++ 10 ∷ []); stage = stages.Whole None } }
    {
        self.keep_all(line);
        self.keep(b'\n');
        self.stage = Stage::Whole(None);
    }

    /// Whether nothing was fed.
    fn is_new(&self) -> bool
        ensures { IsTrue result → self.now ≡ nothing }
    {
        self.used == 0 && matches!(self.stage, Stage::First)
    }

    /// Feeds the text of a line: at once where it is kept whole and nothing is counted, else byte by byte.
    fn feed_text(&mut self, text: &[u8])
        requires { IsText text.now }
        ensures { (seen : List ℕ) → Fed self.old seen → Fed self.new (seen ++ text.now) }
    {
        match self.stage {
            Stage::First if text.len() < ROOM - self.used => self.keep_all(text),
            _ => self.feed_each(text),
        }
    }

    /// Feeds the text of a line byte by byte.
    fn feed_each(&mut self, text: &[u8])
        requires { IsText text.now }
        ensures { (seen : List ℕ) → Fed self.old seen → Fed self.new (seen ++ text.now) }
    {
        for b in text {
            self.feed(*b);
        }
    }

    /// Begins the next command, where one is whole.
    fn begin(&mut self)
        ensures { self.new ≡ begun_at self.old.stage self.old }
    {
        if self.has_whole() {
            self.clear();
        }
    }

    /// Whether the last byte completed a command.
    fn has_whole(&self) -> bool
        ensures { IsTrue result ↔ HasWhole self.now }
    {
        matches!(self.stage, Stage::Whole(_))
    }

    /// Keeps the byte, where it can be one of a command that isn't refused.
    fn keep(&mut self, byte: u8)
        ensures { self.new ≡ record { bytes = take room (self.old.bytes ++ byte ∷ []); stage = self.old.stage } }
    {
        self.used = put(self.bytes.as_mut_slice(), self.used, byte);
    }

    /// Keeps the text, for which there is room.
    fn keep_all(&mut self, text: &[u8])
        requires { length self.old.bytes + length text.now ≤ room }
        ensures { self.new ≡ record { bytes = self.old.bytes ++ text.now; stage = self.old.stage } }
    {
        self.used = put_all(self.bytes.as_mut_slice(), self.used, text);
    }
}

/// Puts the text behind the bytes that are used, and gives how many are used then.
fn put_all(bytes: &mut [u8], used: usize, text: &[u8]) -> usize
    requires { used + length text.now ≤ length bytes.old }
    ensures end { result ≡ used + length text.now }
    ensures kept { take result bytes.new ≡ take used bytes.old ++ text.now }
{
    let end = used + text.len();
    bytes[used..end].copy_from_slice(text);
    end
}

/// Puts the byte behind those that are used, where there is room, and gives how many are used then.
fn put(bytes: &mut [u8], used: usize, byte: u8) -> usize
    requires { used ≤ length bytes.old }
    ensures within { result ≤ length bytes.old }
    ensures kept { take result bytes.new ≡ take (length bytes.old) (take used bytes.old ++ byte ∷ []) }
{
    if used < bytes.len() {
        bytes[used] = byte;
        used + 1
    } else {
        used
    }
}
