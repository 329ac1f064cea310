ghost use Rattle.std.specs.Prelude.{◌≡◌, ℕ, List, [], IsTrue, IfOk, MatchResult};
ghost use Rattle.pb_grammar.specs.Grammar.{IsText, command_of, Bad};
ghost use Rattle.pb_grammar.specs.Streams.{is_whole};
ghost use Rattle.pb_grammar.specs.Feeding.{Completed, HasWhole, IsKnown};
ghost use Rattle.pb_core.specs.Sessions.{IsSession};
ghost use Rattle.pb_replay.specs.Events.{nothing_waits, waits_of, with_waiting, with_line, left_waiting};
ghost use Rattle.pb_replay.specs.Waiting.{AreFed, kept_of};

use pb_grammar::Assembler;
use pb_words::{OutOfMemory, Refusal};
use std::alloc::Global;
use std::marker::Model;

/// For each of the control sessions 1 to 8 the bytes of a command that isn't whole yet.
#[derive(Drop)]
pub(crate) struct Assemblers {
    each: Vec<Assembler>,
}

impl Model for Assemblers {
    ghost use Rattle.std.specs.Prelude.{◌≡◌, List, length};
    ghost use Rattle.pb_grammar.specs.Feeding.{Kept};

    ghost Value = { List Kept };

    ghost view = { λ a. a.each.items };

    ghost invariant = { λ a. length a.each.items ≡ 8 };
}

impl Assemblers {
    /// Nothing was sent. They take all the memory that they need.
    pub(crate) fn new(alloc: Global) -> Result<Assemblers, OutOfMemory>
        ensures { IfOk result (λ assemblers. AreFed assemblers nothing_waits) }
    {
        let mut each = Vec::new(alloc);
        for _session in 0..8usize {
            each.push(Assembler::new(alloc)?)?;
        }
        Ok(Assemblers { each })
    }

    /// Feeds a line of a session, and says whether it completes a command.
    pub(crate) fn feed(&mut self, session: u32, text: &[u8]) -> bool
        requires session { IsSession session }
        requires text { IsText text.now }
        ensures whole { (waiting : List (List ℕ)) → AreFed self.old waiting → result ≡ is_whole (with_line (waits_of waiting session) text.now) }
        ensures completed { (waiting : List (List ℕ)) → AreFed self.old waiting → IsTrue result → Completed (kept_of self.new session) (with_line (waits_of waiting session) text.now) }
        ensures fed { (waiting : List (List ℕ)) → AreFed self.old waiting → AreFed self.new (with_waiting session (left_waiting (waits_of waiting session) text.now) waiting) }
        ensures ended { IsTrue result → HasWhole (kept_of self.new session) }
    {
        self.each[(session - 1) as usize].feed_line(text)
    }

    /// The bytes of the command that the last line of a session completed, or why it is refused.
    pub(crate) fn whole(&self, session: u32) -> Result<&[u8], Refusal>
        requires session { IsSession session }
        requires whole { HasWhole (kept_of self.now session) }
        ensures { (bytes : List ℕ) → Completed (kept_of self.now session) bytes → MatchResult result (λ whole. (whole.now ≡ bytes) × IsKnown (command_of bytes)) (λ refusal. command_of bytes ≡ Bad refusal) }
    {
        self.each[(session - 1) as usize].whole()
    }

    /// Forgets what a session has sent of a command.
    pub(crate) fn clear(&mut self, session: u32)
        requires { IsSession session }
        ensures { (waiting : List (List ℕ)) → AreFed self.old waiting → AreFed self.new (with_waiting session [] waiting) }
    {
        self.each[(session - 1) as usize].clear();
    }
}
