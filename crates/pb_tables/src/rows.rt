ghost use Rattle.std.specs.Prelude.{◌≡◌, ◌<◌, ◌≤◌, ◌*◌, ◌+◌, ◌++◌, ℕ, List, [], length, slice_index, take, vec_len, IfOk, OnOk, OnErr, IfErr};
ghost use Rattle.std.specs.Result.{result_unwrap_or};
ghost use Rattle.pb_tables.specs.Computed.{written, answer_of};
ghost use Rattle.pb_tables.specs.Tables.{IsTable, IsWritten, IsRefused, kept, row_at};

use crate::drafts::{Draft, MOST};
use crate::seq_rows::SeqRow;
use pb_words::{OutOfMemory, Refusal};
use std::alloc::Global;
use std::marker::Model;

/// The table of a sequencer: whole rows of four words each, at most 4,096. A clause sees the words.
#[derive(Drop)]
pub struct Rows {
    table: Vec<u32>,
    used: usize,
    draft: Draft,
}

impl Model for Rows {
    ghost Value = { List ℕ };

    ghost view = { λ r. take r.used r.table.items };

    ghost invariant = { λ r. (r.used ≤ 16384) × (vec_len r.table ≡ 16384) × IsTable (take r.used r.table.items) };
}

impl Rows {
    /// An empty table. It takes all the memory that it needs.
    pub fn new(alloc: Global) -> Result<Rows, OutOfMemory>
        ensures { IfOk result (λ r. r ≡ []) }
    {
        let table = Vec::from_elem(alloc, 0, MOST)?;
        let draft = Draft::new(alloc)?;
        Ok(Rows {
            table,
            used: 0,
            draft,
        })
    }

    /// Writes the words of a body, numbers or base64, in place of the table's or behind them. A refused write changes
    /// nothing. The first reason counts: as numbers `MalformedValue` where something is no number and `ValueOutOfRange`
    /// where one is above 4,294,967,295; in base64 `MalformedBase64`, and `NotWholeRows` where the bytes end within a
    /// word; then for both `NotWholeRows`, `TableTooLong` above 4,096 rows, and `ValueOutOfRange` for a trigger above 12.
    pub fn write(&mut self, append: bool, base64: bool, body: &[u8]) -> Result<(), Refusal>
        ensures ok { OnOk result (IsWritten self.old append base64 body.now self.new) }
        ensures err { IfErr result (IsRefused self.old append base64 body.now) }
        ensures same { OnErr result (self.new ≡ self.old) }
        ensures told { result ≡ answer_of (written self.old append base64 body.now) }
        ensures left { self.new ≡ result_unwrap_or (written self.old append base64 body.now) self.old }
    {
        let start = self.kept(append);
        match self.draft.read(base64, body) {
            Ok(()) => {}
            Err(refusal) => return Err(refusal),
        }
        match self.draft.check(start) {
            Ok(()) => {}
            Err(reason) => return Err(reason),
        }
        let end = start + self.draft.count;
        put_at(
            self.table.as_mut_slice(),
            start,
            &self.draft.words[..self.draft.count],
        );
        self.used = end;
        Ok(())
    }

    /// How many words stay before those of a body.
    fn kept(&self, append: bool) -> usize
        ensures kept { result ≡ length (kept append self.now) }
        ensures short { result ≤ 16384 }
    {
        if append { self.used } else { 0 }
    }

    /// How many words there are.
    pub fn len(&self) -> usize
        ensures len { result ≡ length self.now }
        ensures table { IsTable self.now }
    {
        self.used
    }

    pub fn word(&self, i: usize) -> u32
        requires { i < length self.now }
        ensures { result ≡ slice_index self.now i }
    {
        self.table[i]
    }

    /// Row i, counted from 0.
    pub fn row(&self, i: usize) -> SeqRow
        requires { 4 * i < length self.now }
        ensures { result ≡ row_at self.now i }
    {
        let _used = &self.used;
        let flags = self.word(4 * i);
        SeqRow {
            repeats: (flags % 0x1_0000) as u16,
            trigger: (flags / 0x1_0000 % 16) as u8,
            out1: (flags / 0x10_0000 % 64) as u8,
            out2: (flags / 0x400_0000) as u8,
            position: self.word(4 * i + 1).cast_signed(),
            time1: self.word(4 * i + 2),
            time2: self.word(4 * i + 3),
        }
    }
}

/// Writes the words into the table from this place on.
fn put_at(table: &mut [u32], start: usize, words: &[u32])
    requires { start + length words.now ≤ length table.old }
    ensures { take (start + length words.now) table.new ≡ take start table.old ++ words.now }
{
    let end = start + words.len();
    table[start..end].copy_from_slice(words);
}
