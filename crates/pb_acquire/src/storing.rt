ghost use Rattle.std.specs.Prelude.{◌≡◌, ◌≤◌, ◌==◌, vec_len};
ghost use Rattle.std.specs.Option.{option_copied};
ghost use Rattle.std.specs.List.{filter, find};
ghost use Rattle.std.specs.Vec.{vec_capacity};
ghost use Rattle.pb_acquire.specs.Readers.{is_needed as is_needed_by};

use crate::readers::{Reader, is_needed};
use pb_buses::Condition;
use pb_pcap::Records;
use std::marker::Model;

/// An acquisition that is over and still held.
#[derive(Drop)]
pub(crate) struct Completed {
    /// How many acquisitions came before it.
    pub before: u64,
    pub records: Records,
    /// How it ended.
    pub condition: Condition,
}

impl Model for Completed {
    ghost use Rattle.std.specs.Prelude.{Some};
    ghost use Rattle.pb_acquire.specs.Kept.{Over};

    ghost Value = { Over };

    ghost view = { λ c. record {
      before = c.before;
      layout = c.records.layout;
      bytes = c.records.bytes;
      count = c.records.count;
      condition = Some c.condition;
    } };
}

impl Completed {
    /// How many acquisitions came before it.
    fn place(&self) -> u64
        ensures { result ≡ self.now.before }
    {
        self.before
    }
}

/// Lets go of those that no open reader has still to take from.
pub(crate) fn let_go(held: &mut Vec<Completed>, readers: &[Option<Reader>])
    ensures items { held.new.items ≡ filter (λ over. is_needed_by readers.now over.before) held.old.items }
    ensures len { vec_len held.new ≤ vec_len held.old }
    ensures capacity { vec_capacity held.new ≡ vec_capacity held.old }
{
    held.retain(|over| is_needed(readers, over.place()));
}

/// The one that so many acquisitions came before, if it is held.
pub(crate) fn find_held(held: &[Completed], before: u64) -> Option<&Completed>
    ensures { option_copied result ≡ find (λ over. over.before == before) held.now }
{
    held.iter().find(|over| over.place() == before)
}
