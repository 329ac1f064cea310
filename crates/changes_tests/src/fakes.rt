ghost use Rattle.changes_tests.specs.Faces.{told_of};

use pb_changes::Face;
use pb_fields::Slot;

/// A face of which one slot was assigned and one entry changed.
#[derive(Clone, Copy, Debug)]
pub struct Fake {
    pub slot: Slot,
    pub place: u64,
    pub entry: u8,
    pub changed: u64,
    pub tick: u64,
    pub count: u64,
}

impl Face for Fake {
    ghost told = { told_of };

    ghost spent = { λ f. 0 };

    ghost left = { λ f. 0 };

    fn assigned_at(&self, slot: Slot) -> u64 {
        if slot == self.slot { self.place } else { 0 }
    }

    fn changed_at(&self, entry: u8) -> u64 {
        if entry == self.entry { self.changed } else { 0 }
    }

    fn read_value(&mut self, _slot: Slot) -> u64 {
        0
    }

    fn show(&self, _slot: Slot, out: &mut [u8]) -> usize {
        out[0] = b'7';
        1
    }

    fn now(&self) -> u64 {
        self.tick
    }

    fn assignments(&self) -> u64 {
        self.count
    }
}
