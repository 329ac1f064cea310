ghost use Rattle.pb_going.specs.Sims.{now_of};
ghost use Rattle.pb_jump.specs.Changing.{AreAwake};
ghost use Rattle.pb_core.specs.Helpers.{told_of};

use crate::showing::{ROOM, show_settled};
use pb_changes::Face;
use pb_config::Config;
use pb_fields::Slot;
use pb_jump::Sim;
use pb_words::put_front;

/// What a change report sees of a core. Every block with read fields was brought to now before, so a report makes no block
/// call of its own.
#[derive(Drop)]
pub(crate) struct Seen<'a> {
    pub(crate) config: &'a Config,
    pub(crate) sim: &'a Sim,
    ghost awake: { AreAwake sim.now },
}

impl Face for Seen<'_> {
    ghost told = { λ s. told_of s.config.now (now_of s.sim.now) };

    ghost spent = { λ s. 0 };

    ghost left = { λ s. 0 };

    fn assigned_at(&self, slot: Slot) -> u64 {
        self.config.assigned_at(slot)
    }

    fn changed_at(&self, entry: u8) -> u64 {
        self.sim.buses().changed_at(entry)
    }

    fn read_value(&mut self, slot: Slot) -> u64 {
        self.sim.read(slot)
    }

    fn show(&self, slot: Slot, out: &mut [u8]) -> usize {
        let mut text = [0; ROOM];
        let len = show_settled(self.config, self.sim, slot, &mut text);
        put_front(&text[..len], out)
    }

    fn now(&self) -> u64 {
        self.sim.now()
    }

    fn assignments(&self) -> u64 {
        self.config.assignments()
    }
}
