ghost use Rattle.std.specs.Prelude.{◌≡◌, ◌<◌, length, IfOk};
ghost use Rattle.pb_fields.specs.Slots.{IsSlot};
ghost use Rattle.pb_config.specs.Settings.{place, place_count};
ghost use Rattle.pb_config.specs.Numbers as definition;

use crate::places::{PLACES, place};
use pb_fields::Slot;
use pb_words::OutOfMemory;
use std::alloc::Global;
use std::marker::Model;

/// The numbers of assignments, counted from 1 over all slots and kept at 2^64 - 1.
#[derive(Drop)]
pub(crate) struct Numbers {
    /// By the places of the slots the number of the last assignment; 0 where there is none.
    last: Vec<u64>,
    /// How many assignments there were.
    count: u64,
}

impl Model for Numbers {
    ghost Value = { definition.Numbers };

    ghost view = { λ n. record { last = n.last.items; count = n.count } };

    ghost invariant = { λ n. length n.last.items ≡ place_count };
}

impl Numbers {
    /// No slot was assigned.
    pub fn new(alloc: Global) -> Result<Numbers, OutOfMemory>
        ensures { IfOk result (λ numbers. numbers ≡ definition.no_numbers) }
    {
        let last = none_of(alloc, PLACES)?;
        Ok(Numbers { last, count: 0 })
    }

    /// The slot was assigned, or its table written.
    pub fn note(&mut self, slot: Slot)
        requires { IsSlot slot }
        ensures { self.new ≡ definition.noted self.old slot }
    {
        self.count = self.count.saturating_add(1);
        self.last[place(slot)] = self.count;
    }

    /// The number of the slot's last assignment.
    pub fn of(&self, slot: Slot) -> u64
        requires { IsSlot slot }
        ensures { result ≡ definition.number_of self.now slot }
    {
        self.last[place(slot)]
    }

    /// How many assignments there were.
    pub fn count(&self) -> u64
        ensures { result ≡ self.now.count }
    {
        self.count
    }
}

// Room for n slots, none of which was assigned.
#[tactic(auto, unfolding(crate::specs::Numbers::none_of))]
fn none_of(alloc: Global, n: usize) -> Result<Vec<u64>, OutOfMemory>
    ensures { IfOk result (λ last. last.items ≡ definition.none_of n) }
{
    Ok(vec![in alloc; 0; n]?)
}
