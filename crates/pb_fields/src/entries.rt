ghost use Rattle.std.specs.Prelude.{◌≡◌, ◌<◌, ◌≤◌, ◌==◌, ◌&&◌, nat_le, find, IfSome};
ghost use Rattle.pb_fields.specs.Entries.{entry_of, output_entry, at_entry_of};
ghost use Rattle.pb_fields.specs.Slots.{IsSlot};
ghost use Rattle.pb_fields.specs.Runs.{run_with, run_around, IsAround};

use crate::slots::Slot;
use pb_names::{
    ITSELF, bits, clock, counter, div, inenc, lut, pcap, pcomp, position_bus, pulse, seq, srgate,
    ttlin,
};

/// The outputs of a block that drive a run of entries: for each instance in turn the fields from
/// `field` on, `outputs` of them.
#[derive(Clone, Copy)]
pub(crate) struct Run {
    pub first: u8,
    pub last: u8,
    pub block: u8,
    pub field: u8,
    pub last_field: u8,
    pub outputs: u8,
}

impl Run {
    fn has_field(&self, block: u8, field: u8) -> bool
        ensures { result ≡ (self.now.block == block && nat_le self.now.field field && nat_le field self.now.last_field) }
    {
        self.block == block && self.field <= field && field <= self.last_field
    }

    fn has_entry(&self, entry: u8) -> bool
        ensures { result ≡ (nat_le self.now.first entry && nat_le entry self.now.last) }
    {
        self.first <= entry && entry <= self.last
    }
}

/// The runs of both buses.
pub(crate) static RUNS: [Run; 13] = [
    Run {
        first: 0,
        last: 5,
        block: ttlin::BLOCK,
        field: ttlin::VAL,
        last_field: ttlin::VAL,
        outputs: 1,
    },
    Run {
        first: 6,
        last: 13,
        block: lut::BLOCK,
        field: lut::OUT,
        last_field: lut::OUT,
        outputs: 1,
    },
    Run {
        first: 14,
        last: 17,
        block: srgate::BLOCK,
        field: srgate::OUT,
        last_field: srgate::OUT,
        outputs: 1,
    },
    Run {
        first: 18,
        last: 25,
        block: div::BLOCK,
        field: div::OUTD,
        last_field: div::OUTN,
        outputs: 2,
    },
    Run {
        first: 26,
        last: 29,
        block: pulse::BLOCK,
        field: pulse::OUT,
        last_field: pulse::OUT,
        outputs: 1,
    },
    Run {
        first: 30,
        last: 37,
        block: counter::BLOCK,
        field: counter::CARRY,
        last_field: counter::CARRY,
        outputs: 1,
    },
    Run {
        first: 38,
        last: 39,
        block: clock::BLOCK,
        field: clock::OUT,
        last_field: clock::OUT,
        outputs: 1,
    },
    Run {
        first: 40,
        last: 53,
        block: seq::BLOCK,
        field: seq::OUTA,
        last_field: seq::ACTIVE,
        outputs: 7,
    },
    Run {
        first: 54,
        last: 57,
        block: pcomp::BLOCK,
        field: pcomp::OUT,
        last_field: pcomp::ACTIVE,
        outputs: 2,
    },
    Run {
        first: 58,
        last: 58,
        block: pcap::BLOCK,
        field: pcap::ACTIVE,
        last_field: pcap::ACTIVE,
        outputs: 1,
    },
    Run {
        first: 59,
        last: 62,
        block: bits::BLOCK,
        field: bits::OUTA,
        last_field: bits::OUTD,
        outputs: 4,
    },
    Run {
        first: position_bus::FIRST,
        last: position_bus::FIRST + 3,
        block: inenc::BLOCK,
        field: inenc::VAL,
        last_field: inenc::VAL,
        outputs: 1,
    },
    Run {
        first: position_bus::FIRST + 4,
        last: position_bus::FIRST + 11,
        block: counter::BLOCK,
        field: counter::OUT,
        last_field: counter::OUT,
        outputs: 1,
    },
];

/// The bus entry that the slot drives; none for a slot that isn't an output.
pub fn entry(slot: Slot) -> Option<u8>
    requires { IsSlot slot }
    ensures { result ≡ entry_of slot }
{
    if slot.attr != ITSELF {
        return None;
    }
    match run_with(slot.block, slot.field) {
        Some(run) => Some(run.first + (slot.instance - 1) * run.outputs + (slot.field - run.field)),
        None => None,
    }
}

/// The bus entry that the slot's field drives, whichever of its attributes the slot is; 0 where it drives none.
pub fn output_entry(slot: Slot) -> u8
    requires { IsSlot slot }
    ensures { result ≡ output_entry slot }
{
    entry(Slot {
        attr: ITSELF,
        ..slot
    })
    .unwrap_or(0)
}

/// The output that drives that bus entry; none where the entry is unused.
pub fn at_entry(entry: u8) -> Option<Slot>
    ensures output { result ≡ at_entry_of entry }
    ensures slot { IfSome result (λ slot. IsSlot slot) }
{
    match run_around(entry) {
        Some(run) => {
            let place = entry - run.first;
            Some(Slot {
                block: run.block,
                instance: place / run.outputs + 1,
                field: run.field + place % run.outputs,
                attr: ITSELF,
            })
        }
        None => None,
    }
}

/// The run that has this field.
#[tactic(auto, unfolding(crate::specs::Runs::run_with), using(crate::proofs::RunLemmas::with_field))]
fn run_with(block: u8, field: u8) -> Option<Run>
    ensures found { result ≡ run_with block field }
    ensures from_field { IfSome result (λ run. run.field ≤ field) }
{
    first_with(&RUNS, block, field)
}

fn first_with(runs: &[Run], block: u8, field: u8) -> Option<Run>
    ensures { result ≡ find (λ r. r.block == block && nat_le r.field field && nat_le field r.last_field) runs.now }
{
    runs.iter().find(|run| run.has_field(block, field)).copied()
}

/// The run that has this entry.
#[tactic(auto, unfolding(crate::specs::Runs::run_around), using(crate::proofs::RunLemmas::around_entry))]
fn run_around(entry: u8) -> Option<Run>
    ensures found { result ≡ run_around entry }
    ensures around { IfSome result (IsAround entry) }
{
    first_around(&RUNS, entry)
}

fn first_around(runs: &[Run], entry: u8) -> Option<Run>
    ensures { result ≡ find (λ r. nat_le r.first entry && nat_le entry r.last) runs.now }
{
    runs.iter().find(|run| run.has_entry(entry)).copied()
}
