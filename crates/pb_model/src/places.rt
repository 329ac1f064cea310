ghost use Rattle.std.specs.Prelude.{◌≡◌, ◌≤◌, ◌<◌};
ghost use Rattle.pb_names.specs.declared.lut.TheConstants as lut;
ghost use Rattle.pb_names.specs.declared.pcap.TheConstants as pcap;
ghost use Rattle.pb_fields.specs.Places.{count_of};
ghost use Rattle.pb_model.specs.Machines.{machines, name, place_in};

use pb_names::{clock, counter, div, lut, pcap, pcomp, pulse, seq, srgate};

// The place of the first block of each kind among those with a machine.
const LUTS: u8 = 0;

const SRGATES: u8 = LUTS + lut::INSTANCES;

const DIVS: u8 = SRGATES + srgate::INSTANCES;

const PULSES: u8 = DIVS + div::INSTANCES;

pub(crate) const COUNTERS: u8 = PULSES + pulse::INSTANCES;

const CLOCKS: u8 = COUNTERS + counter::INSTANCES;

const SEQS: u8 = CLOCKS + clock::INSTANCES;

const PCOMPS: u8 = SEQS + seq::INSTANCES;

const PCAPS: u8 = PCOMPS + pcomp::INSTANCES;

/// How many blocks have a machine.
pub const MACHINES: u8 = PCAPS + pcap::INSTANCES;

/// The place of a block among those with a machine, by the place of its kind in the catalogue, 3 to 11,
/// and its number from 1.
#[tactic(auto, using(crate::proofs::PlaceLemmas::in_turn, crate::proofs::PlaceLemmas::in_few))]
pub fn machine(block: u8, instance: u8) -> u8
    requires from_lut { lut.BLOCK ≤ block }
    requires to_pcap { block ≤ pcap.BLOCK }
    requires from_one { 1 ≤ instance }
    requires in_count { instance ≤ count_of block }
    ensures place { result ≡ place_in machines (name block instance) }
    ensures few { result < 35 }
{
    first(block) + instance - 1
}

/// The place of the first block of a kind among those with a machine.
#[tactic(auto, unfolding(crate::specs::Machines::machines, pb_fields::specs::Catalogue::catalogue))]
fn first(block: u8) -> u8
    requires from_lut { lut.BLOCK ≤ block }
    requires to_pcap { block ≤ pcap.BLOCK }
    ensures place { result ≡ place_in machines (name block 1) }
    ensures few { result < 35 }
{
    match block {
        lut::BLOCK => LUTS,
        srgate::BLOCK => SRGATES,
        div::BLOCK => DIVS,
        pulse::BLOCK => PULSES,
        counter::BLOCK => COUNTERS,
        clock::BLOCK => CLOCKS,
        seq::BLOCK => SEQS,
        pcomp::BLOCK => PCOMPS,
        pcap::BLOCK => PCAPS,
        _ => unreachable!(),
    }
}
