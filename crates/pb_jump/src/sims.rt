ghost use Rattle.std.specs.Prelude.{◌≡◌, ◌<◌, ◌≤◌, ◌^◌, ◌++◌, List, map, replicate, true, IfOk, IfErr};
ghost use Rattle.pb_names.specs.declared.lut.TheConstants as lut;
ghost use Rattle.pb_names.specs.declared.pcap.TheConstants as pcap;
ghost use Rattle.pb_names.specs.declared.seq.TheConstants as seq;
ghost use Rattle.pb_model.specs.Machines.{machine_kinds};
ghost use Rattle.pb_model.specs.Tables.{table_of};
ghost use Rattle.pb_model.specs.Arming.{is_capture_idle};
ghost use Rattle.pb_still.specs.Eventful.{opening};
ghost use Rattle.pb_lazy.specs.Lazy.{opening_lazy};
ghost use Rattle.pb_going.specs.Sims.{Agrees, now_of, outdated, touched};

use pb_buses::Buses;
use pb_fields::instances;
use pb_lazy::Lazy;
use pb_model::machine;
use pb_names::{lut, pcap, seq};
use pb_still::{put_rows, put_values};
use pb_stim::Stimulus;
use pb_tables::Rows;
use pb_words::OutOfMemory;
use std::alloc::Global;
use std::marker::Model;

/// The box with its stimulus at a tick. A clause sees the rows of the stimulus, the tick, the buses with the ticks of
/// their last changes, the settings of BITS, each block with the tick of its own at which it stands, whether no tick was
/// made yet, and whether an event stands at the tick.
#[derive(Drop)]
pub struct Sim {
    pub(crate) tick: u64,
    pub(crate) buses: Buses,
    /// The settings A to D of BITS.
    pub(crate) settings: [bool; 4],
    /// The blocks that have a machine, in the order of the catalogue.
    pub(crate) lazies: Vec<Lazy>,
    pub(crate) stimulus: Stimulus,
    /// The place of the first row that comes after now.
    pub(crate) place: usize,
    /// The values of the ten targets of the stimulus.
    pub(crate) values: [i32; 10],
    /// No tick was made yet.
    pub(crate) first: bool,
    /// An event stands at now.
    pub(crate) stood: bool,
}

impl Model for Sim {
    ghost use Rattle.pb_going.specs.Sims.{Going, IsGoing, going};
    ghost use Rattle.pb_still.specs.Current.{IsCurrent};

    ghost Value = { Going };

    ghost view = { λ s. going s.stimulus s.tick s.buses s.settings s.lazies.items s.first s.stood };

    ghost invariant = { λ s. IsGoing (going s.stimulus s.tick s.buses s.settings s.lazies.items s.first s.stood) × IsCurrent s.stimulus s.place s.values s.tick };
}

impl Sim {
    /// The box as it opens at tick 0. Where there is no memory for it, the stimulus is handed back.
    pub fn new(alloc: Global, stimulus: Stimulus) -> Result<Sim, Stimulus>
        ensures opening { IfOk result (λ sim. Agrees sim (opening stimulus)) }
        ensures known { IfOk result (λ sim. outdated sim ≡ 0) }
        ensures idle { IfOk result (λ sim. is_capture_idle (now_of sim).blocks ≡ true) }
        ensures err { IfErr result (λ back. back ≡ stimulus) }
    {
        let Ok(lazies) = all_blocks(alloc) else {
            return Err(stimulus);
        };
        let mut buses = Buses::new();
        let mut values = [0; 10];
        let place = put_rows(&stimulus, 0, &mut values, 0);
        put_values(&mut buses, &values, 0);
        Ok(Sim {
            tick: 0,
            buses,
            settings: [false; 4],
            lazies,
            stimulus,
            place,
            values,
            first: true,
            stood: false,
        })
    }

    /// The tick at which the box stands, in ticks of 8 ns.
    pub fn now(&self) -> u64
        ensures tick { result ≡ self.now.tick }
        ensures small { result < 2 ^ 62 }
    {
        self.tick
    }

    /// The buses at this tick.
    pub fn buses(&self) -> &Buses
        ensures { result.now ≡ self.now.buses }
    {
        &self.buses
    }

    /// The table of the sequencer of this number, 1 or 2.
    pub fn table(&self, instance: u8) -> &Rows
        requires from_one { 1 ≤ instance }
        requires in_count { instance ≤ seq.INSTANCES }
        ensures { result.now ≡ table_of (now_of self.now).blocks instance }
    {
        let place = machine(seq::BLOCK, instance);
        self.lazies[place as usize].block.unit.rows()
    }

    /// An event stands at now.
    pub fn touch(&mut self)
        ensures { self.new ≡ touched self.old }
    {
        self.stood = true;
    }
}

/// All blocks as the box opens.
fn all_blocks(alloc: Global) -> Result<Vec<Lazy>, OutOfMemory>
    ensures { IfOk result (λ lazies. lazies.items ≡ map opening_lazy machine_kinds) }
{
    let mut lazies = Vec::new(alloc);
    for kind in lut::BLOCK..pcap::BLOCK + 1 {
        add(alloc, &mut lazies, kind, instances(kind))?;
    }
    Ok(lazies)
}

/// So many more blocks of a kind.
fn add(alloc: Global, lazies: &mut Vec<Lazy>, kind: u8, count: u8) -> Result<(), OutOfMemory>
    requires from_lut { lut.BLOCK ≤ kind }
    requires to_pcap { kind ≤ pcap.BLOCK }
    ensures { IfOk result (λ _. lazies.new.items ≡ lazies.old.items ++ replicate count (opening_lazy kind)) }
{
    for _ in 0..count {
        lazies.push(Lazy::new(alloc, kind)?)?;
    }
    Ok(())
}
