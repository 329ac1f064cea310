ghost use Rattle.std.specs.Prelude.{◌≡◌, ◌+◌, ◌<◌, ◌≤◌, ◌^◌, [], IfOk, IfErr};
ghost use Rattle.pb_fields.specs.Slots.{role_at, kind_of};
ghost use Rattle.pb_fields.specs.Values.{IsRaw};

mod advancing;
mod applying;
mod setting;
mod telling;

use crate::events::Answer;
use crate::sessions::Sessions;
use pb_acquire::Acquisitions;
use pb_config::Config;
use pb_fields::{Catalog, Role, Slot};
use pb_jump::Sim;
use pb_stim::Stimulus;
use pb_tables::Rows;
use pb_words::{Steps, Text};
use std::alloc::Global;
use std::marker::Model;
use std::mem;
use std::sync::ledger::Ledger;

/// The box with its settings, its stimulus and its sessions, which events drive. A clause sees the settings with the numbers of
/// the last assignments, what was last reported to the control sessions that are open, and what is kept of the acquisitions with
/// their readers and of the box, whose blocks stand at ticks of their own.
#[derive(Drop)]
pub struct Core {
    alloc: Global,
    catalog: Catalog,
    config: Config,
    sim: Sim,
    sessions: Sessions,
    acquisitions: Acquisitions,
    /// The memory of the last reply that was given back.
    spare: Text,
}

impl Model for Core {
    ghost use Rattle.pb_core.specs.Kept.{KeptCore};
    ghost use Rattle.std.specs.Prelude.{◌≡◌, is_none};
    ghost use Rattle.pb_going.specs.Sims.{now_of};
    ghost use Rattle.pb_model.specs.Arming.{is_capture_idle};

    ghost Value = { KeptCore };

    ghost view = { λ c. record { config = c.config; sim = c.sim; sessions = c.sessions; acquisitions = c.acquisitions } };

    ghost invariant = { λ c. is_capture_idle (now_of c.sim).blocks ≡ is_none c.acquisitions.running };
}

impl Core {
    ghost use Rattle.pb_fields.specs.Slots.{IsSlot};
    ghost use Rattle.pb_names.specs.declared.seq.TheConstants as seq;
    ghost use Rattle.pb_model.specs.Settings.{read_of};
    ghost use Rattle.pb_model.specs.Tables.{table_of};
    ghost use Rattle.pb_going.specs.Sims.{outdated};
    ghost use Rattle.pb_core.specs.Core.{CoreState, opening};
    ghost use Rattle.pb_core.specs.Kept.{box_of, Agrees};
    ghost use Rattle.pb_core.specs.Sessions.{IsSession, is_open, is_reading};

    /// The core as it opens at tick 0. Where there is no memory for its catalogue, its settings or its box,
    /// the stimulus is handed back.
    pub fn new(alloc: Global, stimulus: Stimulus) -> Result<Core, Stimulus>
        ensures ok { IfOk result (λ core. Agrees core (opening stimulus)) }
        ensures known { IfOk result (λ core. outdated core.sim ≡ 0) }
        ensures err { IfErr result (λ back. back ≡ stimulus) }
    {
        let Ok(catalog) = Catalog::new(alloc) else {
            return Err(stimulus);
        };
        let Ok(config) = Config::new(alloc) else {
            return Err(stimulus);
        };
        let Ok(acquisitions) = Acquisitions::new(alloc) else {
            return Err(stimulus);
        };
        match Sim::new(alloc, stimulus) {
            Ok(sim) => Ok(Core {
                alloc,
                catalog,
                config,
                sim,
                sessions: Sessions::new(),
                acquisitions,
                spare: Text::new(alloc),
            }),
            Err(stimulus) => Err(stimulus),
        }
    }

    /// The tick at which the box stands.
    pub fn now(&self) -> u64
        ensures now { result ≡ self.now.sim.tick }
        ensures small { result < 2 ^ 62 }
    {
        self.sim.now()
    }

    /// Whether the control session of this id is open.
    #[tactic(auto, using(crate::proofs::MarkLemmas::open_same))]
    pub fn is_open(&self, id: u32) -> bool
        requires { IsSession id }
        ensures kept { result ≡ is_open self.now.sessions id }
        ensures agrees { (core : CoreState) → Agrees self.now core → result ≡ is_open core.sessions id }
    {
        self.sessions.is_open(id)
    }

    /// Whether the data session of this id is open.
    pub fn is_reading(&self, id: u32) -> bool
        requires { IsSession id }
        ensures { (core : CoreState) → Agrees self.now core → result ≡ is_reading core.acquisitions id }
    {
        self.acquisitions.is_open(id)
    }

    /// Takes back an answer of which nothing is wanted any more: the next reply of one value stands in its memory.
    pub fn give_back(&mut self, answer: Answer)
        ensures { self.new ≡ self.old }
    {
        if let Answer::Reply(text) = answer {
            self.spare = text;
        }
    }

    /// A text without bytes, in the memory that was given back.
    pub(crate) fn empty_text(&mut self) -> Text
        ensures empty { result ≡ [] }
        ensures same { self.new ≡ self.old }
    {
        let mut text = mem::replace(&mut self.spare, Text::new(self.alloc));
        text.clear();
        text
    }

    pub(crate) fn sessions(&self) -> &Sessions
        ensures { result.now ≡ self.now.sessions }
    {
        &self.sessions
    }

    pub(crate) fn acquisitions(&self) -> &Acquisitions
        ensures { result.now ≡ self.now.acquisitions }
    {
        &self.acquisitions
    }

    /// The table of the sequencer of this number, 1 or 2.
    pub(crate) fn table(&self, instance: u8) -> &Rows
        requires from_one { 1 ≤ instance }
        requires in_count { instance ≤ seq.INSTANCES }
        ensures { result.now ≡ table_of (box_of self.now).blocks instance }
    {
        self.sim.table(instance)
    }

    pub(crate) fn sim(&self) -> &Sim
        ensures { result.now ≡ self.now.sim }
    {
        &self.sim
    }

    /// The number that a block reports, or that of the label that it reports.
    pub(crate) fn read<L: Ledger>(&mut self, slot: Slot, steps: &mut Steps<L>) -> u64
        requires slot { IsSlot slot }
        requires read { role_at slot ≡ Role.Read }
        ensures value { result ≡ read_of (box_of self.old).blocks slot }
        ensures in_range { IsRaw (kind_of slot) result }
        ensures agrees { (core : CoreState) → Agrees self.old core → Agrees self.new core }
        ensures outdated { outdated self.new.sim ≡ outdated self.old.sim }
        ensures counts { steps.new ≤ steps.old + 1 }
    {
        self.sim.peek(slot, steps)
    }

    pub(crate) fn settings(&self) -> &Config
        ensures { result.now ≡ self.now.config }
    {
        &self.config
    }

    pub(crate) fn catalog(&self) -> &Catalog {
        &self.catalog
    }

    pub(crate) fn alloc(&self) -> Global {
        self.alloc
    }
}
