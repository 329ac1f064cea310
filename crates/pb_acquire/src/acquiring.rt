ghost use Rattle.std.specs.Prelude.{◌≡◌, ◌≤◌, ◌+◌, ◌-◌, ◌^◌, ◌<◌, ◌++◌, true, false, is_none, Some, None, IfOk, IfErr, OnOk, OnErr, IsSome, is_some, MatchOption};
ghost use Rattle.std.specs.List.{filter};
ghost use Rattle.std.specs.Borrow.{sem};
ghost use Rattle.pb_acquire.specs.Readers.{reader_at, with_reader_at, is_needed as is_needed_by};
ghost use Rattle.pb_acquire.specs.Acquisitions.{AllAcquisitions, opening, room_of, arm_refusal, armed, ended, captured, condition_of};
ghost use Rattle.pb_acquire.specs.Kept.{Agrees, IsFault, StaysUnlessBytes, spare_of, stored_if, over_by};
ghost use Rattle.pb_acquire.specs.Lending.{LendsRecords};
ghost use Rattle.pb_acquire.specs.Taking.{reader_of, opened, closed, armed_at, is_active_reader, own, taken_if_armed, take_of, piece_of, after_take, HandsBytes};

use crate::faults::ArmFault;
use crate::readers::{Piece, Reader, Taken, is_needed};
use crate::storing::{Completed, find_held, let_go};
use crate::taking::taken_of;
use pb_buses::Condition;
use pb_encode::Options;
use pb_pcap::{Layout, Records};
use pb_words::{OutOfMemory, Refusal};
use std::alloc::Global;
use std::marker::Model;
use std::mem;

/// So many bytes of raw records an acquisition can have: 64 MiB.
pub const RECORDS_LIMIT: u64 = 67_108_864;

/// The most acquisitions that are held.
pub const HELD_LIMIT: u64 = 4;

/// The most bytes of raw records in a piece.
pub const PIECE_LIMIT: u64 = 65_536;

/// All acquisitions since the start, and their readers. The records of one are held while it is armed or running, or
/// while an open reader has still to take from it.
#[derive(Drop)]
pub struct Acquisitions {
    alloc: Global,
    /// The records of the one that is armed or running.
    running: Option<Records>,
    /// How many records the last one had that is over, 0 before the first.
    captured: u64,
    /// How it ended.
    condition: Option<Condition>,
    /// How many are over.
    made: u64,
    /// Those that are over and held, in the order of arming.
    held: Vec<Completed>,
    /// The readers that are open, by their ids from 1 on.
    readers: [Option<Reader>; 8],
}

impl Model for Acquisitions {
    ghost use Rattle.std.specs.Prelude.{◌-◌, ◌≡◌, vec_len, length};
    ghost use Rattle.std.specs.Vec.{vec_capacity};
    ghost use Rattle.pb_acquire.specs.Kept.{Kept};

    ghost Value = { Kept };

    ghost view = { λ a. record {
      running = a.running;
      captured = a.captured;
      condition = a.condition;
      made = a.made;
      held = a.held.items;
      places = vec_capacity a.held - vec_len a.held;
      readers = a.readers;
    } };

    ghost invariant = { λ a. length a.readers ≡ 8 };
}

/// The place of a reader among all.
fn slot(id: u32) -> usize
    requires first { 1 ≤ id }
    requires last { id ≤ 8 }
    ensures value { result ≡ id - 1 }
    ensures small { result < 8 }
{
    (id - 1) as usize
}

impl Acquisitions {
    /// No acquisition yet.
    pub fn new(alloc: Global) -> Result<Acquisitions, OutOfMemory>
        ensures { IfOk result (λ acquisitions. Agrees acquisitions opening) }
    {
        Ok(Acquisitions {
            alloc,
            running: None,
            captured: 0,
            condition: None,
            made: 0,
            held: Vec::new(alloc),
            readers: [None; 8],
        })
    }

    /// Arms an acquisition with this layout, and answers for how many records there is room. It is refused
    /// where one is armed or running, then where the layout has no field, and then where four are held. It takes
    /// memory for the first record, and for a place among those that are held. Where it fails nothing changes.
    /// Acquisitions have numbers below 2^64: behind the last, it fails as for want of memory.
    pub fn arm(&mut self, layout: Layout) -> Result<u64, ArmFault>
        ensures room { IfOk result (λ room. room ≡ room_of layout) }
        ensures ok { (all : AllAcquisitions) → Agrees self.old all →
            OnOk result ((arm_refusal all layout ≡ None) × Agrees self.new (armed layout all)) }
        ensures first { OnOk result (1 ≤ spare_of self.new) }
        ensures idle { OnOk result (is_none self.old.running ≡ true) }
        ensures runs { OnOk result (is_none self.new.running ≡ false) }
        ensures fault { (all : AllAcquisitions) → Agrees self.old all → IfErr result (IsFault (arm_refusal all layout)) }
        ensures err { OnErr result (self.new ≡ self.old) }
    {
        if self.running.is_some() {
            return Err(ArmFault::Refused(Refusal::AlreadyArmed));
        }
        if layout.len() == 0 {
            return Err(ArmFault::Refused(Refusal::NothingCaptured));
        }
        if self.held.len() as u64 >= HELD_LIMIT {
            return Err(ArmFault::Refused(Refusal::TooManyHeld));
        }
        if self.made >= u64::MAX - 1 {
            return Err(ArmFault::OutOfMemory);
        }
        let room = RECORDS_LIMIT / layout.size() as u64;
        let mut records = Records::new(self.alloc, layout);
        match records.reserve() {
            Ok(()) => {}
            Err(_) => return Err(ArmFault::OutOfMemory),
        }
        match self.held.reserve(1) {
            Ok(()) => {}
            Err(_) => return Err(ArmFault::OutOfMemory),
        }
        self.running = Some(records);
        Ok(room)
    }

    /// Ends the acquisition that is armed or running, by a command. It is refused where there is none.
    pub fn disarm(&mut self) -> Result<(), Refusal>
        ensures ok { (all : AllAcquisitions) → Agrees self.old all →
            OnOk result (IsSome all.running × Agrees self.new (ended Condition.Disarmed all)) }
        ensures err { (all : AllAcquisitions) → Agrees self.old all →
            IfErr result (λ refusal. (refusal ≡ Refusal.NotArmed) × (all.running ≡ None)) }
        ensures ran { OnOk result (is_none self.old.running ≡ false) }
        ensures over { OnOk result (is_none self.new.running ≡ true) }
        ensures same { OnErr result (self.new ≡ self.old) }
    {
        if self.running.is_none() {
            return Err(Refusal::NotArmed);
        }
        self.complete(Condition::Disarmed);
        Ok(())
    }

    /// The records of the acquisition that is armed or running, for more to be added. None where there is none.
    pub fn running(&mut self) -> Option<&mut Records>
        ensures* lends { sem 𝓛 (LendsRecords self.entry result) }
        ensures value { MatchOption result (self.old.running ≡ None) (λ records. self.old.running ≡ Some records.now) }
        ensures cause { (all : AllAcquisitions) → Agrees self.old all → is_some result ≡ is_some all.running }
    {
        self.running.as_mut()
    }

    /// Whether one is armed or running.
    pub fn is_running(&self) -> bool
        ensures { (all : AllAcquisitions) → Agrees self.now all → result ≡ is_some all.running }
    {
        self.running.is_some()
    }

    /// The acquisition that is armed or running is over. Its records are let go, unless a reader has still to take
    /// from it; how many they were and how it ended stays.
    pub fn complete(&mut self, condition: Condition)
        requires { IsSome self.old.running }
        ensures ended { (all : AllAcquisitions) → Agrees self.old all → Agrees self.new (ended condition all) }
        ensures over { is_none self.new.running ≡ true }
    {
        self.captured = self.captured();
        self.condition = Some(condition);
        let Some(records) = mem::replace(&mut self.running, None) else {
            return;
        };
        self.store(records, condition);
        self.made = self.made.saturating_add(1);
    }

    /// Puts one that is over among those that are held, if a reader has still to take from it. `arm` made room for it.
    fn store(&mut self, records: Records, condition: Condition)
        ensures held { 1 ≤ self.old.places → self.new.held ≡ self.old.held ++ stored_if (is_needed_by self.old.readers self.old.made) (over_by self.old.made records condition) }
        ensures running { self.new.running ≡ self.old.running }
        ensures made { self.new.made ≡ self.old.made }
        ensures captured { self.new.captured ≡ self.old.captured }
        ensures condition { self.new.condition ≡ self.old.condition }
        ensures readers { self.new.readers ≡ self.old.readers }
    {
        if is_needed(&self.readers, self.made) {
            let _ = self.held.push(Completed {
                before: self.made,
                records,
                condition,
            });
        }
    }

    /// How many records the latest acquisition has, 0 before the first.
    pub fn captured(&self) -> u64
        ensures { (all : AllAcquisitions) → Agrees self.now all → result ≡ captured all }
    {
        match &self.running {
            Some(records) => records.len(),
            None => self.captured,
        }
    }

    /// How the latest acquisition ended: None before the first, and while one is armed or running.
    pub fn condition(&self) -> Option<Condition>
        ensures { (all : AllAcquisitions) → Agrees self.now all → result ≡ condition_of all }
    {
        match &self.running {
            Some(_) => None,
            None => self.condition,
        }
    }

    /// Opens a reader with an id from 1 to 8, in place of one that is open. It begins with the acquisition that is
    /// armed or running, or else with the next one.
    pub fn open(&mut self, id: u32, options: Options)
        requires first { 1 ≤ id }
        requires last { id ≤ 8 }
        ensures readers { (all : AllAcquisitions) → Agrees self.old all → Agrees self.new (opened id options all) }
        ensures same { self.new.running ≡ self.old.running }
    {
        self.put_reader(id, Some(Reader::from(options, self.made)));
    }

    /// Closes the reader of an id from 1 to 8, if it is open.
    pub fn close(&mut self, id: u32)
        requires first { 1 ≤ id }
        requires last { id ≤ 8 }
        ensures readers { (all : AllAcquisitions) → Agrees self.old all → Agrees self.new (closed id all) }
        ensures same { self.new.running ≡ self.old.running }
    {
        self.put_reader(id, None);
    }

    /// Puts a reader in the place of what there was, and lets go of what is needed no more.
    fn put_reader(&mut self, id: u32, reader: Option<Reader>)
        requires first { 1 ≤ id }
        requires last { id ≤ 8 }
        ensures readers { self.new.readers ≡ with_reader_at self.old.readers id reader }
        ensures held { self.new.held ≡ filter (λ over. is_needed_by (with_reader_at self.old.readers id reader) over.before) self.old.held }
        ensures places { self.old.places ≤ self.new.places }
        ensures running { self.new.running ≡ self.old.running }
        ensures made { self.new.made ≡ self.old.made }
        ensures captured { self.new.captured ≡ self.old.captured }
        ensures condition { self.new.condition ≡ self.old.condition }
    {
        self.readers[slot(id)] = reader;
        let_go(&mut self.held, &self.readers);
    }

    /// The reader of an id.
    fn reader(&self, id: u32) -> Option<Reader>
        requires first { 1 ≤ id }
        requires last { id ≤ 8 }
        ensures { result ≡ reader_at self.now.readers id }
    {
        self.readers[slot(id)]
    }

    /// Whether the reader of an id from 1 to 8 is open.
    pub fn is_open(&self, id: u32) -> bool
        requires first { 1 ≤ id }
        requires last { id ≤ 8 }
        ensures { (all : AllAcquisitions) → Agrees self.now all → result ≡ is_some (reader_of all id) }
    {
        self.reader(id).is_some()
    }

    /// Whether the reader of an id from 1 to 8 is open, its acquisition has been armed, and the end of it wasn't
    /// taken.
    pub fn is_active(&self, id: u32) -> bool
        requires first { 1 ≤ id }
        requires last { id ≤ 8 }
        ensures { (all : AllAcquisitions) → Agrees self.now all → result ≡ is_active_reader all (reader_of all id) }
    {
        match self.reader(id) {
            None => false,
            Some(reader) => !reader.has_ended && self.has_armed(reader.before),
        }
    }

    /// Whether the acquisition that so many came before has been armed.
    fn has_armed(&self, before: u64) -> bool
        ensures { (all : AllAcquisitions) → Agrees self.now all → result ≡ is_some (armed_at all before) }
    {
        if before < self.made {
            return true;
        }
        before == self.made && self.running.is_some()
    }

    /// What the reader of an id from 1 to 8 takes. An acquisition is handed out as its header, where it is wanted,
    /// pieces of its records, and its end. A reader that isn't open takes nothing yet. Want of memory comes only
    /// where there are bytes to hand out, and changes nothing.
    pub fn take(&mut self, id: u32) -> Result<Piece, OutOfMemory>
        requires first { 1 ≤ id }
        requires last { id ≤ 8 }
        ensures ok { (all : AllAcquisitions) → Agrees self.old all →
            IfOk result (λ piece. (piece ≡ piece_of (take_of all id)) × Agrees self.new (after_take id all)) }
        ensures memory { (all : AllAcquisitions) → Agrees self.old all → OnErr result (HandsBytes (take_of all id)) }
        ensures nothing { IfOk result (StaysUnlessBytes self.old self.new) }
        ensures err { OnErr result (self.new ≡ self.old) }
        ensures same { self.new.running ≡ self.old.running }
    {
        match self.taken(id)? {
            Taken::Done => Ok(Piece::Done),
            Taken::NotYet => Ok(Piece::NotYet),
            Taken::Bytes { text, reader } => {
                self.put_reader(id, Some(reader));
                Ok(Piece::Bytes(text))
            }
        }
    }

    /// What the reader of an id takes.
    fn taken(&self, id: u32) -> Result<Taken, OutOfMemory>
        requires first { 1 ≤ id }
        requires last { id ≤ 8 }
        ensures ok { (all : AllAcquisitions) → Agrees self.now all → IfOk result (λ taken. taken ≡ take_of all id) }
        ensures err { (all : AllAcquisitions) → Agrees self.now all → OnErr result (HandsBytes (take_of all id)) }
    {
        let Some(reader) = self.reader(id) else {
            return Ok(Taken::NotYet);
        };
        if reader.has_ended {
            return Ok(Taken::Done);
        }
        if reader.before < self.made {
            self.taken_of_held(&reader)
        } else if reader.before == self.made {
            self.taken_of_running(&reader)
        } else {
            Ok(Taken::NotYet)
        }
    }

    /// What a reader takes of one that is over.
    fn taken_of_held(&self, reader: &Reader) -> Result<Taken, OutOfMemory>
        requires over { reader.now.before < self.now.made }
        requires next { reader.now.before + 1 < 2 ^ 64 }
        ensures ok { (all : AllAcquisitions) → Agrees self.now all → is_needed_by self.now.readers reader.now.before ≡ true →
            IfOk result (λ taken. taken ≡ taken_if_armed reader.now (own reader.now all)) }
        ensures err { (all : AllAcquisitions) → Agrees self.now all → is_needed_by self.now.readers reader.now.before ≡ true →
            OnErr result (HandsBytes (taken_if_armed reader.now (own reader.now all))) }
    {
        match find_held(self.held.as_slice(), reader.before) {
            Some(over) => taken_of(self.alloc, reader, &over.records, Some(over.condition)),
            None => Ok(Taken::NotYet),
        }
    }

    /// What a reader takes of the one that is armed or running, if there is one.
    fn taken_of_running(&self, reader: &Reader) -> Result<Taken, OutOfMemory>
        requires { reader.now.before ≡ self.now.made }
        ensures ok { (all : AllAcquisitions) → Agrees self.now all → IfOk result (λ taken. taken ≡ taken_if_armed reader.now (own reader.now all)) }
        ensures err { (all : AllAcquisitions) → Agrees self.now all → OnErr result (HandsBytes (taken_if_armed reader.now (own reader.now all))) }
    {
        match &self.running {
            Some(records) => taken_of(self.alloc, reader, records, None),
            None => Ok(Taken::NotYet),
        }
    }
}
