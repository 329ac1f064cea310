ghost use Rattle.std.specs.Prelude.{◌≡◌, ◌≢◌, ◌+◌, ◌*◌, ◌<◌, ◌≤◌, List, [], ◌++◌, length, OnOk, OnErr, IsOk};
ghost use Rattle.pb_pcap.specs.Fields.{size_of};
ghost use Rattle.pb_pcap.specs.Records.{record_bytes};

use crate::layouts::Layout;
use crate::packing::put_record;
use pb_buses::Record;
use pb_words::OutOfMemory;
use std::alloc::Global;
use std::marker::Model;

/// The records of an acquisition, as bytes. A clause sees the layout, the bytes, the number of records, and
/// for how many more there is room in memory.
#[derive(Debug, Drop)]
pub struct Records {
    layout: Layout,
    held: Vec<u8>,
}

impl Model for Records {
    ghost use Rattle.std.specs.Prelude.{◌<◌, ◌/◌, ◌-◌, vec_len};
    ghost use Rattle.std.specs.Vec.{vec_capacity};
    ghost use Rattle.pb_pcap.specs.Fields.{size_of};
    ghost use Rattle.pb_pcap.specs.Records.{Held};

    ghost Value = { Held };

    ghost view = { λ r. record {
      layout = r.layout;
      bytes = r.held.items;
      count = vec_len r.held / size_of r.layout;
      spare = (vec_capacity r.held - vec_len r.held) / size_of r.layout;
    } };

    ghost invariant = { λ r. 0 < size_of r.layout };
}

impl Records {
    /// No records yet. It takes no memory before the first.
    pub fn new(alloc: Global, layout: Layout) -> Records
        requires { layout ≢ [] }
        ensures layout { result.layout ≡ layout }
        ensures bytes { result.bytes ≡ [] }
        ensures count { result.count ≡ 0 }
    {
        Records {
            layout,
            held: Vec::new(alloc),
        }
    }

    /// The layout of the records.
    pub fn layout(&self) -> &Layout
        ensures value { result.now ≡ self.now.layout }
        ensures some { 0 < size_of result.now }
    {
        &self.layout
    }

    /// Adds a record at the end.
    pub fn push(&mut self, row: &Record) -> Result<(), OutOfMemory>
        ensures layout { self.new.layout ≡ self.old.layout }
        ensures ok { OnOk result (self.new.bytes ≡ self.old.bytes ++ record_bytes self.old.layout row.now) }
        ensures count { OnOk result (self.new.count ≡ self.old.count + 1) }
        ensures err { OnErr result (self.new ≡ self.old) }
        ensures spare { self.old.spare ≤ self.new.spare + 1 }
        ensures succeeds { 1 ≤ self.old.spare → IsOk result }
    {
        self.reserve()?;
        put_record(&mut self.held, self.layout.fields(), row);
        Ok(())
    }

    /// How many records there are.
    pub fn len(&self) -> u64
        ensures { result ≡ self.now.count }
    {
        (self.held.len() / self.layout.size()) as u64
    }

    /// Their bytes.
    pub fn bytes(&self) -> &[u8]
        ensures value { result.now ≡ self.now.bytes }
        ensures room { self.now.count * size_of self.now.layout ≤ length result.now }
    {
        self.held.as_slice()
    }

    /// Makes room in memory for one more.
    pub fn reserve(&mut self) -> Result<(), OutOfMemory>
        ensures layout { self.new.layout ≡ self.old.layout }
        ensures bytes { self.new.bytes ≡ self.old.bytes }
        ensures count { self.new.count ≡ self.old.count }
        ensures ok { OnOk result (1 ≤ self.new.spare) }
        ensures err { OnErr result (self.new ≡ self.old) }
        ensures spare { self.old.spare ≤ self.new.spare }
        ensures succeeds { 1 ≤ self.old.spare → IsOk result }
    {
        self.held.reserve(self.layout.size())?;
        Ok(())
    }
}
