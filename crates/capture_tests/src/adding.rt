ghost use Rattle.std.specs.Prelude.{◌≡◌, ◌≤◌, IsSome, IsOk, OnOk, OnErr};
ghost use Rattle.pb_acquire.specs.Acquisitions.{AllAcquisitions, recorded};
ghost use Rattle.pb_acquire.specs.Kept.{Agrees, spare_of};

use pb_acquire::Acquisitions;
use pb_buses::Record;
use pb_words::OutOfMemory;

/// Adds a record to the acquisition that is armed or running, if any, as the core does at each tick that emits one.
pub fn add(acquisitions: &mut Acquisitions, row: &Record) -> Result<(), OutOfMemory>
    ensures ok { (all : AllAcquisitions) → Agrees acquisitions.old all → OnOk result (Agrees acquisitions.new (recorded row.now all)) }
    ensures err { OnErr result (acquisitions.new ≡ acquisitions.old) }
    ensures succeeds { 1 ≤ spare_of acquisitions.old → IsOk result }
{
    match acquisitions.running() {
        Some(records) => records.push(row),
        None => Ok(()),
    }
}

/// Makes room in memory for one more, as the core does before such a tick is stepped.
pub fn make_room(acquisitions: &mut Acquisitions) -> Result<(), OutOfMemory>
    ensures same { (all : AllAcquisitions) → Agrees acquisitions.old all → Agrees acquisitions.new all }
    ensures room { OnOk result (IsSome acquisitions.old.running → 1 ≤ spare_of acquisitions.new) }
{
    match acquisitions.running() {
        Some(records) => records.reserve(),
        None => Ok(()),
    }
}
