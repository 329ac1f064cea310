ghost use Rattle.std.specs.Prelude.{◌≡◌, ◌<◌, ◌≤◌, ◌++◌, OnOk};
ghost use Rattle.pb_fields.specs.Names.{target_of};
ghost use Rattle.pb_fields.specs.Slots.{IsSlot};
ghost use Rattle.pb_pcap.specs.Fields.{IsNamed};
ghost use Rattle.pb_encode.specs.Encoding as definition;

use pb_fields::{Slot, at_entry, name};
use pb_names::{ITSELF, pcap, position_bus};
use pb_pcap::entries;
use pb_words::{OutOfMemory, Text};

/// The most bytes that a name of the catalogue needs to be written.
const NAME: usize = 64;

/// Adds the name of an entry.
#[tactic(auto, unfolding(crate::specs::Encoding::entry_name))]
pub(crate) fn put_entry_name(text: &mut Text, entry: u8) -> Result<(), OutOfMemory>
    requires { IsNamed entry }
    ensures { OnOk result (text.new ≡ text.old ++ definition.entry_name entry) }
{
    if entry >= position_bus::WIDTH {
        return put_name(text, own_slot(entry));
    }
    match at_entry(position_bus::FIRST + entry) {
        Some(slot) => put_name(text, slot),
        None => Ok(()),
    }
}

/// The field of PCAP whose value the entry is.
fn own_slot(entry: u8) -> Slot
    requires from { 32 ≤ entry }
    requires to { entry < 40 }
    ensures value { result ≡ definition.own_slot entry }
    ensures slot { IsSlot result }
{
    Slot {
        block: pcap::BLOCK,
        instance: 1,
        field: pcap::TS_START + (entry - entries::TS_START),
        attr: ITSELF,
    }
}

/// Adds the printed target of a slot.
fn put_name(text: &mut Text, slot: Slot) -> Result<(), OutOfMemory>
    requires { IsSlot slot }
    ensures { OnOk result (text.new ≡ text.old ++ target_of slot) }
{
    let mut letters = [0; NAME];
    let len = name(slot, &mut letters);
    text.append(&letters[..len])
}
