ghost use Rattle.std.specs.Prelude.{◌≡◌, ◌++◌, codes, OnOk};
ghost use Rattle.pb_fields.specs.Names.{target_of};
ghost use Rattle.pb_fields.specs.Slots.{IsSlot};
ghost use Rattle.pb_replies.specs.Replies.{listed};

use pb_fields::{Slot, name};
use pb_words::{OutOfMemory, Text};

/// Adds the line of a slot with its value.
pub(crate) fn add_value(text: &mut Text, slot: Slot, value: &[u8]) -> Result<(), OutOfMemory>
    requires { IsSlot slot }
    ensures { OnOk result (text.new ≡ text.old ++ listed (target_of slot ++ codes "=" ++ value.now)) }
{
    let mut target = [0; 64];
    let len = name(slot, &mut target);
    text.append(b"!")?;
    text.append(&target[..len])?;
    text.append(b"=")?;
    text.append(value)?;
    text.append(b"\n")
}

/// Adds the line of a table.
pub(crate) fn add_table(text: &mut Text, slot: Slot) -> Result<(), OutOfMemory>
    requires { IsSlot slot }
    ensures { OnOk result (text.new ≡ text.old ++ listed (target_of slot ++ codes "<")) }
{
    let mut target = [0; 64];
    let len = name(slot, &mut target);
    text.append(b"!")?;
    text.append(&target[..len])?;
    text.append(b"<\n")
}
