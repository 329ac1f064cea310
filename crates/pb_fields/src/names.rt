ghost use Rattle.std.specs.Prelude.{◌≡◌, ◌<◌, ◌≤◌, ◌++◌, length, drop};
ghost use Rattle.pb_fields.specs.Names.{target_of};
ghost use Rattle.pb_fields.specs.Slots.{IsSlot};

use crate::slots::{Slot, attribute, instances};
use crate::tables::{block_at, field_at};
use crate::types::attribute_name;
use pb_words::Line;

/// Writes the slot's printed target, as `LUT1.INPA.DELAY`, at the front of `out`, and answers its length.
pub fn name(slot: Slot, out: &mut [u8]) -> usize
    requires slot { IsSlot slot }
    requires room { 64 ≤ length out.old }
    ensures len { result ≡ length (target_of slot) }
    ensures written { out.new ≡ target_of slot ++ drop (length (target_of slot)) out.old }
{
    let mut line = Line::new();
    line.append(block_at(slot.block).0);
    if instances(slot.block) != 1 {
        line.push(b'0' + slot.instance);
    }
    line.push(b'.');
    line.append(field_at(slot.block, slot.field).0);
    if let Some(attribute) = attribute(slot) {
        line.push(b'.');
        line.append(attribute_name(attribute));
    }
    line.put(out)
}
