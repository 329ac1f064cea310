ghost use Rattle.std.specs.Prelude.{◌≡◌, ℕ, true, ◌+◌, ◌<◌, ◌≤◌, ◌++◌, length, codes, slice_index_or, OnOk};
ghost use Rattle.std.specs.List.{range_with_len};
ghost use Rattle.pb_fields.specs.Names.{target_of};
ghost use Rattle.pb_fields.specs.Slots.{IsSlot, kind_of};
ghost use Rattle.pb_fields.specs.Values.{IsRaw, IsShownKind, shown};
ghost use Rattle.pb_replies.specs.Replies.{listed};
ghost use Rattle.pb_changes.specs.declared.groups.Group.{Group};
ghost use Rattle.pb_changes.specs.Groups.{is_in};
ghost use Rattle.pb_changes.specs.Helpers.{is_read_due, read_lines};
ghost use Rattle.pb_changes.specs.Kept.{read_at, AreShownAs};

use crate::faces::Face;
use crate::lines::add_value;
use pb_fields::{Slot, kind, show};
use pb_names::{ITSELF, div, pcomp, pulse, seq};
use pb_words::{OutOfMemory, Text};

/// How many read fields there are.
pub(crate) const READS: usize = 24;

/// The read fields in the order of the catalogue: block, instance and field.
static FIELDS: [(u8, u8, u8); READS] = [
    (div::BLOCK, 1, div::COUNT),
    (div::BLOCK, 2, div::COUNT),
    (div::BLOCK, 3, div::COUNT),
    (div::BLOCK, 4, div::COUNT),
    (pulse::BLOCK, 1, pulse::QUEUED),
    (pulse::BLOCK, 1, pulse::DROPPED),
    (pulse::BLOCK, 2, pulse::QUEUED),
    (pulse::BLOCK, 2, pulse::DROPPED),
    (pulse::BLOCK, 3, pulse::QUEUED),
    (pulse::BLOCK, 3, pulse::DROPPED),
    (pulse::BLOCK, 4, pulse::QUEUED),
    (pulse::BLOCK, 4, pulse::DROPPED),
    (seq::BLOCK, 1, seq::STATE),
    (seq::BLOCK, 1, seq::TABLE_LINE),
    (seq::BLOCK, 1, seq::LINE_REPEAT),
    (seq::BLOCK, 1, seq::TABLE_REPEAT),
    (seq::BLOCK, 2, seq::STATE),
    (seq::BLOCK, 2, seq::TABLE_LINE),
    (seq::BLOCK, 2, seq::LINE_REPEAT),
    (seq::BLOCK, 2, seq::TABLE_REPEAT),
    (pcomp::BLOCK, 1, pcomp::STATE),
    (pcomp::BLOCK, 1, pcomp::PRODUCED),
    (pcomp::BLOCK, 2, pcomp::STATE),
    (pcomp::BLOCK, 2, pcomp::PRODUCED),
];

/// The read field at that place among them.
fn read_slot(place: usize) -> Slot
    requires { place < 24 }
    ensures field { result ≡ read_at place }
    ensures slot { IsSlot result }
    ensures read { is_in Group.Read result ≡ true }
    ensures shown { IsShownKind (kind_of result) }
{
    let (block, instance, field) = FIELDS[place];
    Slot {
        block,
        instance,
        field,
        attr: ITSELF,
    }
}

/// The raw values of all read fields.
pub(crate) fn read_values<F: Face>(face: &mut F) -> [u64; READS]
    ensures values { AreShownAs (F.told face.old).shows result }
    ensures len { length result ≡ 24 }
    ensures same { F.told face.new ≡ F.told face.old }
    ensures work { F.spent face.new + F.left face.new ≤ F.spent face.old + F.left face.old }
{
    let mut values = [0; READS];
    for place in 0..READS {
        values[place] = face.read_value(read_slot(place));
    }
    values
}

/// Adds the lines of the read fields whose value differs from that before; of all where there is none.
pub(crate) fn add_reads(
    text: &mut Text,
    before: &Option<[u64; READS]>,
    values: &[u64; READS],
) -> Result<(), OutOfMemory>
    requires { (place : ℕ) → place < 24 → IsRaw (kind_of (read_at place)) (slice_index_or values.now place 0) }
    ensures { OnOk result (text.new ≡ text.old ++ read_lines before.now values.now (range_with_len 0 24)) }
{
    for place in 0..READS {
        if is_due(before, values, place) {
            add_read(text, place, values[place])?;
        }
    }
    Ok(())
}

/// Whether the value at the place differs from that before.
fn is_due(before: &Option<[u64; READS]>, values: &[u64; READS], place: usize) -> bool
    requires { place < 24 }
    ensures { result ≡ is_read_due before.now values.now place }
{
    match before {
        None => true,
        Some(before) => before[place] != values[place],
    }
}

/// Adds the line of the read field at the place.
fn add_read(text: &mut Text, place: usize, raw: u64) -> Result<(), OutOfMemory>
    requires place { place < 24 }
    requires range { IsRaw (kind_of (read_at place)) raw }
    ensures { OnOk result (text.new ≡ text.old ++ listed (target_of (read_at place) ++ codes "=" ++ shown (kind_of (read_at place)) raw)) }
{
    let slot = read_slot(place);
    let mut value = [0; 64];
    let len = show(kind(slot), raw, &mut value);
    add_value(text, slot, &value[..len])
}
