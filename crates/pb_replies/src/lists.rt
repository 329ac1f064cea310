ghost use Rattle.std.specs.Prelude.{◌≡◌, ◌<◌, true, is_some, [], map, IfOk};
ghost use Rattle.std.specs.Option.{unwrap_or};
ghost use Rattle.pb_names.specs.declared.TheConstants.{BLOCKS};
ghost use Rattle.pb_fields.specs.Slots.{IsSlot};
ghost use Rattle.pb_replies.specs.Replies.{list_reply};
ghost use Rattle.pb_replies.specs.Lists.{block_lines, field_lines, attribute_lines, labels_at, position_lines, word_lines, row_lines};

use crate::lines::{list_block, list_field, list_labels, list_shown, list_unused};
use crate::replies::{end_list, list};
use pb_fields::{FieldKind, Slot, attribute_name, attributes, field_count, field_type, kind};
use pb_names::{BLOCKS, bit_bus, position_bus};
use pb_words::{OutOfMemory, Text};
use std::alloc::Global;

/// All blocks, each with its count.
pub fn blocks_reply(alloc: Global) -> Result<Text, OutOfMemory>
    ensures { IfOk result (λ text. text ≡ list_reply block_lines) }
{
    let mut text = Text::new(alloc);
    for block in 0..BLOCKS {
        list_block(&mut text, block)?;
    }
    end_list(&mut text)?;
    Ok(text)
}

/// The fields of a block, each with its place and its type.
pub fn fields_reply(alloc: Global, block: u8) -> Result<Text, OutOfMemory>
    requires { block < BLOCKS }
    ensures { IfOk result (λ text. text ≡ list_reply (field_lines block)) }
{
    let mut text = Text::new(alloc);
    for field in 0..field_count(block) {
        list_field(&mut text, block, field)?;
    }
    end_list(&mut text)?;
    Ok(text)
}

/// The attributes of the slot's field.
pub fn attributes_reply(alloc: Global, slot: Slot) -> Result<Text, OutOfMemory>
    requires { IsSlot slot }
    ensures { IfOk result (λ text. text ≡ list_reply (attribute_lines slot)) }
{
    let mut text = Text::new(alloc);
    for attribute in attributes(field_type(slot)) {
        list(&mut text, attribute_name(*attribute))?;
    }
    end_list(&mut text)?;
    Ok(text)
}

/// Whether the slot is an enumeration, a mux, CAPTURE or the units of a time.
pub fn has_labels(slot: Slot) -> bool
    requires { IsSlot slot }
    ensures { result ≡ is_some (labels_at slot) }
{
    matches!(
        kind(slot),
        FieldKind::Enum { .. } | FieldKind::BitMux | FieldKind::PosMux
    )
}

/// The labels of a slot that has labels.
pub fn labels_reply(alloc: Global, slot: Slot) -> Result<Text, OutOfMemory>
    requires slot { IsSlot slot }
    requires labels { is_some (labels_at slot) ≡ true }
    ensures { IfOk result (λ text. text ≡ list_reply (unwrap_or (labels_at slot) [])) }
{
    let mut text = Text::new(alloc);
    list_labels(&mut text, kind(slot))?;
    end_list(&mut text)?;
    Ok(text)
}

/// The names of all 32 entries of the position bus, an unused one without a name.
pub fn positions_reply(alloc: Global) -> Result<Text, OutOfMemory>
    ensures { IfOk result (λ text. text ≡ list_reply position_lines) }
{
    let mut text = Text::new(alloc);
    list_shown(&mut text, FieldKind::PosMux, 0, position_bus::USED)?;
    list_unused(&mut text, position_bus::WIDTH - position_bus::USED)?;
    end_list(&mut text)?;
    Ok(text)
}

/// The names of the 32 bits of a word of the bit bus, an unused one without a name.
pub fn word_reply(alloc: Global, word: u8) -> Result<Text, OutOfMemory>
    requires { word < 4 }
    ensures { IfOk result (λ text. text ≡ list_reply (word_lines word)) }
{
    let first = bit_bus::WORD * word;
    let used = bit_bus::USED.saturating_sub(first).min(bit_bus::WORD);
    let mut text = Text::new(alloc);
    list_shown(&mut text, FieldKind::BitMux, first, used)?;
    list_unused(&mut text, bit_bus::WORD - used)?;
    end_list(&mut text)?;
    Ok(text)
}

/// The fields of a row of a sequencer's table, each with its bits.
pub fn row_reply(alloc: Global) -> Result<Text, OutOfMemory>
    ensures { IfOk result (λ text. text ≡ list_reply row_lines) }
{
    let mut text = Text::new(alloc);
    for field in row_fields() {
        list(&mut text, field)?;
    }
    end_list(&mut text)?;
    Ok(text)
}

#[tactic(auto, unfolding(crate::specs::Lists::row_lines))]
fn row_fields() -> &'static [&'static [u8]]
    ensures { map (λ text. text.now) result.now ≡ row_lines }
{
    &ROW_FIELDS
}

static ROW_FIELDS: [&[u8]; 17] = [
    b"15:0 REPEATS",
    b"19:16 TRIGGER",
    b"20:20 OUTA1",
    b"21:21 OUTB1",
    b"22:22 OUTC1",
    b"23:23 OUTD1",
    b"24:24 OUTE1",
    b"25:25 OUTF1",
    b"26:26 OUTA2",
    b"27:27 OUTB2",
    b"28:28 OUTC2",
    b"29:29 OUTD2",
    b"30:30 OUTE2",
    b"31:31 OUTF2",
    b"63:32 POSITION",
    b"95:64 TIME1",
    b"127:96 TIME2",
];
