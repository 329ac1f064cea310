ghost use Rattle.std.specs.Prelude.{true, ◌≡◌, ◌<◌, ◌≤◌, ◌+◌, ◌++◌, All, length, take};
ghost use Rattle.pb_fields.specs.declared.Slot.{Slot as SlotValue};
ghost use Rattle.pb_fields.specs.Slots.{IsSlot};
ghost use Rattle.pb_pcap.specs.Fields.{units_of, IsNamed};
ghost use Rattle.pb_config.specs.Settings.{text_of};
ghost use Rattle.pb_config.specs.Kept.{CanBe};
ghost use Rattle.pb_config.specs.Showing.{is_scaled};
ghost use Rattle.pb_config.specs.Capturing.{position_output, own_output, output_of, capture_of, choice_of, captured_position, captured_own, layout_of};
ghost use Rattle.pb_config.specs.KeptConfig.{with_clearing};

use crate::configs::Config;
use crate::scaling::decimal_at;
use pb_fields::Slot;
use pb_names::pos_out::{CAPTURE, OFFSET, SCALE, SCALED};
use pb_names::{ITSELF, capture, counter, inenc, pcap, position_bus};
use pb_pcap::{Choice, Layout, Units, entries};
use pb_words::Decimal9;

impl Config {
    /// What a record holds by the settings: the captured positions by entry, each with its SCALE, OFFSET and UNITS,
    /// then what is captured of TS_START to BITS3.
    pub fn layout(&self) -> Layout
        ensures { result ≡ layout_of self.now.settings }
    {
        let mut layout = Layout::empty();
        for entry in 0..position_bus::USED {
            capture_position(self, entry, &mut layout);
        }
        for entry in entries::TS_START..entries::COUNT {
            capture_own(self, entry, &mut layout);
        }
        layout
    }

    /// Nothing is captured any more: every CAPTURE becomes No, which is an assignment of each.
    pub fn clear_captures(&mut self)
        ensures { self.new ≡ with_clearing self.old }
    {
        for entry in 0..position_bus::USED {
            self.set(position_slot(entry, CAPTURE), u64::from(capture::NO));
        }
        for entry in entries::TS_START..entries::COUNT {
            self.set(own_slot(entry), u64::from(capture::NO));
        }
    }
}

/// The output that an entry of a record is of: those of positions are 0 to 11, PCAP's own 32 to 39.
pub fn output(entry: u8) -> Slot
    requires { IsNamed entry }
    ensures output { result ≡ output_of entry }
    ensures slot { IsSlot result }
{
    if entry < position_bus::WIDTH {
        position_slot(entry, ITSELF)
    } else {
        own_output(entry)
    }
}

/// Adds what is captured of a position entry, 0 to 11.
fn capture_position(config: &Config, entry: u8, layout: &mut Layout)
    requires named { entry < 12 }
    requires above { All (λ field. field.entry < entry) layout.old }
    ensures added { layout.new ≡ layout.old ++ captured_position config.now.settings entry }
    ensures below { All (λ field. field.entry < entry + 1) layout.new }
{
    let choice = choice(config.raw(position_slot(entry, CAPTURE)));
    if matches!(choice, Choice::No) {
        return;
    }
    let scaled = position_slot(entry, SCALED);
    let scale = Decimal9 {
        billionths: i128::from(decimal_at(config, scaled, SCALE)),
    };
    let offset = Decimal9 {
        billionths: i128::from(decimal_at(config, scaled, OFFSET)),
    };
    layout.add(entry, choice, scale, offset, units(config, scaled));
}

/// Adds what is captured of one of PCAP's own entries, 32 to 39.
fn capture_own(config: &Config, entry: u8, layout: &mut Layout)
    requires from { 32 ≤ entry }
    requires named { entry < 40 }
    requires above { All (λ field. field.entry < entry) layout.old }
    ensures added { layout.new ≡ layout.old ++ captured_own config.now.settings entry }
    ensures below { All (λ field. field.entry < entry + 1) layout.new }
{
    if config.raw(own_slot(entry)) != u64::from(capture::VALUE) {
        return;
    }
    let none = Decimal9 { billionths: 0 };
    layout.add(entry, Choice::Value, none, none, Units::new(&[]));
}

/// The units of a position.
fn units(config: &Config, slot: Slot) -> Units
    requires { IsSlot slot }
    ensures { result ≡ units_of (take 32 (text_of config.now.settings slot)) }
{
    Units::new(first(config.text(slot)))
}

/// The first 32 bytes of a text.
fn first(text: &[u8]) -> &[u8]
    ensures first { result.now ≡ take 32 text.now }
    ensures short { length result.now ≤ 32 }
{
    if text.len() <= 32 {
        return text;
    }
    &text[..32]
}

/// What the number of a choice's label chooses.
fn choice(raw: u64) -> Choice
    ensures { result ≡ choice_of raw }
{
    if raw == u64::from(capture::VALUE) {
        Choice::Value
    } else if raw == u64::from(capture::MIN) {
        Choice::Min
    } else if raw == u64::from(capture::MAX) {
        Choice::Max
    } else if raw == u64::from(capture::SUM) {
        Choice::Sum
    } else if raw == u64::from(capture::MIN_MAX) {
        Choice::MinMax
    } else if raw == u64::from(capture::MIN_MAX_SUM) {
        Choice::MinMaxSum
    } else {
        Choice::No
    }
}

/// An attribute of the output that drives a position entry, 0 to 11.
#[tactic(auto, unfolding(pb_fields::specs::Catalogue::catalogue, pb_fields::specs::Labels::label_list))]
fn position_slot(entry: u8, attr: u8) -> Slot
    requires named { entry < 12 }
    requires attr { attr ≤ SCALED }
    ensures slot { IsSlot result }
    ensures output { result ≡ record (position_output entry) { attr = attr } }
    ensures scaled { attr ≡ SCALED → is_scaled result ≡ true }
    ensures choice { attr ≡ CAPTURE → CanBe result 0 }
{
    if entry < inenc::INSTANCES {
        Slot {
            block: inenc::BLOCK,
            instance: entry + 1,
            field: inenc::VAL,
            attr,
        }
    } else {
        Slot {
            block: counter::BLOCK,
            instance: entry - inenc::INSTANCES + 1,
            field: counter::OUT,
            attr,
        }
    }
}

/// The output of one of PCAP's own entries, 32 to 39.
fn own_output(entry: u8) -> Slot
    requires from { 32 ≤ entry }
    requires named { entry < 40 }
    ensures slot { IsSlot result }
    ensures output { result ≡ own_output entry }
{
    Slot {
        attr: ITSELF,
        ..own_slot(entry)
    }
}

/// CAPTURE of one of PCAP's own entries, 32 to 39.
#[tactic(auto, unfolding(pb_fields::specs::Catalogue::catalogue, pb_fields::specs::Labels::label_list))]
fn own_slot(entry: u8) -> Slot
    requires from { 32 ≤ entry }
    requires named { entry < 40 }
    ensures slot { IsSlot result }
    ensures output { result ≡ capture_of (own_output entry) }
    ensures choice { CanBe result 0 }
{
    Slot {
        block: pcap::BLOCK,
        instance: 1,
        field: pcap::TS_START + (entry - entries::TS_START),
        attr: CAPTURE,
    }
}
