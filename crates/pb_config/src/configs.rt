ghost use Rattle.std.specs.Prelude.{true, false, List, ◌≡◌, ◌<◌, ◌≤◌, ◌++◌, length, drop, IfOk, IfErr, OnOk, OnErr, IfSome};
ghost use Rattle.pb_fields.specs.Slots.{IsSlot, type_at, attribute_at, role_at};
ghost use Rattle.pb_fields.specs.Values.{IsSpelledKind, IsShownKind};
ghost use Rattle.pb_model.specs.declared.Block.{Block};
ghost use Rattle.pb_model.specs.Changes.{IsChange};
ghost use Rattle.pb_config.specs.Settings.{raw_of, text_of, kind_now};
ghost use Rattle.pb_config.specs.Defaults.{first_raws, first_texts};
ghost use Rattle.pb_config.specs.Assigning.{told, raw_given, is_assignable, is_units, target, kept_by};
ghost use Rattle.pb_config.specs.Numbers.{number_of};
ghost use Rattle.pb_config.specs.KeptConfig.{KeptConfig, fresh_config, with_assignment, with_note};
ghost use Rattle.pb_config.specs.KeptParts.{with_raw, with_kept};
ghost use Rattle.pb_config.specs.Kept.{IsKept, CanBe, is_kept};
ghost use Rattle.pb_config.specs.Showing.{is_line, is_readable, shown_at, is_scaled, scaled_shown};

use crate::changing::{change_of, is_assignable, is_units, target};
use crate::defaults::{default_at, text_at};
use crate::numbers::Numbers;
use crate::places::{PLACES, instance_place, place, units_slot};
use crate::scaling::scaled;
use crate::texts::KeptText;
use pb_fields::{Attribute, FieldKind, FieldType, Role, Slot, attribute, field_type, kind, spell};
use pb_model::Change;
use pb_words::{Decimal9, OutOfMemory, Refusal, write_decimal};
use std::alloc::Global;
use std::marker::Model;

/// The settings of the box, and which assignment was each slot's last. A clause sees the raw values, the kept
/// texts and the numbers of the assignments.
#[derive(Drop)]
pub struct Config {
    /// By the places of the slots.
    raws: Vec<u64>,
    /// By the places of the instances.
    texts: Vec<KeptText>,
    numbers: Numbers,
}

impl Model for Config {
    ghost Value = { KeptConfig };

    ghost view = { λ c. record { settings = record { raws = c.raws.items; texts = c.texts.items }; numbers = c.numbers } };

    ghost invariant = { λ c. IsKept (record { raws = c.raws.items; texts = c.texts.items }) };
}

const INSTANCES: usize = 96;

/// The longest text of the units of a position.
const UNITS_ROOM: usize = 32;

impl Config {
    /// The settings at first. Want of memory comes here alone.
    pub fn new(alloc: Global) -> Result<Config, OutOfMemory>
        ensures { IfOk result (λ config. config ≡ fresh_config) }
    {
        let raws = first_raws(alloc, PLACES)?;
        let texts = first_texts(alloc, INSTANCES)?;
        let numbers = Numbers::new(alloc)?;
        Ok(Config {
            raws,
            texts,
            numbers,
        })
    }

    /// Assigns the value to the slot, and answers what changes in the box: nothing where only the
    /// streams or the printing change. It is an assignment of the slot that it sets: of a time for its RAW.
    ///
    /// A slot that takes no value is refused as not writeable. A value that the slot doesn't take is
    /// refused as malformed, out of range or unknown. Nothing changes then.
    pub fn assign(&mut self, slot: Slot, value: &[u8]) -> Result<Option<Change>, Refusal>
        requires { IsSlot slot }
        ensures told { result ≡ told self.old.settings slot value.now }
        ensures config { self.new ≡ with_assignment self.old slot value.now }
        ensures allowed { (blocks : List Block) → IfOk result (λ change. IfSome change (λ told. IsChange blocks told)) }
        ensures same { OnErr result (self.new ≡ self.old) }
    {
        let raw = self.spelled(slot, value)?;
        self.set(target(slot), raw);
        self.keep_text(slot, value);
        Ok(change_of(slot, raw))
    }

    /// The number of the slot's last assignment, counted from 1 over all slots and kept at 2^64 - 1; 0 where
    /// there is none. Table writes count.
    pub fn assigned_at(&self, slot: Slot) -> u64
        requires { IsSlot slot }
        ensures { result ≡ number_of self.now.numbers slot }
    {
        self.numbers.of(slot)
    }

    /// How many assignments there were, kept at 2^64 - 1.
    pub fn assignments(&self) -> u64
        ensures { result ≡ self.now.numbers.count }
    {
        self.numbers.count()
    }

    /// A table was written, which counts as an assignment of it.
    pub fn note(&mut self, slot: Slot)
        requires slot { IsSlot slot }
        requires table { role_at slot ≡ Role.Table }
        ensures { self.new ≡ with_note self.old slot }
    {
        self.numbers.note(slot);
    }

    /// Writes what is printed of the slot at the front of `out`, and answers its length. A write field
    /// and an ext_out are refused as not readable, and `out` stays as it was.
    pub fn show(&self, slot: Slot, out: &mut [u8]) -> Result<usize, Refusal>
        requires slot { IsSlot slot }
        requires line { is_line slot ≡ true }
        requires room { 128 ≤ length out.old }
        ensures len { IfOk result (λ len. len ≡ length (shown_at self.now.settings slot)) }
        ensures written { OnOk result (out.new ≡ shown_at self.now.settings slot ++ drop (length (shown_at self.now.settings slot)) out.old) }
        ensures readable { OnOk result (is_readable slot ≡ true) }
        ensures err { IfErr result (λ refusal. refusal ≡ Refusal.NotReadable) }
        ensures unreadable { OnErr result (is_readable slot ≡ false) }
        ensures same { OnErr result (out.new ≡ out.old) }
    {
        crate::showing::show(self, slot, out)
    }

    /// Writes the value of a position as its SCALED has it at the front of `out`, and answers the length:
    /// the value times SCALE plus OFFSET, exact, as a canonical decimal.
    pub fn show_scaled(&self, slot: Slot, value: i32, out: &mut [u8]) -> usize
        requires slot { IsSlot slot }
        requires scaled { is_scaled slot ≡ true }
        requires room { 128 ≤ length out.old }
        ensures len { result ≡ length (scaled_shown self.now.settings slot value) }
        ensures written { out.new ≡ scaled_shown self.now.settings slot value ++ drop (length (scaled_shown self.now.settings slot value)) out.old }
    {
        let billionths = scaled(self, slot, value);
        write_decimal(Decimal9 { billionths }, out)
    }

    // The raw value that the text gives.
    #[tactic(auto, using(crate::proofs::KindLemmas::target_range, crate::proofs::KindLemmas::units_range), unfolding(crate::specs::Assigning::raw_given))]
    fn spelled(&self, slot: Slot, value: &[u8]) -> Result<u64, Refusal>
        requires { IsSlot slot }
        ensures given { result ≡ raw_given self.now.settings slot value.now }
        ensures range { IfOk result (CanBe (target slot)) }
    {
        if !is_assignable(slot) {
            return Err(Refusal::NotWriteable);
        }
        if !is_units(attribute(slot)) {
            spell(self.kind(slot), value)
        } else if value.len() <= UNITS_ROOM {
            Ok(0)
        } else {
            Err(Refusal::ValueOutOfRange)
        }
    }

    /// The slot is assigned this raw value.
    pub(crate) fn set(&mut self, slot: Slot, raw: u64)
        requires slot { IsSlot slot }
        requires range { CanBe slot raw }
        ensures { self.new ≡ with_raw self.old slot raw }
    {
        self.raws[place(slot)] = raw;
        self.numbers.note(slot);
    }

    fn keep_text(&mut self, slot: Slot, value: &[u8])
        requires slot { IsSlot slot }
        requires short { IfSome (kept_by (type_at slot) (attribute_at slot) value.now) (λ _. length value.now ≤ 128) }
        ensures { self.new ≡ with_kept self.old slot (kept_by (type_at slot) (attribute_at slot) value.now) }
    {
        let at = instance_place(slot);
        match attribute(slot) {
            Some(Attribute::Units) => self.texts[at].keep(value),
            Some(_) => {}
            None => match field_type(slot) {
                FieldType::ParamLut => self.texts[at].keep_bare(value),
                _ => {}
            },
        }
    }

    /// The raw value of the slot.
    pub(crate) fn raw(&self, slot: Slot) -> u64
        requires { IsSlot slot }
        ensures raw { result ≡ raw_of self.now.settings slot }
        ensures range { CanBe slot result }
    {
        self.raws[place(slot)]
    }

    /// Writes the kept text of the slot's instance at the front of `out`, and answers its length.
    pub(crate) fn put_text(&self, slot: Slot, out: &mut [u8]) -> usize
        requires slot { IsSlot slot }
        requires room { 128 ≤ length out.old }
        ensures len { result ≡ length (text_of self.now.settings slot) }
        ensures written { out.new ≡ text_of self.now.settings slot ++ drop (length (text_of self.now.settings slot)) out.old }
    {
        self.texts[instance_place(slot)].put(out)
    }

    /// The kept text of the slot's instance.
    pub(crate) fn text(&self, slot: Slot) -> &[u8]
        requires { IsSlot slot }
        ensures { result.now ≡ text_of self.now.settings slot }
    {
        self.texts[instance_place(slot)].bytes()
    }

    /// The kind of the slot's value, a time being in the units in force.
    #[tactic(auto, using(crate::proofs::KindLemmas::shown_kind, crate::proofs::KindLemmas::spelled_kind, crate::proofs::KindLemmas::units_few))]
    pub(crate) fn kind(&self, slot: Slot) -> FieldKind
        requires { IsSlot slot }
        ensures kind { result ≡ kind_now self.now.settings slot }
        ensures shown { is_kept slot ≡ true → is_readable slot ≡ true → IsShownKind result }
        ensures spelled { is_assignable slot ≡ true → is_units (attribute_at slot) ≡ false → IsSpelledKind result }
    {
        match (attribute(slot), field_type(slot)) {
            (None, FieldType::Time { limit }) => FieldKind::Time {
                limit,
                units: self.raw(units_slot(slot)) as u8,
            },
            _ => kind(slot),
        }
    }
}

// The values of the first n places.
#[tactic(auto, using(crate::proofs::KeptLemmas::no_raws, crate::proofs::KeptLemmas::more_raws))]
fn first_raws(alloc: Global, n: usize) -> Result<Vec<u64>, OutOfMemory>
    requires { n ≤ 14112 }
    ensures { IfOk result (λ raws. raws.items ≡ first_raws n) }
{
    let mut raws = Vec::with_capacity(alloc, n)?;
    for place in 0..n {
        raws.push(default_at(place))?;
    }
    Ok(raws)
}

// The texts of the first n instances.
#[tactic(auto, using(crate::proofs::KeptLemmas::no_texts, crate::proofs::KeptLemmas::more_texts))]
fn first_texts(alloc: Global, n: usize) -> Result<Vec<KeptText>, OutOfMemory>
    ensures { IfOk result (λ texts. texts.items ≡ first_texts n) }
{
    let mut texts = Vec::with_capacity(alloc, n)?;
    for instance in 0..n {
        texts.push(KeptText::new(text_at(instance)))?;
    }
    Ok(texts)
}
