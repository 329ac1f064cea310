ghost use Rattle.std.specs.Prelude.{◌≡◌, ◌<◌, ◌≤◌, length, map, None, IfSome, IfOk, if◌then◌else◌, nat_eq, position};
ghost use Rattle.std.specs.Option.{option_copied};
ghost use Rattle.std.specs.List.{position_or_len, list_all};
ghost use Rattle.std.specs.Cmp.Lexicographic.{pointwise};
ghost use Rattle.std.proofs.Props.{props};
ghost use Rattle.std.specs.Char.{is_ascii_digit};
ghost use Rattle.pb_names.specs.declared.TheConstants.{BLOCKS};
ghost use Rattle.pb_fields.specs.Finding.{is_point, before_point, after_point, block_with, instance_numbered, field_named, attribute_named, found_of, block_found, number_of, stem_of};
ghost use Rattle.pb_fields.specs.BlockNames.{block_places, place_named};
ghost use Rattle.pb_fields.specs.Places.{count_of, fields_of, type_of};
ghost use Rattle.pb_fields.specs.Slots.{IsSlot};
ghost use Rattle.pb_fields.specs.Types.{attributes_of, attribute_text};

use crate::hashing::NameHasher;
use crate::slots::Slot;
use crate::tables::{Field, block_at, field_at};
use crate::types::{Attribute, attribute_name, attributes};
use indexmap::IndexMap;
use pb_names::{BLOCKS, ITSELF};
use pb_words::{OutOfMemory, Refusal};
use std::alloc::Global;

/// Finds blocks, fields and attributes by their names. It holds the names of the blocks with their places.
#[derive(Drop)]
pub struct Catalog {
    names: IndexMap<&'static [u8], u8, NameHasher>,
    ghost placed: { map place_named names.entries ≡ block_places } by { Prim.hlevel props },
}

impl Catalog {
    /// The catalogue. This is the one call of the crate that takes memory, and it fails only where there
    /// is none.
    pub fn new(alloc: Global) -> Result<Catalog, OutOfMemory> {
        let names = named_blocks(alloc)?;
        Ok(Catalog { names })
    }

    /// The slot that a target as `LUT1.INPA` or `LUT1.INPA.DELAY` names. The first refusal that fits is
    /// given: of the block, of its number, of the field, of the attribute.
    pub fn find(&self, target: &[u8]) -> Result<Slot, Refusal>
        ensures found { result ≡ found_of target.now }
        ensures slot { IfOk result (λ slot. IsSlot slot) }
    {
        let (name, rest) = cut_at_point(target);
        let (stem, number) = cut_at_number(name);
        let Some(block) = self.block_numbered(stem, number) else {
            return Err(Refusal::NoSuchBlock);
        };
        let Some(instance) = instance_numbered(block_at(block).1, number) else {
            return Err(Refusal::BlockNumberOutOfRange);
        };
        let Some(text) = rest else {
            return Err(Refusal::NoSuchField);
        };
        let (name, rest) = cut_at_point(text);
        let Some(field) = field_named(block, name) else {
            return Err(Refusal::NoSuchField);
        };
        let Some(attr) = attribute_named(block, field, rest) else {
            return Err(Refusal::NoSuchAttribute);
        };
        Ok(Slot {
            block,
            instance,
            field,
            attr,
        })
    }

    /// The place of the block that is named, with a number or without one.
    pub fn block(&self, name: &[u8]) -> Result<u8, Refusal>
        ensures found { result ≡ block_found name.now }
        ensures block { IfOk result (λ block. block < BLOCKS) }
    {
        let (stem, number) = cut_at_number(name);
        let Some(block) = self.block_numbered(stem, number) else {
            return Err(Refusal::NoSuchBlock);
        };
        if number.is_empty() {
            return Ok(block);
        }
        match instance_numbered(block_at(block).1, number) {
            Some(_) => Ok(block),
            None => Err(Refusal::BlockNumberOutOfRange),
        }
    }

    /// The block with this name, where digits stand after it or nothing.
    fn block_numbered(&self, stem: &[u8], number: &[u8]) -> Option<u8>
        ensures named { result ≡ (if list_all is_ascii_digit number.now then block_with stem.now else None) }
        ensures block { IfSome result (λ block. block < BLOCKS) }
    {
        if are_digits(number) {
            self.block_with(stem)
        } else {
            None
        }
    }

    /// The place of the block with this name.
    fn block_with(&self, stem: &[u8]) -> Option<u8>
        ensures named { result ≡ block_with stem.now }
        ensures block { IfSome result (λ block. block < BLOCKS) }
    {
        self.names.get(stem).copied()
    }
}

/// The names of the blocks with their places.
fn named_blocks(alloc: Global) -> Result<IndexMap<&'static [u8], u8, NameHasher>, OutOfMemory>
    ensures { IfOk result (λ names. map place_named names.entries ≡ block_places) }
{
    let mut names = IndexMap::with_capacity_and_hasher(alloc, BLOCKS as usize, NameHasher::new())?;
    for block in 0..BLOCKS {
        names.insert(block_at(block).0, block)?;
    }
    Ok(names)
}

/// What stands before the first point, and what after it, if there is one.
#[tactic(auto, using(crate::proofs::FindingLemmas::placing))]
fn cut_at_point(text: &[u8]) -> (&[u8], Option<&[u8]>)
    ensures before { result.0.now ≡ before_point text.now }
    ensures after { option_copied result.1 ≡ after_point text.now }
{
    match first_point(text) {
        Some(place) => (&text[..place], Some(&text[place + 1..])),
        None => (text, None),
    }
}

fn first_point(text: &[u8]) -> Option<usize>
    ensures place { result ≡ position is_point text.now }
    ensures within { IfSome result (λ place. place < length text.now) }
{
    text.iter().position(|b| *b == b'.')
}

/// What stands before the first digit of a name, and its number from there on.
fn cut_at_number(name: &[u8]) -> (&[u8], &[u8])
    ensures stem { result.0.now ≡ stem_of name.now }
    ensures number { result.1.now ≡ number_of name.now }
{
    name.split_at(stem_len(name))
}

/// The length of a name without its number.
#[tactic(auto, using(crate::proofs::FindingLemmas::placing))]
fn stem_len(name: &[u8]) -> usize
    ensures len { result ≡ position_or_len is_ascii_digit name.now }
    ensures within { result ≤ length name.now }
{
    match first_digit(name) {
        Some(place) => place,
        None => name.len(),
    }
}

fn first_digit(name: &[u8]) -> Option<usize>
    ensures place { result ≡ position is_ascii_digit name.now }
    ensures within { IfSome result (λ place. place < length name.now) }
{
    name.iter().position(|b| b.is_ascii_digit())
}

fn are_digits(number: &[u8]) -> bool
    ensures { result ≡ list_all is_ascii_digit number.now }
{
    number.iter().all(|b| b.is_ascii_digit())
}

/// The instance that a number names, where the block has that many.
fn instance_numbered(count: u8, number: &[u8]) -> Option<u8>
    requires { count ≤ 9 }
    ensures named { result ≡ instance_numbered count number.now }
    ensures from_1 { IfSome result (λ instance. 1 ≤ instance) }
    ensures in_count { IfSome result (λ instance. instance ≤ count) }
{
    match number {
        [] if count == 1 => Some(1),
        [digit] if b'1' <= *digit && *digit <= b'0' + count => Some(*digit - b'0'),
        _ => None,
    }
}

/// The field of that name.
fn field_named(block: u8, name: &[u8]) -> Option<u8>
    requires { block < BLOCKS }
    ensures named { result ≡ field_named block name.now }
    ensures field { IfSome result (λ field. field < length (fields_of block)) }
{
    match first_field(block_at(block).2, name) {
        Some(place) => Some(place as u8),
        None => None,
    }
}

fn first_field(rows: &[Field], name: &[u8]) -> Option<usize>
    ensures place { result ≡ position (λ row. pointwise nat_eq row.0.now name.now) rows.now }
    ensures within { IfSome result (λ place. place < length rows.now) }
{
    rows.iter().position(|row| row.0 == name)
}

/// The attribute of that name, counted from 1; the field itself where none is named.
fn attribute_named(block: u8, field: u8, name: Option<&[u8]>) -> Option<u8>
    requires block { block < BLOCKS }
    requires field { field < length (fields_of block) }
    ensures named { result ≡ attribute_named block field (option_copied name.entry) }
    ensures attribute { IfSome result (λ attr. attr ≤ length (attributes_of (type_of block field))) }
{
    let Some(name) = name else {
        return Some(ITSELF);
    };
    match first_attribute(attributes(field_at(block, field).1), name) {
        Some(place) => Some(place as u8 + 1),
        None => None,
    }
}

fn first_attribute(all: &[Attribute], name: &[u8]) -> Option<usize>
    ensures place { result ≡ position (λ attribute. pointwise nat_eq (attribute_text attribute) name.now) all.now }
    ensures within { IfSome result (λ place. place < length all.now) }
{
    all.iter()
        .position(|attribute| attribute_name(*attribute) == name)
}
