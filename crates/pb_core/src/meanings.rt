ghost use Rattle.std.specs.Prelude.{◌≡◌, codes, position, IfOk};
ghost use Rattle.std.specs.Option.{option_copied};
ghost use Rattle.pb_fields.specs.Finding.{is_point};
ghost use Rattle.pb_grammar.specs.Grammar.{after_front, before_end};
ghost use Rattle.pb_core.specs.Naming.{has_point, labels_named, capture_named, changes_named, star_named, listing_named, block_named, named_by};
ghost use Rattle.pb_core.specs.Helpers.{IsThere};

use crate::targets::Named;
use pb_changes::Group;
use pb_fields::Catalog;
use pb_words::Refusal;

/// What a target names, or the first refusal that fits.
#[tactic(auto, unfolding(crate::specs::Naming::named_by))]
pub(crate) fn named_by(catalog: &Catalog, target: &[u8]) -> Result<Named, Refusal>
    ensures named { result ≡ named_by target.now }
    ensures there { IfOk result IsThere }
{
    match star_name(target) {
        Some(name) => star_named(catalog, name),
        None => block_named(catalog, target),
    }
}

/// What a star target names, by what stands after the star.
fn star_named(catalog: &Catalog, name: &[u8]) -> Result<Named, Refusal>
    ensures named { result ≡ star_named name.now }
    ensures there { IfOk result IsThere }
{
    if name == b"IDN".as_slice() {
        Ok(Named::Identity)
    } else if name == b"WHO".as_slice() {
        Ok(Named::Sessions)
    } else if name == b"BLOCKS".as_slice() {
        Ok(Named::Blocks)
    } else if name == b"POSITIONS".as_slice() {
        Ok(Named::Positions)
    } else if name == b"CAPTURE".as_slice() {
        Ok(Named::Captures)
    } else if name == b"CHANGES".as_slice() {
        Ok(Named::Changes(None))
    } else if let Some(group) = reporting(name) {
        changes_named(group)
    } else if let Some(what) = capturing(name) {
        capture_named(what)
    } else if let Some(target) = labelled(name) {
        labels_named(catalog, target)
    } else {
        Err(Refusal::NoSuchField)
    }
}

/// What a target of change reports names, by what stands after `*CHANGES.`.
fn changes_named(name: &[u8]) -> Result<Named, Refusal>
    ensures named { result ≡ changes_named name.now }
    ensures there { IfOk result IsThere }
{
    if name == b"CONFIG".as_slice() {
        Ok(Named::Changes(Some(Group::Config)))
    } else if name == b"ATTR".as_slice() {
        Ok(Named::Changes(Some(Group::Attr)))
    } else if name == b"TABLE".as_slice() {
        Ok(Named::Changes(Some(Group::Table)))
    } else if name == b"BITS".as_slice() {
        Ok(Named::Changes(Some(Group::Bits)))
    } else if name == b"POSN".as_slice() {
        Ok(Named::Changes(Some(Group::Posn)))
    } else if name == b"READ".as_slice() {
        Ok(Named::Changes(Some(Group::Read)))
    } else {
        Err(Refusal::NoSuchField)
    }
}

/// The group whose report the name of a star target asks for.
fn reporting(name: &[u8]) -> Option<&[u8]>
    ensures { option_copied result ≡ after_front (codes "CHANGES.") name.now }
{
    name.strip_prefix(b"CHANGES.".as_slice())
}

/// What a target of capture names, by what stands after `*PCAP.`.
fn capture_named(name: &[u8]) -> Result<Named, Refusal>
    ensures named { result ≡ capture_named name.now }
    ensures there { IfOk result IsThere }
{
    if name == b"ARM".as_slice() {
        Ok(Named::Arming)
    } else if name == b"DISARM".as_slice() {
        Ok(Named::Disarming)
    } else if name == b"STATUS".as_slice() {
        Ok(Named::Status)
    } else if name == b"CAPTURED".as_slice() {
        Ok(Named::Captured)
    } else if name == b"COMPLETION".as_slice() {
        Ok(Named::Completion)
    } else {
        Err(Refusal::NoSuchField)
    }
}

/// What of capture the name of a star target asks for.
fn capturing(name: &[u8]) -> Option<&[u8]>
    ensures { option_copied result ≡ after_front (codes "PCAP.") name.now }
{
    name.strip_prefix(b"PCAP.".as_slice())
}

/// The field or the attribute whose labels are named.
fn labels_named(catalog: &Catalog, target: &[u8]) -> Result<Named, Refusal>
    ensures named { result ≡ labels_named target.now }
    ensures there { IfOk result IsThere }
{
    if !has_point(target) {
        return Err(Refusal::NoSuchField);
    }
    match catalog.find(target) {
        Ok(slot) => Ok(Named::Labels(slot)),
        Err(refusal) => Err(refusal),
    }
}

/// What a target of a block names.
fn block_named(catalog: &Catalog, target: &[u8]) -> Result<Named, Refusal>
    ensures named { result ≡ block_named target.now }
    ensures there { IfOk result IsThere }
{
    match listed(target) {
        Some(front) => listing_named(catalog, front),
        None => match catalog.find(target) {
            Ok(slot) => Ok(Named::Value(slot)),
            Err(refusal) => Err(refusal),
        },
    }
}

/// All attributes of the field, or all fields of the block.
fn listing_named(catalog: &Catalog, front: &[u8]) -> Result<Named, Refusal>
    ensures named { result ≡ listing_named front.now }
    ensures there { IfOk result IsThere }
{
    if has_point(front) {
        match catalog.find(front) {
            Ok(slot) => Ok(Named::Attributes(slot)),
            Err(refusal) => Err(refusal),
        }
    } else {
        match catalog.block(front) {
            Ok(block) => Ok(Named::Fields(block)),
            Err(refusal) => Err(refusal),
        }
    }
}

/// What stands after the star of a star target.
fn star_name(target: &[u8]) -> Option<&[u8]>
    ensures { option_copied result ≡ after_front (codes "*") target.now }
{
    target.strip_prefix(b"*".as_slice())
}

/// The block or the field of which a target lists all fields or attributes.
fn listed(target: &[u8]) -> Option<&[u8]>
    ensures { option_copied result ≡ before_end (codes ".*") target.now }
{
    target.strip_suffix(b".*".as_slice())
}

/// The target whose labels the name of a star target asks for.
fn labelled(name: &[u8]) -> Option<&[u8]>
    ensures { option_copied result ≡ after_front (codes "ENUMS.") name.now }
{
    name.strip_prefix(b"ENUMS.".as_slice())
}

/// Whether the text has a point.
fn has_point(text: &[u8]) -> bool
    ensures { result ≡ has_point text.now }
{
    first_point(text).is_some()
}

fn first_point(text: &[u8]) -> Option<usize>
    ensures { result ≡ position is_point text.now }
{
    text.iter().position(|b| *b == b'.')
}
