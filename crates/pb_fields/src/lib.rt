//! The catalogue of the box: which blocks, fields and attributes there are, how
//! they are named, what each holds, and which bus entry an output drives; and the
//! values of fields, between text and number. What the catalogue is stands in
//! `specs/Catalogue.antt` and `specs/Types.antt`, what values are in
//! `specs/Values.antt`.
#![tactic(auto)]

mod entries;
mod finding;
mod hashing;
mod kinds;
mod labels;
mod laws;
mod names;
mod orders;
mod places;
mod roles;
mod showing;
mod slots;
mod spelling;
mod tables;
mod types;
mod values;

pub use entries::{at_entry, entry, output_entry};
pub use finding::Catalog;
pub use kinds::FieldKind;
pub use labels::label_count;
pub use laws::{
    blocks_are_refused_by_their_names, entries_and_outputs_belong_to_each_other,
    following_visits_every_slot_once, labels_are_names, targets_are_refused_by_their_names,
    targets_name_their_slots,
};
pub use names::name;
pub use orders::following;
pub use places::{
    attributes_have_their_places, blocks_have_their_places, buses_have_their_entries,
    fields_have_their_places, labels_have_their_numbers,
};
pub use roles::Role;
pub use showing::show;
pub use slots::{
    Slot, attribute, block_name, default_value, field_count, field_name, field_type, instances,
    kind, role,
};
pub use spelling::spell;
pub use types::{Attribute, FieldType, attribute_name, attributes, is_assigned, type_name};
pub use values::{
    bit_raw, int_raw, printed_values_are_spelled, selections_are_small, texts_are_refused_once,
    values_are_computed, values_are_spelled_once, values_by_example,
};
