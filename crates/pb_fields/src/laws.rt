ghost use Rattle.std.specs.Prelude.{◌≡◌, ℕ, List, ◌<◌, ◌==◌, ◌&&◌, ◌||◌, Some, None, Ok, Err, ◌↔◌, IfSome, is_some, Contains, map};
ghost use Rattle.pb_fields.specs.declared.slots.Slot.{Slot};
ghost use Rattle.pb_fields.specs.Entries.{entry_of, at_entry_of, is_bit_out, is_pos_out, bit_entries, pos_entries};
ghost use Rattle.pb_fields.specs.Labels.{bit_names, position_names};
ghost use Rattle.pb_fields.specs.Finding.{before_point, found_of, block_found};
ghost use Rattle.pb_fields.specs.Missing.{IsNoBlock, IsNoInstance, HasNoField, HasNoAttribute, IsWronglyNumbered};
ghost use Rattle.pb_fields.specs.Names.{target_of, IsNameOf};
ghost use Rattle.pb_fields.specs.Order.{following_of, next_slot, slots, visits, Precedes};
ghost use Rattle.pb_fields.specs.Slots.{IsSlot, type_at};

use pb_words::Refusal;

/// From the first slot on, each of all slots is visited, once and in order.
pub fn following_visits_every_slot_once()
    ensures walk { visits 2000 (following_of None) ≡ slots }
    ensures every { (slot : Slot) → IsSlot slot → Contains slots slot }
    ensures once { (slot : Slot) → IfSome (next_slot slot) (λ next. Precedes slot next) }
{}

/// An entry is driven by the output that drives it, and by outputs alone.
pub fn entries_and_outputs_belong_to_each_other()
    ensures at { (entry : ℕ) → entry < 256 → IfSome (at_entry_of entry) (λ slot. entry_of slot ≡ Some entry) }
    ensures of { (slot : Slot) → IsSlot slot → IfSome (entry_of slot) (λ entry. at_entry_of entry ≡ Some slot) }
    ensures outputs { (slot : Slot) → IsSlot slot
        → is_some (entry_of slot) ≡ (slot.attr == 0 && (is_bit_out (type_at slot) || is_pos_out (type_at slot))) }
{}

/// A mux's label of a bus entry is the printed target of the output that drives it.
pub fn labels_are_names()
    ensures bits { bit_names ≡ map target_of bit_entries }
    ensures positions { position_names ≡ map target_of pos_entries }
{}

/// A slot is found by its names, and what is found is named so.
pub fn targets_name_their_slots()
    ensures printed { (slot : Slot) → IsSlot slot → found_of (target_of slot) ≡ Ok slot }
    ensures named { (text : List ℕ) (slot : Slot) → IsSlot slot → IsNameOf text slot → found_of text ≡ Ok slot }
    ensures found { (text : List ℕ) (slot : Slot) → found_of text ≡ Ok slot → IsSlot slot × IsNameOf text slot }
{}

/// Which refusal a target gets that names no slot: of its block, its number, its field or its attribute.
pub fn targets_are_refused_by_their_names()
    ensures no_block { (text : List ℕ) → (found_of text ≡ Err Refusal.NoSuchBlock) ↔ IsNoBlock (before_point text) }
    ensures no_number { (text : List ℕ)
        → (found_of text ≡ Err Refusal.BlockNumberOutOfRange) ↔ IsNoInstance (before_point text) }
    ensures no_field { (text : List ℕ) → (found_of text ≡ Err Refusal.NoSuchField) ↔ HasNoField text }
    ensures no_attribute { (text : List ℕ) → (found_of text ≡ Err Refusal.NoSuchAttribute) ↔ HasNoAttribute text }
{}

/// Which refusal the name of a block gets where no field is named: its number may be missing.
pub fn blocks_are_refused_by_their_names()
    ensures no_block { (name : List ℕ) → (block_found name ≡ Err Refusal.NoSuchBlock) ↔ IsNoBlock name }
    ensures no_number { (name : List ℕ)
        → (block_found name ≡ Err Refusal.BlockNumberOutOfRange) ↔ IsWronglyNumbered name }
{}
