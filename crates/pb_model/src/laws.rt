ghost use Rattle.std.specs.Prelude.{◌≡◌, ◌≢◌, ℕ, ℤ, ◌+◌, ◌<◌, Bool, List, [], ◌∷◌, ◌++◌, true, false, pos, length, map};
ghost use Rattle.std.specs.List.{flat_map};
ghost use Rattle.pb_names.specs.declared.ttlin.TheConstants as ttlin;
ghost use Rattle.pb_names.specs.declared.inenc.TheConstants as inenc;
ghost use Rattle.pb_names.specs.declared.bits.TheConstants as bits;
ghost use Rattle.pb_fields.specs.Entries.{is_bit_out, is_pos_out, outputs_of, bit_entries, pos_entries};
ghost use Rattle.pb_model.specs.Machines.{Name, machines};
ghost use Rattle.pb_model.specs.Units.{bit_outputs, position_outputs};
ghost use Rattle.pb_buses.specs.Buses.{with_bit, with_position, IsUnchangedAt};
ghost use Rattle.pb_model.specs.declared.changes.Change.{Change};
ghost use Rattle.pb_fields.specs.declared.Slot.{Slot};
ghost use Rattle.pb_fields.specs.Slots.{IsSlot, default_of};
ghost use Rattle.pb_buses.specs.declared.Bus.{Bus};
ghost use Rattle.pb_model.specs.declared.changes.Change.TheVariants as changes;
ghost use Rattle.pb_model.specs.Changes.{is_taken};
ghost use Rattle.pb_model.specs.Tick.{Box, tick, with_bus, opening_box, put_bit, put_position};
ghost use Rattle.pb_model.specs.Tables.{box_with_table};
ghost use Rattle.pb_model.specs.Staying.{IsKept, HasValue};
ghost use Rattle.pb_model.specs.Kept.{Kept, Agrees, IsWhole, with_buses};
ghost use Rattle.pb_model.specs.Settings.{changed, changed_box};
ghost use Rattle.pb_model.specs.Tables.{with_table, box_with_table};
ghost use Rattle.pb_model.specs.Outputs.{outputs_named};
ghost use Rattle.pb_model.specs.Examples.{driven, delayed_lut, short_counter, set_bits, bit_of, position_of};

/// The entries of the buses are those of the catalogue: on the bit bus TTLIN, then the outputs of the blocks
/// one block after the other, then BITS, and on the position bus INENC, then the outputs of the blocks. Each
/// block shows as many as the catalogue has.
#[tactic(auto, unfolding(crate::specs::Machines::machines, crate::specs::Units::bit_outputs, crate::specs::Units::position_outputs, pb_fields::specs::Catalogue::catalogue, pb_fields::specs::Entries::bit_entries, pb_fields::specs::Entries::pos_entries))]
pub fn outputs_stand_at_their_entries()
    ensures bits { bit_entries ≡
        outputs_of is_bit_out ttlin.BLOCK ++ flat_map (outputs_named is_bit_out) machines ++ outputs_of is_bit_out bits.BLOCK }
    ensures positions { pos_entries ≡ outputs_of is_pos_out inenc.BLOCK ++ flat_map (outputs_named is_pos_out) machines }
    ensures bit_counts { map (λ (of : Name). length (outputs_named is_bit_out of)) machines
        ≡ map (λ (of : Name). bit_outputs of.kind) machines }
    ensures position_counts { map (λ (of : Name). length (outputs_named is_pos_out of)) machines
        ≡ map (λ (of : Name). position_outputs of.kind) machines }
{}

/// A value that TTLIN1 has at a tick is seen by a LUT with a delay of one tick at the next, and stands at its
/// output at the one behind; a counter beyond the end of its range goes round, and its carry stays while TRIG
/// is high; a setting of BITS stands at its output one tick later.
#[tactic(auto, unfolding(crate::specs::Machines::machines, crate::specs::Machines::machine_kinds, crate::specs::Units::bit_outputs, crate::specs::Units::position_outputs, crate::specs::Tick::opening_block, crate::specs::Tick::opening_selections, crate::specs::Settings::so_many_before, pb_fields::specs::Catalogue::catalogue, pb_buses::specs::Delay::digits, pb_buses::specs::Delay::line_after, pb_buses::specs::Delay::pushed, pb_buses::specs::Buses::number))]
pub fn boxes_by_example()
    ensures not_yet { bit_of 6 (driven delayed_lut (true ∷ [])) ≡ false }
    ensures delayed { bit_of 6 (driven delayed_lut (true ∷ false ∷ [])) ≡ true }
    ensures gone { bit_of 6 (driven delayed_lut (true ∷ false ∷ false ∷ [])) ≡ false }
    ensures started { position_of 4 (driven short_counter (false ∷ [])) ≡ pos 1 }
    ensures round { position_of 4 (driven short_counter (false ∷ true ∷ [])) ≡ pos 0 }
    ensures carry { bit_of 30 (driven short_counter (false ∷ true ∷ true ∷ [])) ≡ true }
    ensures carry_gone { bit_of 30 (driven short_counter (false ∷ true ∷ true ∷ false ∷ [])) ≡ false }
    ensures bits_before { bit_of 59 set_bits ≡ false }
    ensures bits_after { bit_of 59 (driven set_bits (false ∷ [])) ≡ true }
{}

/// What is kept of a box stays in agreement with it by each change, by each table write, and by each value that
/// the stimulus puts on an entry that didn't change at this tick. (For a tick it is a clause of `tick`.)
pub fn changes_and_puts_keep_agreement()
    ensures change { (kept : Kept) (box : Box) (change : Change) →
        Agrees kept box → Agrees (changed kept change) (changed_box box change) }
    ensures table { (kept : Kept) (box : Box) (number : ℕ) (words : List ℕ) →
        Agrees kept box → Agrees (with_table kept number words) (box_with_table box number words) }
    ensures bit { (kept : Kept) (box : Box) (entry : ℕ) (value : Bool) →
        Agrees kept box → entry < 128 → IsUnchangedAt kept.buses entry kept.tick →
        Agrees (with_buses kept (with_bit kept.buses entry value kept.tick)) (put_bit box entry value) }
    ensures position { (kept : Kept) (box : Box) (entry : ℕ) (value : ℤ) →
        Agrees kept box → entry < 32 → IsUnchangedAt kept.buses (128 + entry) kept.tick →
        Agrees (with_buses kept (with_position kept.buses entry value kept.tick)) (put_position box entry value) }
{}

/// What is set in a box stays set: a change that gives a slot a value leaves the box such that to give the
/// value again changes nothing, and so it stays by changes of other slots, arming, disarming, table
/// writes, ticks and what the stimulus puts. A box opens with the defaults of the catalogue.
pub fn what_is_set_stays()
    ensures set { (box : Box) (slot : Slot) (raw : ℕ) →
        IsWhole box.stands.blocks box.stands.settings → IsKept slot → HasValue (changed_box box (changes.Set slot raw)) slot raw }
    ensures others { (box : Box) (other slot : Slot) (value raw : ℕ) →
        IsWhole box.stands.blocks box.stands.settings → IsSlot other → is_taken other ≡ true → IsKept slot → other ≢ slot →
        HasValue box slot raw → HasValue (changed_box box (changes.Set other value)) slot raw }
    ensures tables { (box : Box) (slot : Slot) (raw number : ℕ) (words : List ℕ) →
        IsWhole box.stands.blocks box.stands.settings → IsKept slot →
        HasValue box slot raw → HasValue (box_with_table box number words) slot raw }
    ensures arming { (box : Box) (slot : Slot) (raw room : ℕ) →
        IsWhole box.stands.blocks box.stands.settings → IsKept slot →
        HasValue box slot raw → HasValue (changed_box box (changes.Arm room)) slot raw }
    ensures disarming { (box : Box) (slot : Slot) (raw : ℕ) →
        IsWhole box.stands.blocks box.stands.settings → IsKept slot →
        HasValue box slot raw → HasValue (changed_box box changes.Disarm) slot raw }
    ensures ticks { (box : Box) (slot : Slot) (raw : ℕ) →
        IsWhole box.stands.blocks box.stands.settings → IsKept slot → HasValue box slot raw → HasValue (tick box) slot raw }
    ensures puts { (box : Box) (slot : Slot) (raw : ℕ) (bus : Bus) → HasValue box slot raw → HasValue (with_bus box bus) slot raw }
    ensures opening { (slot : Slot) → IsKept slot → HasValue opening_box slot (default_of slot) }
{}
