ghost use Rattle.std.specs.Prelude.{true, ◌≡◌, ◌≢◌, ℕ, List, [], ◌∷◌, ◌++◌, reverse, Ok, None, Some};
ghost use Rattle.pb_lut.specs.Functions.{WritesFunction};
ghost use Rattle.pb_fields.specs.declared.Slot.{Slot};
ghost use Rattle.pb_fields.specs.declared.FieldType.TheVariants as types;
ghost use Rattle.pb_fields.specs.Slots.{IsSlot, type_at, attribute_at, default_of};
ghost use Rattle.pb_config.specs.Settings.{Settings, place, raw_of, text_of};
ghost use Rattle.pb_config.specs.Defaults.{fresh, default_text};
ghost use Rattle.pb_config.specs.Assigning.{raw_given, target, kept_by, keeps_text, after_assignment};
ghost use Rattle.pb_config.specs.Reached.{IsReached};
ghost use Rattle.std.specs.List.{AllByRecursion};
ghost use Rattle.pb_config.specs.Numbers.{Numbers, noted, all_noted, AgreesWithAssigned};
ghost use Rattle.pb_config.specs.KeptConfig.{fresh_config};
ghost use Rattle.pb_config.specs.Capturing.{IsCapture, capture_slots};

/// No two slots have the same place.
#[tactic(auto, using(crate::proofs::PlaceLemmas::one_place))]
pub fn places_are_distinct()
    ensures { (s t : Slot) → IsSlot s → IsSlot t → place s ≡ place t → s ≡ t }
{}

/// At first each slot has its default.
#[tactic(auto, using(crate::proofs::KeptLemmas::fresh_value))]
pub fn fresh_values()
    ensures { (slot : Slot) → IsSlot slot → raw_of fresh slot ≡ default_of slot }
{}

/// At first each slot that keeps a text has its default: `0` for a function, and nothing for units.
#[tactic(auto, using(crate::proofs::KeptLemmas::fresh_text))]
pub fn fresh_texts()
    ensures { (slot : Slot) → IsSlot slot → text_of fresh slot ≡ default_text slot }
{}

/// After an assignment the slot that it sets has the raw value that the text gave, and where the text is
/// kept, the slot has it.
#[tactic(auto, using(crate::proofs::AssignedLemmas::value_here, crate::proofs::AssignedLemmas::text_here))]
pub fn assigned_here()
    ensures value { (settings : Settings) (slot : Slot) (text : List ℕ) (raw : ℕ)
        → IsReached settings → IsSlot slot → raw_given settings slot text ≡ Ok raw
        → raw_of (after_assignment settings slot text) (target slot) ≡ raw }
    ensures text { (settings : Settings) (slot : Slot) (text kept : List ℕ) (raw : ℕ)
        → IsReached settings → IsSlot slot → raw_given settings slot text ≡ Ok raw
        → kept_by (type_at slot) (attribute_at slot) text ≡ Some kept
        → text_of (after_assignment settings slot text) slot ≡ kept }
{}

/// An assignment leaves the value of every other slot.
#[tactic(auto, using(crate::proofs::AssignedLemmas::others_stay))]
pub fn others_stay()
    ensures { (settings : Settings) (slot other : Slot) (text : List ℕ) → IsSlot slot → IsSlot other
        → other ≢ target slot → raw_of (after_assignment settings slot text) other ≡ raw_of settings other }
{}

/// An assignment leaves the text that any other slot keeps.
#[tactic(auto, using(crate::proofs::AssignedLemmas::texts_stay))]
pub fn texts_stay()
    ensures { (settings : Settings) (slot other : Slot) (text : List ℕ) → IsSlot slot → IsSlot other
        → keeps_text other ≡ true → other ≢ slot
        → text_of (after_assignment settings slot text) other ≡ text_of settings other }
{}

/// Whatever is assigned, the kept text of a FUNC writes its raw value.
pub fn kept_function_is_the_number()
    ensures { (settings : Settings) (slot : Slot) → IsReached settings → IsSlot slot
        → type_at slot ≡ types.ParamLut → attribute_at slot ≡ None
        → WritesFunction (text_of settings slot) (raw_of settings slot) }
{}

/// To clear what is captured is to assign No to each CAPTURE: none of them refuses it, and nothing changes in the box.
pub fn clearing_assigns_no()
    ensures { AllByRecursion IsCapture capture_slots }
{}

/// The kept numbers are those of the list of all assignments, the latest first: at first of none; each that is noted is
/// one more, and to clear what is captured is one more of each CAPTURE.
#[tactic(auto, using(crate::proofs::NumberLemmas::none_agree))]
pub fn numbers_are_of_assignments()
    ensures first { AgreesWithAssigned fresh_config.numbers [] }
    ensures more { (numbers : Numbers) (assigned : List Slot) (slot : Slot) → AgreesWithAssigned numbers assigned → IsSlot slot
        → AgreesWithAssigned (noted numbers slot) (slot ∷ assigned) }
    ensures cleared { (numbers : Numbers) (assigned : List Slot) → AgreesWithAssigned numbers assigned
        → AgreesWithAssigned (all_noted numbers capture_slots) (reverse capture_slots ++ assigned) }
{}
