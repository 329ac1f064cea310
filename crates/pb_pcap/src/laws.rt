ghost use Rattle.std.specs.Prelude.{◌≡◌, ◌≤◌, pos, ℕ, true, List, [], ◌∷◌, ◌++◌, length};
ghost use Rattle.pb_buses.specs.declared.Record.{Record};
ghost use Rattle.pb_pcap.specs.declared.fields.Field.{Field};
ghost use Rattle.pb_pcap.specs.Fields.{IsLayout, size_of, units_of, name_of};
ghost use Rattle.pb_pcap.specs.Records.{record_bytes, records_bytes};
ghost use Rattle.pb_buses.specs.declared.Emit.TheVariants as emits;
ghost use Rattle.pb_buses.specs.declared.Condition.TheVariants as conditions;
ghost use Rattle.pb_pcap.specs.Pcap.{is_idle, opening, armed};
ghost use Rattle.pb_pcap.specs.Examples.{outside, sample, trigger, sample_and_trigger, after_all, emits_after, recorded, twice_open, minus_three, row, scan, whole};

/// Records of one position: over a gate that opened twice; of the sample at the tick of the trigger; without
/// a sample; after another record. The tick at which a run begins is no sample. And where room ends.
pub fn captures_by_example()
    ensures over_the_gate { emits_after 1 twice_open (trigger (pos 7)) ≡ recorded (pos 7) minus_three (pos 5) (pos 2) 0 3 3 2 }
    ensures at_the_trigger { emits_after 1 twice_open (sample_and_trigger (pos 7)) ≡ recorded (pos 7) minus_three (pos 7) (pos 9) 0 4 3 3 }
    ensures without_a_sample { emits_after 1 (outside (pos 5) ∷ outside (pos 6) ∷ []) (trigger (pos 9)) ≡ recorded (pos 9) (pos 9) (pos 9) (pos 0) 1 1 1 0 }
    ensures begins_without_a_sample { emits_after 1 (sample (pos 5) ∷ []) (trigger (pos 9)) ≡ recorded (pos 9) (pos 9) (pos 9) (pos 0) 0 0 0 0 }
    ensures begins_anew { emits_after 2 (outside (pos 0) ∷ sample_and_trigger (pos 8) ∷ sample (pos 1) ∷ []) (trigger (pos 4)) ≡ recorded (pos 4) (pos 1) (pos 1) (pos 1) 1 2 2 1 }
    ensures has_no_room { emits_after 1 (outside (pos 0) ∷ sample_and_trigger (pos 8) ∷ sample (pos 1) ∷ []) (trigger (pos 4)) ≡ emits.Completed conditions.Overrun }
    ensures is_over { is_idle (after_all (outside (pos 0) ∷ trigger (pos 4) ∷ []) (armed opening 0)) ≡ true }
{}

/// A record has the bytes of its layout, 240 at most, and one more record adds its bytes at the end. Units
/// keep their name.
pub fn records_have_their_size()
    ensures size { (fields : List Field) (record_ : Record) → length (record_bytes fields record_) ≡ size_of fields }
    ensures limit { (fields : List Field) → IsLayout fields → size_of fields ≤ 240 }
    ensures largest { size_of whole ≡ 240 }
    ensures one_more { (fields : List Field) (records : List Record) (record_ : Record) →
        records_bytes fields (records ++ record_ ∷ []) ≡ records_bytes fields records ++ record_bytes fields record_ }
    ensures units { (text : List ℕ) → length text ≤ 32 → name_of (units_of text) ≡ text }
{}

/// The least value -3, the greatest 5, the sum 258, a value of 0 at the second position, and 2 samples.
#[tactic(auto, unfolding(crate::specs::Records::int32, crate::specs::Records::int64))]
pub fn records_by_example()
    ensures bytes { record_bytes scan (row (pos 7) minus_three (pos 5) (pos 258) 0 3 3 2) ≡
        0xfd ∷ 0xff ∷ 0xff ∷ 0xff ∷ 5 ∷ 0 ∷ 0 ∷ 0 ∷ 2 ∷ 1 ∷ 0 ∷ 0 ∷ 0 ∷ 0 ∷ 0 ∷ 0 ∷
        0 ∷ 0 ∷ 0 ∷ 0 ∷ 2 ∷ 0 ∷ 0 ∷ 0 ∷ 0 ∷ 0 ∷ 0 ∷ 0 ∷ [] }
{}
