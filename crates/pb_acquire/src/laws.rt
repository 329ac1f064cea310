ghost use Rattle.std.specs.Prelude.{true, false, ◌≡◌, ◌↔◌, ◌⊎◌, ◌+◌, ◌≤◌, ℕ, All, List, [], ◌∷◌, ◌++◌, length, map, codes, Option, Some, None, IsSome, option_map};
ghost use Rattle.std.specs.List.{range_with_len};
ghost use Rattle.pb_words.specs.declared.Refusal.TheVariants as refusals;
ghost use Rattle.pb_buses.specs.declared.Condition.TheVariants as conditions;
ghost use Rattle.pb_buses.specs.declared.Record.{Record};
ghost use Rattle.pb_pcap.specs.Records.{Held, record_bytes, records_bytes};
ghost use Rattle.pb_pcap.specs.Examples.{scan, whole};
ghost use Rattle.pb_acquire.specs.declared.readers.Taken.TheVariants as takes;
ghost use Rattle.pb_acquire.specs.Readers.{reader_from, after_records};
ghost use Rattle.pb_acquire.specs.Acquisitions.{AllAcquisitions, opening, room_of, held, arm_refusal, armed, recorded, ended, latest, captured, condition_of};
ghost use Rattle.pb_acquire.specs.Taking.{opened, closed, take_of, after_take};
ghost use Rattle.pb_acquire.specs.Examples.{some_row, one_value, with_two, after_first, second, unframed, four_since, joined};
ghost use Rattle.pb_acquire.specs.Kept.{Kept, Agrees, with_records};
ghost use Rattle.pb_acquire.specs.Reached.{IsReached};
ghost use Rattle.pb_acquire.specs.Streams.{Event, Spares, RunsOn, after_events, handed, IsGivenTo};
ghost use Rattle.pb_encode.specs.declared.options.Options.{Options};

/// What is told before the first acquisition, of one with two records, after it was disarmed, and of the next.
pub fn acquisitions_by_example()
    ensures at_first { (captured opening ≡ 0) × (condition_of opening ≡ None) × (arm_refusal opening scan ≡ None) }
    ensures nothing { arm_refusal opening [] ≡ Some refusals.NothingCaptured }
    ensures runs { (captured with_two ≡ 2) × (condition_of with_two ≡ None) }
    ensures is_armed { (arm_refusal with_two scan ≡ Some refusals.AlreadyArmed) × (arm_refusal with_two [] ≡ Some refusals.AlreadyArmed) }
    ensures over { (captured after_first ≡ 2) × (condition_of after_first ≡ Some conditions.Disarmed) × (arm_refusal after_first scan ≡ None) }
    ensures next { (captured second ≡ 0) × (condition_of second ≡ None) × (option_map (λ a. a.number) (latest second) ≡ Some 2) }
{}

/// Four acquisitions that a reader has still to take are all that are held: the fifth is refused, unless the reader
/// is closed, wants one alone, or took the end of the first. Then it goes on to the second.
pub fn held_by_example()
    ensures refused { (arm_refusal (four_since (unframed false)) scan ≡ Some refusals.TooManyHeld) × (arm_refusal (four_since (unframed false)) [] ≡ Some refusals.NothingCaptured) }
    ensures closed { arm_refusal (closed 1 (four_since (unframed false))) scan ≡ None }
    ensures alone { (arm_refusal (four_since (unframed true)) scan ≡ None) × (length (held (four_since (unframed true))) ≡ 1) }
    ensures took { arm_refusal (after_take 1 (four_since (unframed false))) scan ≡ None }
    ensures end { take_of (four_since (unframed false)) 1 ≡ takes.Bytes (codes "END 0 Disarmed\n") (reader_from (unframed false) 1) }
{}

/// A reader that opens while one runs begins at its first record, and otherwise with the next one. One alone is done
/// after its end.
pub fn readers_by_example()
    ensures not_armed { (take_of opening 1 ≡ takes.NotYet) × (take_of (opened 1 (unframed false) after_first) 1 ≡ takes.NotYet) }
    ensures joined { take_of (opened 1 (unframed false) with_two) 1 ≡ takes.Bytes (records_bytes scan (some_row ∷ some_row ∷ [])) (after_records (reader_from (unframed false) 0) 2) }
    ensures took_all { take_of joined 1 ≡ takes.NotYet }
    ensures end { take_of (ended conditions.Ok joined) 1 ≡ takes.Bytes (codes "END 2 Ok\n") (reader_from (unframed false) 1) }
    ensures more_first { take_of (ended conditions.Ok (recorded some_row joined)) 1 ≡ takes.Bytes (record_bytes scan some_row) (after_records (reader_from (unframed false) 0) 3) }
    ensures done { take_of (after_take 1 (four_since (unframed true))) 1 ≡ takes.Done }
{}

/// For how many records there is room: of 4 bytes, of 28, and of 240, the largest.
pub fn rooms_by_example()
    ensures { (room_of one_value ≡ 16777216) × (room_of scan ≡ 2396745) × (room_of whole ≡ 279620) }
{}

/// Numbers go by arming from 1 on, and there is no condition exactly before the first acquisition and while one is
/// armed or running.
pub fn acquisitions_are_in_order()
    ensures numbers { (all : AllAcquisitions) → IsReached all → map (λ a. a.number) all.completed ≡ range_with_len 1 (length all.completed) }
    ensures next { (all : AllAcquisitions) → IsReached all → IsSome all.running →
        option_map (λ a. a.number) (latest all) ≡ Some (length all.completed + 1) }
    ensures none { (all : AllAcquisitions) → IsReached all → (condition_of all ≡ None) ↔ (IsSome all.running ⊎ (all.completed ≡ [])) }
{}

/// Who adds a record to what `running` lends adds it to the acquisition, and who only makes room in memory
/// leaves it as it was.
pub fn records_are_added()
    ensures added { (kept : Kept) (held more : Held) (all : AllAcquisitions) (row : Record) → Agrees kept all → kept.running ≡ Some held →
        more.layout ≡ held.layout → more.bytes ≡ held.bytes ++ record_bytes held.layout row → more.count ≡ held.count + 1 →
        Agrees (with_records kept more) (recorded row all) }
    ensures reserved { (kept : Kept) (held other : Held) (all : AllAcquisitions) → Agrees kept all → kept.running ≡ Some held →
        other.layout ≡ held.layout → other.bytes ≡ held.bytes → other.count ≡ held.count →
        Agrees (with_records kept other) all }
{}

/// What a reader is handed from its opening on, while it isn't opened anew or closed, is whole acquisitions one after
/// the other, and then a front of the next. The end of each stands behind all its records.
pub fn readers_are_given_whole_acquisitions()
    ensures { (all : AllAcquisitions) (id : ℕ) (options : Options) (events : List Event) → 1 ≤ id → id ≤ length all.readers → RunsOn all.running →
        All (Spares id) events →
        IsGivenTo options (length all.completed) id (after_events (opened id options all) events) (handed id (opened id options all) events) }
{}
