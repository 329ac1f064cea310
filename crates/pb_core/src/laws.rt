ghost use Rattle.std.specs.Prelude.{◌≡◌, ◌≢◌, ◌↔◌, ◌⊎◌, ◌||◌, ◌++◌, ℕ, Bool, List, [], true, false, Option, None, Ok, Err, codes};
ghost use Rattle.std.specs.List.{AllByRecursion};
ghost use Rattle.pb_words.specs.declared.Refusal.{Refusal};
ghost use Rattle.pb_words.specs.declared.Refusal.TheVariants as refusals;
ghost use Rattle.pb_fields.specs.declared.Slot.{Slot};
ghost use Rattle.pb_model.specs.Tick.{Standing};
ghost use Rattle.pb_acquire.specs.declared.readers.Taken.TheVariants as takes;
ghost use Rattle.pb_acquire.specs.Acquisitions.{AllAcquisitions};
ghost use Rattle.pb_acquire.specs.Taking.{reader_of, take_of};
ghost use Rattle.pb_config.specs.Settings.{Settings};
ghost use Rattle.pb_grammar.specs.Grammar.{command_of};
ghost use Rattle.pb_config.specs.Assigning.{raw_given};
ghost use Rattle.pb_config.specs.Reached.{IsReached};
ghost use Rattle.pb_config.specs.Showing.{is_readable};
ghost use Rattle.pb_replies.specs.Lists.{labels_at};
ghost use Rattle.pb_core.specs.declared.targets.Named.{Named};
ghost use Rattle.pb_core.specs.declared.targets.Named.TheVariants as names;
ghost use Rattle.pb_core.specs.declared.events.Answer.TheVariants as answers;
ghost use Rattle.pb_core.specs.declared.events.Event.{Event};
ghost use Rattle.pb_core.specs.declared.events.Event.TheVariants as events;
ghost use Rattle.pb_stim.specs.declared.Row.{Row};
ghost use Rattle.pb_core.specs.Core.{CoreState, opening, marked};
ghost use Rattle.pb_core.specs.Sessions.{is_open};
ghost use Rattle.pb_core.specs.Holding.{HasSettings};
ghost use Rattle.pb_core.specs.Muxes.{MuxesAreSet};
ghost use Rattle.pb_core.specs.Naming.{named_by, plain_names, group_names, capture_names};
ghost use Rattle.pb_core.specs.Queries.{query_reply, slot_reply};
ghost use Rattle.pb_replies.specs.Replies.{value_reply};
ghost use Rattle.pb_changes.specs.declared.Group.TheVariants as groups;
ghost use Rattle.pb_changes.specs.Groups.{is_in, is_settled};
ghost use Rattle.pb_core.specs.Assignments.{assignment, takes_value};
ghost use Rattle.pb_core.specs.Writing.{is_table, takes_body, table_write};
ghost use Rattle.pb_core.specs.Telling.{shown_now, after_telling};
ghost use Rattle.pb_changes.specs.declared.Group.{Group};
ghost use Rattle.pb_tables.specs.Computed.{written};
ghost use Rattle.pb_model.specs.Tables.{table_of};
ghost use Rattle.pb_core.specs.Answer.{answer, after, after_all, AsksForReport};

/// An event that is refused leaves the core as it was but for the mark that an event stood at now, and so does one of a session
/// that isn't open. A line that is answered by a reply does so too, unless it asks for a change report: then the core is as
/// after that report, with the mark.
pub fn only_done_lines_change_the_core()
    ensures refused { (core : CoreState) (event : Event) (refusal : Refusal) → answer core event ≡ answers.Error refusal → after core event ≡ marked core }
    ensures closed { (core : CoreState) (event : Event) → answer core event ≡ answers.Closed → after core event ≡ marked core }
    ensures replied { (core : CoreState) (id : ℕ) (bytes reply : List ℕ)
        → answer core (events.Line id bytes) ≡ answers.Reply reply
        → (after core (events.Line id bytes) ≡ marked core)
        ⊎ ((group : Option Group) × AsksForReport (command_of bytes) group × (after core (events.Line id bytes) ≡ marked (after_telling core id group))) }
{}

/// First it counts whether the target names something, be it with a star, a listing or a slot; then
/// whether that can be asked for, set or written; and last whether the value or the body fits, and whether what it asks for
/// can be done now.
#[tactic(auto, unfolding(pb_config::specs::Assigning::raw_given))]
pub fn refusals_come_in_order()
    ensures target { (settings : Settings) (box : Standing) (is_open_at : List Bool) (all : AllAcquisitions) (reports : Option Group → List ℕ)
        (target value body : List ℕ) (append base64 : Bool) (refusal : Refusal)
        → named_by target ≡ Err refusal
        → (query_reply settings box is_open_at all reports target ≡ Err refusal) × (assignment settings all target value ≡ Err refusal)
        × (table_write box target append base64 body ≡ Err refusal) }
    ensures reading { (settings : Settings) (box : Standing) (is_open_at : List Bool) (all : AllAcquisitions) (reports : Option Group → List ℕ)
        (target : List ℕ) (slot : Slot)
        → named_by target ≡ Ok (names.Value slot) → is_readable slot ≡ false
        → query_reply settings box is_open_at all reports target ≡ Err refusals.NotReadable }
    ensures labels { (settings : Settings) (box : Standing) (is_open_at : List Bool) (all : AllAcquisitions) (reports : Option Group → List ℕ)
        (target : List ℕ) (slot : Slot)
        → named_by target ≡ Ok (names.Labels slot) → labels_at slot ≡ None
        → query_reply settings box is_open_at all reports target ≡ Err refusals.NotReadable }
    ensures writing { (settings : Settings) (all : AllAcquisitions) (target value : List ℕ) (named : Named)
        → named_by target ≡ Ok named → takes_value named ≡ false
        → assignment settings all target value ≡ Err refusals.NotWriteable }
    ensures value { (settings : Settings) (all : AllAcquisitions) (target value : List ℕ) (slot : Slot) (refusal : Refusal)
        → named_by target ≡ Ok (names.Value slot) → raw_given settings slot value ≡ Err refusal
        → assignment settings all target value ≡ Err refusal }
    ensures reset { (settings : Settings) (all : AllAcquisitions) (target value : List ℕ) (group : Option Group)
        → named_by target ≡ Ok (names.Changes group) → value ≢ codes "S" → value ≢ codes "E" → value ≢ []
        → assignment settings all target value ≡ Err refusals.MalformedValue }
    ensures bodies { (box : Standing) (target body : List ℕ) (append base64 : Bool) (named : Named)
        → named_by target ≡ Ok named → takes_body named ≡ false
        → table_write box target append base64 body ≡ Err refusals.NotWriteable }
    ensures body { (box : Standing) (target body : List ℕ) (append base64 : Bool) (slot : Slot) (refusal : Refusal)
        → named_by target ≡ Ok (names.Value slot) → is_table slot ≡ true
        → written (table_of box.blocks slot.instance) append base64 body ≡ Err refusal
        → table_write box target append base64 body ≡ Err refusal }
{}

/// A target that begins with a star and is none of those that are known is no field, whether it is asked
/// or set.
pub fn unknown_star_targets_are_no_fields()
    ensures { (settings : Settings) (box : Standing) (is_open_at : List Bool) (all : AllAcquisitions) (reports : Option Group → List ℕ) (name value : List ℕ)
        → AllByRecursion (λ known. name ≢ known) plain_names
        → AllByRecursion (λ known. name ≢ known) group_names
        → AllByRecursion (λ known. name ≢ known) capture_names
        → ((target : List ℕ) → name ≢ codes "ENUMS." ++ target)
        → (query_reply settings box is_open_at all reports (codes "*" ++ name) ≡ Err refusals.NoSuchField)
        × (assignment settings all (codes "*" ++ name) value ≡ Err refusals.NoSuchField) }
{}

/// What a change report shows of a slot, be it a setting, an attribute, an output or a read field, is the value with which
/// its query is answered.
pub fn reports_show_what_queries_answer()
    ensures { (settings : Settings) (box : Standing) (slot : Slot) → (is_settled slot || is_in groups.Read slot) ≡ true
        → slot_reply settings box slot ≡ Ok (value_reply (shown_now settings box slot)) }
{}

/// In every core that events reach the settings are such as assignments reach, so the laws of pb_config
/// hold of them.
pub fn settings_are_reached()
    ensures { (rows : List Row) (happened : List Event) → IsReached (after_all (opening rows) happened).settings }
{}

/// In every core that events reach each bit input selects what the settings have, and is delayed as they
/// have it.
pub fn muxes_are_set()
    ensures { (rows : List Row) (happened : List Event) → MuxesAreSet (after_all (opening rows) happened) }
{}

/// In every core that events reach the box has the settings: each input selects and is delayed as they have it, and so
/// it is with BITS and with what is set in each kind of block.
pub fn the_box_has_the_settings()
    ensures { (rows : List Row) (happened : List Event) → HasSettings (after_all (opening rows) happened) }
{}

/// A line, a refused one, and a data session that takes, are answered that the session is closed exactly where it isn't
/// open. A data session is finished exactly where its reader takes nothing any more.
pub fn closed_sessions_are_told_so()
    ensures line { (core : CoreState) (id : ℕ) (bytes : List ℕ) → (answer core (events.Line id bytes) ≡ answers.Closed) ↔ (is_open core.sessions id ≡ false) }
    ensures bad { (core : CoreState) (id : ℕ) (refusal : Refusal) → (answer core (events.Bad id refusal) ≡ answers.Closed) ↔ (is_open core.sessions id ≡ false) }
    ensures taking { (core : CoreState) (id : ℕ) → (answer core (events.Take id) ≡ answers.Closed) ↔ (reader_of core.acquisitions id ≡ None) }
    ensures finished { (core : CoreState) (id : ℕ) → (answer core (events.Take id) ≡ answers.Finished) ↔ (take_of core.acquisitions id ≡ takes.Done) }
{}
