ghost use Rattle.std.specs.Prelude.{◌≡◌, ℕ, ◌↔◌, ◌⊎◌, Some, None, List};
ghost use Rattle.pb_stim.specs.declared.Cause.{Cause};
ghost use Rattle.pb_replay.specs.Script.{Line, IsLine, IsScript};
ghost use Rattle.pb_replay.specs.Reading.{line_in};
ghost use Rattle.pb_replay.specs.Faults.{first_fault};
ghost use Rattle.pb_replay.specs.Kept.{kept};
ghost use Rattle.pb_replay.specs.Events.{events_of_script};
ghost use Rattle.pb_replay.specs.Plays.{kept_events};

/// A text is a line exactly where that line is computed of it.
pub fn lines_are_computed()
    ensures { (text : List ℕ) (line : Line) → IsLine text line ↔ (line_in text ≡ Some line) }
{}

/// Any bytes are a script, or have a first line that breaks a rule, and never both. A script has its lines in one way.
pub fn scripts_are_read_or_refused()
    ensures either { (bytes : List ℕ) → ((lines : List Line) × IsScript bytes lines) ⊎ ((number : ℕ) × (cause : Cause) × (first_fault bytes ≡ Some (number, cause))) }
    ensures not_both { (bytes : List ℕ) (lines : List Line) → IsScript bytes lines → first_fault bytes ≡ None }
    ensures one_way { (bytes : List ℕ) (lines others : List Line) → IsScript bytes lines → IsScript bytes others → lines ≡ others }
{}

/// What is kept of a script has the events of all its lines.
pub fn kept_scripts_have_their_events()
    ensures { (lines : List Line) → kept_events (kept lines) ≡ events_of_script lines }
{}
