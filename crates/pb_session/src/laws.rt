ghost use Rattle.std.specs.Prelude.{◌≡◌, ◌++◌, ◌∷◌, ℕ, List, Option, Some, Ok};
ghost use Rattle.pb_stim.specs.declared.Row.{Row};
ghost use Rattle.pb_turn.specs.Seeing.{Known};
ghost use Rattle.pb_encode.specs.declared.Options.{Options};
ghost use Rattle.pb_encode.specs.Choosing.{options_of};
ghost use Rattle.pb_core.specs.declared.Answer.{Answer};
ghost use Rattle.pb_core.specs.declared.Entry.{Entry};
ghost use Rattle.pb_core.specs.Core.{opening};
ghost use Rattle.pb_core.specs.History.{IsLegal};
ghost use Rattle.pb_session.specs.declared.endings.DataEnded.{DataEnded};
ghost use Rattle.pb_session.specs.Data.{HasRun, handed_of, opens, stream_of};
ghost use Rattle.pb_session.specs.Readings.{entries_of, AreTakes, ServesAlone, IsGivenIn, WasGiven, IsWritten, written};

use pb_core::Server;

/// What a data session is handed is whole acquisitions one after the other, and then a front of the next. So it is with the takes
/// behind an opening in a legal history, whatever other sessions do in between; and so with what a data session writes, where
/// its pass alone serves its id.
pub fn data_sessions_are_given_whole_acquisitions<V: Server>()
    ensures takes { (rows : List Row) (before behind takes : List Entry) (id : ℕ) (line : List ℕ) (told : Answer) (options : Options) →
        IsLegal (opening rows) (before ++ opens id line told ∷ behind) → options_of line ≡ Ok options → entries_of id behind ≡ takes →
        AreTakes id takes → IsGivenIn (opening rows) id options before (opens id line told) behind (handed_of takes) }
    ensures sessions { (rows : List Row) (value : V) (pass new : Known Entry V) (id : ℕ) (line : List ℕ) (options : Options) (ended : DataEnded) (held holds : Option (List ℕ)) →
        pass.opened ≡ Some value → V.opening value ≡ opening rows → options_of line ≡ Ok options → ServesAlone id new →
        HasRun (stream_of id line) V.opening id pass ended new held holds →
        (bytes : List ℕ) × WasGiven (opening rows) new.seen id line options bytes × IsWritten ended (written options bytes) held holds }
{}
