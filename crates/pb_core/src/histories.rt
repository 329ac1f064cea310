// Laws of histories.
ghost use Rattle.std.specs.Prelude.{◌≡◌, ◌++◌, ◌∷◌, [], ℕ, List, Result, Ok};
ghost use Rattle.pb_words.specs.declared.OutOfMemory.{OutOfMemory};
ghost use Rattle.pb_core.specs.declared.events.Event.TheVariants as events;
ghost use Rattle.pb_core.specs.declared.events.Answer.{Answer};
ghost use Rattle.pb_core.specs.declared.events.Answer.TheVariants as answers;
ghost use Rattle.pb_core.specs.declared.servers.Entry.{Entry};
ghost use Rattle.pb_stim.specs.declared.Row.{Row};
ghost use Rattle.pb_going.specs.Sims.{outdated};
ghost use Rattle.pb_core.specs.Core.{CoreState, opening};
ghost use Rattle.pb_core.specs.Kept.{KeptCore, Agrees};
ghost use Rattle.pb_core.specs.History.{IsResult, IsNext, IsLegal, StandsFor, IsOpening, IsTaking, core_after};

/// A history that is legal and goes on by what can stand there is legal, and there is no other way to go on.
pub fn histories_grow_by_an_entry()
    ensures grows { (core : CoreState) (history : List Entry) (entry : Entry) → IsLegal core history → IsNext (core_after core history) entry → IsLegal core (history ++ entry ∷ []) }
    ensures was { (core : CoreState) (history : List Entry) (entry : Entry) → IsLegal core (history ++ entry ∷ []) → IsLegal core history }
    ensures last { (core : CoreState) (history : List Entry) (entry : Entry) → IsLegal core (history ++ entry ∷ []) → IsNext (core_after core history) entry }
{}

/// A core that has just opened stands for the empty history.
pub fn cores_begin_with_no_history()
    ensures { (kept : KeptCore) (rows : List Row) → Agrees kept (opening rows) → outdated kept.sim ≡ 0 → StandsFor kept [] }
{}

/// What comes of an event fits its kind: only lines and takes may lack memory.
pub fn results_fit_their_events()
    ensures opening { (core : CoreState) (id : ℕ) (result : Result Answer OutOfMemory) → IsResult core (events.OpenControl id) result → result ≡ Ok answers.Nothing }
    ensures closing { (core : CoreState) (id : ℕ) (result : Result Answer OutOfMemory) → IsResult core (events.CloseControl id) result → result ≡ Ok answers.Nothing }
    ensures leaving { (core : CoreState) (id : ℕ) (result : Result Answer OutOfMemory) → IsResult core (events.CloseData id) result → result ≡ Ok answers.Nothing }
    ensures options { (core : CoreState) (id : ℕ) (line : List ℕ) (result : Result Answer OutOfMemory) → IsResult core (events.OpenData id line) result → IsOpening result }
    ensures taking { (core : CoreState) (id : ℕ) (result : Result Answer OutOfMemory) → IsResult core (events.Take id) result → IsTaking result }
{}
