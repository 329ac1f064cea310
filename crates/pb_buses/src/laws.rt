ghost use Rattle.std.specs.Prelude.{◌≡◌, ℕ, ℤ, ◌+◌, ◌<◌, ◌≤◌, ◌↔◌, Bool, false, List, [], ◌∷◌, ◌++◌, length, replicate, slice_index_or, None, Some};
ghost use Rattle.pb_buses.specs.declared.entries.Bus.{Bus};
ghost use Rattle.pb_buses.specs.declared.entries.Buses.{Buses};
ghost use Rattle.pb_buses.specs.Buses.{bit, position, value, opening_buses, with_bit, with_position, AgreesWithPast, IsUnchangedAt};
ghost use Rattle.pb_buses.specs.Delay.{BitInput, line_after, pushed, shifted, latest, later, IsNextChange};
ghost use Rattle.pb_buses.specs.declared.inputs.Inputs.{Inputs};
ghost use Rattle.pb_buses.specs.Rules.{AreCalm, IsHorizon, after};

use crate::machines::Machine;

/// The delay line stands for the list of what was selected at the ticks before, the latest first: it
/// goes on with the list, and what it shows with delay d was selected d ticks ago, or is 0 where the box
/// wasn't open yet. To pass ticks in two parts is to pass them at once.
pub fn delay_lines_keep_the_past()
    ensures goes_on { (past : List Bool) (value : Bool) (ticks : ℕ) →
        pushed (line_after past) value ticks ≡ line_after (replicate ticks value ++ past) }
    ensures shows { (past : List Bool) (selected : Bool) (delay : ℕ) → delay ≤ 31 →
        slice_index_or (selected ∷ line_after past) delay false ≡ slice_index_or (selected ∷ past) delay false }
    ensures parts { (line : List Bool) (value : Bool) (m n : ℕ) →
        pushed (pushed line value m) value n ≡ pushed line value (n + m) }
{}

/// What a block sees of an input that goes on to select the same value: passed in two parts the ticks show what they
/// show at once, the next change comes nearer by as many ticks as pass, and the value is the latest.
pub fn next_changes_come_nearer()
    ensures parts { (input : BitInput) (value : Bool) (m n : ℕ) → later (shifted input value m) value n ≡ later input value (n + m) }
    ensures nearer { (input : BitInput) (value : Bool) (m n : ℕ) → 0 < n →
        IsNextChange input value (Some (n + m)) → IsNextChange (shifted input value m) value (Some n) }
    ensures none { (input : BitInput) (value : Bool) (m : ℕ) →
        IsNextChange input value None → IsNextChange (shifted input value m) value None }
    ensures latest { (input : BitInput) (value : Bool) (n : ℕ) → 0 < n → latest (shifted input value n) ≡ value }
{}

/// The ticks that the buses keep stay those of the list of the bus's states: at opening, when a tick
/// begins and the state goes to the past, and by each put at that tick on an entry that didn't change at it. So it is when
/// many ticks pass and the buses stand as they do. To put the value that stands is to do nothing.
pub fn puts_keep_the_last_changes()
    ensures opening { AgreesWithPast opening_buses [] }
    ensures tick { (buses : Buses) (past : List Bus) → AgreesWithPast buses past → AgreesWithPast buses (buses.bus ∷ past) }
    ensures ticks { (buses : Buses) (past : List Bus) (n : ℕ) →
        AgreesWithPast buses past → AgreesWithPast buses (replicate n buses.bus ++ past) }
    ensures same_bit { (buses : Buses) (i tick : ℕ) → with_bit buses i (bit buses.bus i) tick ≡ buses }
    ensures same_position { (buses : Buses) (i tick : ℕ) → with_position buses i (position buses.bus i) tick ≡ buses }
    ensures bit { (buses : Buses) (past : List Bus) (i : ℕ) (value : Bool) →
        AgreesWithPast buses past → i < 128 → IsUnchangedAt buses i (length past) →
        AgreesWithPast (with_bit buses i value (length past)) past }
    ensures position { (buses : Buses) (past : List Bus) (i : ℕ) (value : ℤ) →
        AgreesWithPast buses past → i < 32 → IsUnchangedAt buses (128 + i) (length past) →
        AgreesWithPast (with_position buses i value (length past)) past }
    ensures unchanged { (buses : Buses) (before : Bus) (past : List Bus) (entry : ℕ) →
        AgreesWithPast buses (before ∷ past) → entry < 160 →
        value buses.bus entry ≡ value before entry → IsUnchangedAt buses entry (length past + 1) }
{}

/// Many steps of a machine under the same inputs. To make them in two parts is to make them at once, the
/// ticks of the second part following those of the first. They are calm exactly where they aren't more than
/// the horizon. And calm steps leave what the block shows on the buses as it is.
pub fn steps_add_up<M: Machine>()
    ensures parts { (inputs : Inputs) (tick m n : ℕ) (block : M) →
        after M.rules inputs tick (m + n) block ≡ after M.rules inputs (tick + m) n (after M.rules inputs tick m block) }
    ensures within { (inputs : Inputs) (tick n h : ℕ) (block : M) → IsHorizon M.rules inputs tick block (Some h) →
        (AreCalm M.rules inputs tick n block ↔ (n ≤ h)) }
    ensures shown { (inputs : Inputs) (tick n : ℕ) (block : M) → AreCalm M.rules inputs tick n block →
        M.shown (after M.rules inputs tick n block) ≡ M.shown block }
{}
