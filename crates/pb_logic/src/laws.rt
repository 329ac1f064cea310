ghost use Rattle.std.specs.Prelude.{◌≡◌, ℕ, ◌-◌, ◌^◌, pos, true, false, List, [], ◌∷◌, Some, None};
ghost use Rattle.pb_buses.specs.declared.Inputs.{Inputs};
ghost use Rattle.pb_lut.specs.Expressions.{Tree, ors, value, number};
ghost use Rattle.pb_lut.specs.Functions.{WritesFunction, WritesTree};
ghost use Rattle.pb_names.specs.declared.lut.TheConstants as names;
ghost use Rattle.pb_logic.specs.Bits.{two_bits};
ghost use Rattle.pb_buses.specs.Rules.{IsHorizon};
ghost use Rattle.pb_logic.specs.Clock as clock;
ghost use Rattle.pb_logic.specs.Lut as lut;
ghost use Rattle.pb_logic.specs.Examples.{idle, pulse, pulse_down, set, both, disabled_set, counter_shows, position, div_shows, gate, gate_shows, force_set, force_rst, clock_shows, clock_after};

use pb_lut::{each_bit_is_a_value, tables_put_out_the_expression};

/// A LUT whose function is the number of an expression shows, one tick later, the value of the expression
/// at its five inputs. So does one whose FUNC was set by a text that is the expression.
pub fn lut_shows_its_expression()
    ensures number { (t : Tree ors) (b : lut.LutState) (inputs : Inputs) (tick : ℕ) → b.settings.function ≡ number t
        → (lut.next b inputs tick).registers.out ≡ value (lut.levels inputs) t }
    ensures text { (text : List ℕ) (n : ℕ) (t : Tree ors) (b : lut.LutState) (inputs : Inputs) (tick : ℕ)
        → WritesFunction text n → WritesTree text t
        → (lut.next (lut.with_field b names.FUNC n) inputs tick).registers.out ≡ value (lut.levels inputs) t }
{
    each_bit_is_a_value();
    tables_put_out_the_expression()
}

/// A counter from 0 to 2 that starts at 1 and counts by 2.
pub fn counter_by_example()
    ensures starts { counter_shows (idle ∷ []) ≡ position false (pos 1) }
    ensures goes_over_the_end { counter_shows (idle ∷ pulse ∷ []) ≡ position true (pos 0) }
    ensures keeps_the_carry { counter_shows (idle ∷ pulse ∷ pulse ∷ []) ≡ position true (pos 0) }
    ensures lets_the_carry_go { counter_shows (idle ∷ pulse ∷ pulse ∷ idle ∷ []) ≡ position false (pos 0) }
    ensures goes_under_the_end { counter_shows (idle ∷ pulse_down ∷ []) ≡ position true (pos 2) }
    ensures starts_without_a_pulse { counter_shows (pulse ∷ pulse ∷ []) ≡ position false (pos 1) }
{}

/// A divider by 2 whose first pulse goes to OUTN.
pub fn divider_by_example()
    ensures passes_the_first { div_shows (idle ∷ pulse ∷ []) ≡ (two_bits false true, 1) }
    ensures ends_with_the_pulse { div_shows (idle ∷ pulse ∷ idle ∷ []) ≡ (two_bits false false, 1) }
    ensures divides { div_shows (idle ∷ pulse ∷ idle ∷ pulse ∷ []) ≡ (two_bits true false, 0) }
    ensures ends_again { div_shows (idle ∷ pulse ∷ idle ∷ pulse ∷ idle ∷ []) ≡ (two_bits false false, 0) }
{}

/// A gate as the box opens, of which SET and RST are seen.
pub fn gate_by_example()
    ensures is_set { gate_shows gate (set ∷ []) ≡ true }
    ensures stays { gate_shows gate (set ∷ idle ∷ []) ≡ true }
    ensures rst_before_set { gate_shows gate (set ∷ idle ∷ both ∷ []) ≡ false }
    ensures no_edge_later { gate_shows gate (disabled_set ∷ set ∷ []) ≡ false }
    ensures forced { gate_shows (force_set gate) (idle ∷ []) ≡ true }
    ensures forced_last { gate_shows (force_rst (force_set gate)) (set ∷ []) ≡ false }
    ensures forced_once { gate_shows (force_rst gate) (idle ∷ set ∷ []) ≡ true }
{}

/// A clock whose period is four ticks stays high where its width is four too; without settings it is high
/// at every other tick.
pub fn clock_by_example()
    ensures first { clock_shows 4 4 1 ≡ true }
    ensures fifth { clock_shows 4 4 5 ≡ true }
    ensures later { clock_shows 4 4 12 ≡ true }
    ensures half { clock_shows 5 0 2 ≡ true }
    ensures rounded_down { clock_shows 5 0 3 ≡ false }
    ensures fastest_high { clock_shows 0 0 3 ≡ true }
    ensures fastest_low { clock_shows 0 0 4 ≡ false }
{}

/// How long the output of a clock stays, where ENABLE stays at 1: one tick after it was enabled, with a period of 2^47 ticks
/// and half of that as its width; where it is never low; and where it is low until the next period.
pub fn clock_deadlines_by_example()
    ensures high { IsHorizon clock.rules idle 1 (clock_after (2 ^ 47) 0 1) (Some (2 ^ 46 - 1)) }
    ensures never_low { IsHorizon clock.rules idle 1 (clock_after 4 4 1) None }
    ensures low { IsHorizon clock.rules idle 3 (clock_after 5 0 3) (Some 2) }
{}
