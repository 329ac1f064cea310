ghost use Rattle.std.specs.Prelude.{◌≡◌, pos, true, false, [], ◌∷◌};
ghost use Rattle.pb_pcomp.specs.declared.registers.PcompState.TheVariants as states;
ghost use Rattle.pb_pcomp.specs.Examples.{at_positions, prepared, far, least, greatest};

/// A pulse that waits until the position was 5 before it; and two pulses over the whole range of positions,
/// in the direction in which the position goes.
pub fn pulses_by_example()
    ensures waits { (at_positions (pos 8 ∷ pos 8 ∷ []) prepared).registers.state ≡ states.WaitPreStart }
    ensures is_prepared { (at_positions (pos 8 ∷ pos 5 ∷ []) prepared).registers.state ≡ states.WaitRising }
    ensures is_low { (at_positions (pos 8 ∷ pos 5 ∷ pos 9 ∷ []) prepared).registers.out ≡ false }
    ensures rises { (at_positions (pos 8 ∷ pos 5 ∷ pos 10 ∷ []) prepared).registers.out ≡ true }
    ensures first_rises { (at_positions (least ∷ greatest ∷ greatest ∷ []) far).registers.out ≡ true }
    ensures first_falls { (at_positions (least ∷ greatest ∷ greatest ∷ greatest ∷ []) far).registers.out ≡ false }
    ensures second_rises { (at_positions (least ∷ greatest ∷ greatest ∷ greatest ∷ greatest ∷ []) far).registers.out ≡ true }
    ensures both_counted { (at_positions (least ∷ greatest ∷ greatest ∷ greatest ∷ greatest ∷ greatest ∷ []) far).registers.produced ≡ 2 }
    ensures is_over { (at_positions (least ∷ greatest ∷ greatest ∷ greatest ∷ greatest ∷ greatest ∷ []) far).registers.active ≡ false }
{}
