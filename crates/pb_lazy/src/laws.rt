ghost use Rattle.std.specs.Prelude.{◌≡◌, ℕ, Bool, List, Ok};
ghost use Rattle.pb_fields.specs.declared.Slot.{Slot};
ghost use Rattle.pb_model.specs.Units.{armed, disarmed, with_words};
ghost use Rattle.pb_model.specs.Arming.{with_unit};
ghost use Rattle.pb_model.specs.Settings.{with_value};
ghost use Rattle.pb_lazy.specs.declared.lazies.Lazy.{Lazy};
ghost use Rattle.pb_lazy.specs.Lazy.{awake, caught_up, IsSound};
ghost use Rattle.pb_lazy.specs.Commands.{set_lazy, armed_lazy, disarmed_lazy, written_lazy};

/// A command acts on the block that a lazy one stands for at its tick, and the lazy block is sound as before. To bring its
/// unit to the tick changes nothing of what it stands for.
pub fn commands_act_on_the_block_at_the_tick()
    ensures awake { (tick : ℕ) (lazy : Lazy) → caught_up tick (awake tick lazy) ≡ caught_up tick lazy }
    ensures awake_sound { (tick : ℕ) (first : Bool) (lazy : Lazy) → IsSound tick first lazy → IsSound tick first (awake tick lazy) }
    ensures set { (slot : Slot) (raw tick : ℕ) (lazy : Lazy) →
        caught_up tick (set_lazy slot raw tick lazy) ≡ with_value slot raw (caught_up tick lazy) }
    ensures set_sound { (slot : Slot) (raw tick : ℕ) (first : Bool) (lazy : Lazy) → IsSound tick first lazy →
        IsSound tick first (set_lazy slot raw tick lazy) }
    ensures arm { (room tick : ℕ) (lazy : Lazy) → caught_up tick (armed_lazy room tick lazy) ≡ with_unit (armed room) (caught_up tick lazy) }
    ensures arm_sound { (room tick : ℕ) (first : Bool) (lazy : Lazy) → IsSound tick first lazy → IsSound tick first (armed_lazy room tick lazy) }
    ensures disarm { (tick : ℕ) (lazy : Lazy) → caught_up tick (disarmed_lazy tick lazy) ≡ with_unit disarmed (caught_up tick lazy) }
    ensures disarm_sound { (tick : ℕ) (first : Bool) (lazy : Lazy) → IsSound tick first lazy → IsSound tick first (disarmed_lazy tick lazy) }
    ensures write { (words : List ℕ) (tick : ℕ) (lazy : Lazy) →
        caught_up tick (written_lazy tick (Ok words) lazy) ≡ with_unit (with_words words) (caught_up tick lazy) }
    ensures write_sound { (words : List ℕ) (tick : ℕ) (first : Bool) (lazy : Lazy) → IsSound tick first lazy →
        IsSound tick first (written_lazy tick (Ok words) lazy) }
{}
