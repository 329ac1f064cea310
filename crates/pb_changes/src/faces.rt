ghost use Rattle.std.specs.Prelude.{◌≡◌, ℕ, true, ◌+◌, ◌<◌, ◌≤◌, ◌++◌, length, drop};
ghost use Rattle.pb_fields.specs.Slots.{IsSlot, kind_of};
ghost use Rattle.pb_fields.specs.Values.{IsRaw, shown};
ghost use Rattle.pb_changes.specs.declared.groups.Group.{Group};
ghost use Rattle.pb_changes.specs.Groups.{is_in, is_settled};
ghost use Rattle.pb_changes.specs.Past.{Told};

use pb_fields::Slot;

/// What a report needs to know of the box.
pub trait Face {
    // What the face tells.
    ghost told: { Self → Told };

    // The work that was done for the face, and the most that is still to be done for it at this tick.
    ghost spent: { Self → ℕ };

    ghost left: { Self → ℕ };

    /// The number of the slot's last accepted assignment, counted from 1 over all slots and kept at
    /// 2^64 - 1; 0 where there is none.
    fn assigned_at(&self, slot: Slot) -> u64
        requires { IsSlot slot }
        ensures { result ≡ (told self.now).assigned_at slot };

    /// The last tick at which the bus entry differed from the tick before, and 0 where there is none. The
    /// positions are counted from 128.
    fn changed_at(&self, entry: u8) -> u64
        requires { entry < 160 }
        ensures { result ≡ (told self.now).changed_at entry };

    /// The raw value of a read field.
    fn read_value(&mut self, slot: Slot) -> u64
        requires slot { IsSlot slot }
        requires read { is_in Group.Read slot ≡ true }
        ensures range { IsRaw (kind_of slot) result }
        ensures value { shown (kind_of slot) result ≡ (told self.old).shows slot }
        ensures same { told self.new ≡ told self.old }
        ensures work { spent self.new + left self.new ≤ spent self.old + left self.old };

    /// Writes what is shown of a setting, an attribute or an output at the front of `out`, and answers its
    /// length, which is at most 128.
    fn show(&self, slot: Slot, out: &mut [u8]) -> usize
        requires slot { IsSlot slot }
        requires settled { is_settled slot ≡ true }
        requires room { 128 ≤ length out.old }
        ensures len { result ≡ length ((told self.now).shows slot) }
        ensures short { result ≤ 128 }
        ensures written { out.new ≡ (told self.now).shows slot ++ drop (length ((told self.now).shows slot)) out.old };

    /// The tick at which the box stands.
    fn now(&self) -> u64
        ensures { result ≡ (told self.now).tick };

    /// How many assignments were accepted, kept at 2^64 - 1.
    fn assignments(&self) -> u64
        ensures { result ≡ (told self.now).assignments };
}
