ghost use Rattle.std.specs.Prelude.{◌≡◌};
ghost use Rattle.pb_model.specs.Changes.{is_taken_role};

use pb_fields::{Role, Slot};

/// A change that the outside makes to the box.
#[derive(Clone, Copy, Debug, PartialEq, Eq)]
pub enum Change {
    /// The setting takes this raw value.
    Set { slot: Slot, raw: u64 },
    /// PCAP is armed, with room for so many records.
    Arm { room: u64 },
    /// PCAP becomes idle.
    Disarm,
}

/// Whether the blocks take a value of a field of this role.
pub fn is_taken_role(role: Role) -> bool
    ensures { result ≡ is_taken_role role }
{
    match role {
        Role::Param | Role::Write | Role::Time | Role::BitMux | Role::PosMux => true,
        Role::Read | Role::BitOut | Role::PosOut | Role::ExtOut | Role::Table | Role::Attr => false,
    }
}
