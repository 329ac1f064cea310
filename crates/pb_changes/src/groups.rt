ghost use Rattle.std.specs.Prelude.{◌≡◌};
ghost use Rattle.pb_fields.specs.Slots.{IsSlot};
ghost use Rattle.pb_changes.specs.Groups.{asked, is_in, is_setting, is_own};

use pb_fields::{Attribute, Role, Slot, attribute, is_assigned, role};

/// A group of a change report.
#[derive(Clone, Copy, Debug, PartialEq, Eq)]
pub enum Group {
    /// Param, time and mux fields.
    Config,
    /// Attributes that a control line can assign, RAW aside.
    Attr,
    /// Tables.
    Table,
    /// Outputs on the bit bus.
    Bits,
    /// Outputs on the position bus.
    Posn,
    /// Read fields.
    Read,
}

/// The groups that a command means: one, or all six in the order of a report.
pub(crate) fn asked(group: Option<Group>) -> &'static [Group]
    ensures { result.now ≡ asked group }
{
    match group {
        None => &[
            Group::Config,
            Group::Attr,
            Group::Table,
            Group::Bits,
            Group::Posn,
            Group::Read,
        ],
        Some(Group::Config) => &[Group::Config],
        Some(Group::Attr) => &[Group::Attr],
        Some(Group::Table) => &[Group::Table],
        Some(Group::Bits) => &[Group::Bits],
        Some(Group::Posn) => &[Group::Posn],
        Some(Group::Read) => &[Group::Read],
    }
}

/// Whether the slot belongs to the group.
pub(crate) fn is_in(group: Group, slot: Slot) -> bool
    requires { IsSlot slot }
    ensures { result ≡ is_in group slot }
{
    match group {
        Group::Config => is_setting(role(slot)),
        Group::Attr => is_own(attribute(slot)),
        Group::Table => matches!(role(slot), Role::Table),
        Group::Bits => matches!(role(slot), Role::BitOut),
        Group::Posn => matches!(role(slot), Role::PosOut),
        Group::Read => matches!(role(slot), Role::Read),
    }
}

/// Whether a field with this role is a setting.
fn is_setting(role: Role) -> bool
    ensures { result ≡ is_setting role }
{
    matches!(role, Role::Param | Role::Time | Role::BitMux | Role::PosMux)
}

/// Whether it is an attribute that is assigned for itself.
fn is_own(attribute: Option<Attribute>) -> bool
    ensures { result ≡ is_own attribute }
{
    match attribute {
        None | Some(Attribute::TimeRaw) => false,
        Some(attribute) => is_assigned(attribute),
    }
}
