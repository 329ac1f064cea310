use pb_changes::Group;
use pb_fields::Slot;

/// What a target names.
#[derive(Clone, Copy)]
pub(crate) enum Named {
    /// `*IDN`: who answers.
    Identity,
    /// `*WHO`: the sessions that are open.
    Sessions,
    /// `*BLOCKS`: all blocks.
    Blocks,
    /// `*POSITIONS`: the entries of the position bus.
    Positions,
    /// `*CAPTURE`: what is captured.
    Captures,
    /// `*CHANGES`: what has changed, of one group or of all.
    Changes(Option<Group>),
    /// `*PCAP.ARM`.
    Arming,
    /// `*PCAP.DISARM`.
    Disarming,
    /// `*PCAP.STATUS`: whether one is armed or running, and how many readers there are.
    Status,
    /// `*PCAP.CAPTURED`: how many records the latest acquisition has.
    Captured,
    /// `*PCAP.COMPLETION`: how the latest acquisition ended.
    Completion,
    /// `*ENUMS.` and a field or an attribute: its labels.
    Labels(Slot),
    /// All fields of the block at this place.
    Fields(u8),
    /// All attributes of a field.
    Attributes(Slot),
    /// A field or an attribute.
    Value(Slot),
}
