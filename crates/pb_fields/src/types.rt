ghost use Rattle.std.specs.Prelude.{◌≡◌, ◌≤◌, length};
ghost use Rattle.pb_fields.specs.Types.{attributes_of, attribute_default, field_kind, role_of, attribute_text, attribute_kind, limit_of, is_assigned, type_text};

use crate::kinds::FieldKind;
use crate::roles::Role;
use pb_names::{bit_bus, label_lists, time_units};

/// The type of a field, with its subtype.
#[derive(Clone, Copy, Debug, PartialEq, Eq)]
pub enum FieldType {
    ParamUint { limit: u64 },
    ParamInt,
    ParamBit,
    ParamEnum { labels: u8 },
    ParamLut,
    ReadUint,
    ReadEnum { labels: u8 },
    WriteAction,
    Time { limit: u64 },
    BitOut,
    PosOut,
    ExtOut,
    /// An ext_out that is a word of the bit bus.
    BitWord,
    BitMux,
    PosMux,
    Table,
}

/// What an attribute tells.
#[derive(Clone, Copy, Debug, PartialEq, Eq)]
pub enum Attribute {
    Info,
    Max,
    Labels,
    /// The function as a number.
    LutRaw,
    TimeUnits,
    /// The time in ticks.
    TimeRaw,
    CaptureWord,
    /// The place of a bit in its word.
    BitOffset,
    /// What is captured of a position.
    PosCapture,
    Offset,
    Scale,
    Units,
    Scaled,
    /// Whether a time stamp, a count or a word is captured.
    ExtCapture,
    Bits,
    Delay,
    MaxDelay,
    MaxLength,
    Length,
    RowWords,
    Fields,
    Base64,
}

/// The greatest value of a `uint` without a limit of its own.
pub(crate) const WORD_MAX: u64 = 0xffff_ffff;

/// The attributes of a field of this type, in their order.
pub fn attributes(of: FieldType) -> &'static [Attribute]
    ensures list { result.now ≡ attributes_of of }
    ensures few { length result.now ≤ 6 }
{
    match of {
        FieldType::ParamUint { .. } => &[Attribute::Info, Attribute::Max],
        FieldType::ParamInt
        | FieldType::ParamBit
        | FieldType::ReadUint
        | FieldType::WriteAction
        | FieldType::PosMux => &[Attribute::Info],
        FieldType::ParamEnum { .. } | FieldType::ReadEnum { .. } => {
            &[Attribute::Info, Attribute::Labels]
        }
        FieldType::ParamLut => &[Attribute::Info, Attribute::LutRaw],
        FieldType::Time { .. } => &[Attribute::Info, Attribute::TimeUnits, Attribute::TimeRaw],
        FieldType::BitOut => &[
            Attribute::Info,
            Attribute::CaptureWord,
            Attribute::BitOffset,
        ],
        FieldType::PosOut => &[
            Attribute::Info,
            Attribute::PosCapture,
            Attribute::Offset,
            Attribute::Scale,
            Attribute::Units,
            Attribute::Scaled,
        ],
        FieldType::ExtOut => &[Attribute::Info, Attribute::ExtCapture],
        FieldType::BitWord => &[Attribute::Info, Attribute::ExtCapture, Attribute::Bits],
        FieldType::BitMux => &[Attribute::Info, Attribute::Delay, Attribute::MaxDelay],
        FieldType::Table => &[
            Attribute::Info,
            Attribute::MaxLength,
            Attribute::Length,
            Attribute::RowWords,
            Attribute::Fields,
            Attribute::Base64,
        ],
    }
}

/// The name of an attribute.
pub fn attribute_name(attribute: Attribute) -> &'static [u8]
    ensures text { result.now ≡ attribute_text attribute }
    ensures short { length result.now ≤ 12 }
{
    match attribute {
        Attribute::Info => b"INFO",
        Attribute::Max => b"MAX",
        Attribute::Labels => b"LABELS",
        Attribute::LutRaw | Attribute::TimeRaw => b"RAW",
        Attribute::TimeUnits | Attribute::Units => b"UNITS",
        Attribute::CaptureWord => b"CAPTURE_WORD",
        Attribute::BitOffset | Attribute::Offset => b"OFFSET",
        Attribute::PosCapture | Attribute::ExtCapture => b"CAPTURE",
        Attribute::Scale => b"SCALE",
        Attribute::Scaled => b"SCALED",
        Attribute::Bits => b"BITS",
        Attribute::Delay => b"DELAY",
        Attribute::MaxDelay => b"MAX_DELAY",
        Attribute::MaxLength => b"MAX_LENGTH",
        Attribute::Length => b"LENGTH",
        Attribute::RowWords => b"ROW_WORDS",
        Attribute::Fields => b"FIELDS",
        Attribute::Base64 => b"B",
    }
}

/// Whether a control line can assign the attribute.
pub fn is_assigned(attribute: Attribute) -> bool
    ensures { result ≡ is_assigned attribute }
{
    match attribute {
        Attribute::TimeUnits
        | Attribute::TimeRaw
        | Attribute::PosCapture
        | Attribute::Offset
        | Attribute::Scale
        | Attribute::Units
        | Attribute::ExtCapture
        | Attribute::Delay => true,
        _ => false,
    }
}

/// The type as INFO tells it, as `param uint` or `bit_out`.
pub fn type_name(of: FieldType) -> &'static [u8]
    ensures { result.now ≡ type_text of }
{
    match of {
        FieldType::ParamUint { .. } => b"param uint",
        FieldType::ParamInt => b"param int",
        FieldType::ParamBit => b"param bit",
        FieldType::ParamEnum { .. } => b"param enum",
        FieldType::ParamLut => b"param lut",
        FieldType::ReadUint => b"read uint",
        FieldType::ReadEnum { .. } => b"read enum",
        FieldType::WriteAction => b"write action",
        FieldType::Time { .. } => b"time",
        FieldType::BitOut => b"bit_out",
        FieldType::PosOut => b"pos_out",
        FieldType::ExtOut | FieldType::BitWord => b"ext_out",
        FieldType::BitMux => b"bit_mux",
        FieldType::PosMux => b"pos_mux",
        FieldType::Table => b"table",
    }
}

/// What the value of a field of this type is.
pub(crate) fn field_kind(of: FieldType) -> FieldKind
    ensures { result ≡ field_kind of }
{
    match of {
        FieldType::ParamUint { limit } => FieldKind::Uint { limit },
        FieldType::ReadUint => FieldKind::Uint { limit: WORD_MAX },
        FieldType::ParamInt | FieldType::PosOut => FieldKind::Int,
        FieldType::ParamBit | FieldType::BitOut => FieldKind::Bit,
        FieldType::ParamEnum { labels } | FieldType::ReadEnum { labels } => {
            FieldKind::Enum { labels }
        }
        FieldType::ParamLut => FieldKind::Lut,
        FieldType::WriteAction => FieldKind::Action,
        FieldType::Time { limit } => FieldKind::Time {
            limit,
            units: time_units::S,
        },
        FieldType::BitMux => FieldKind::BitMux,
        FieldType::PosMux => FieldKind::PosMux,
        FieldType::ExtOut | FieldType::BitWord | FieldType::Table => FieldKind::Text,
    }
}

/// What a field of this type is to its block.
pub(crate) fn field_role(of: FieldType) -> Role
    ensures { result ≡ role_of of }
{
    match of {
        FieldType::ParamUint { .. }
        | FieldType::ParamInt
        | FieldType::ParamBit
        | FieldType::ParamEnum { .. }
        | FieldType::ParamLut => Role::Param,
        FieldType::ReadUint | FieldType::ReadEnum { .. } => Role::Read,
        FieldType::WriteAction => Role::Write,
        FieldType::Time { .. } => Role::Time,
        FieldType::BitOut => Role::BitOut,
        FieldType::PosOut => Role::PosOut,
        FieldType::ExtOut | FieldType::BitWord => Role::ExtOut,
        FieldType::BitMux => Role::BitMux,
        FieldType::PosMux => Role::PosMux,
        FieldType::Table => Role::Table,
    }
}

/// What the value of an attribute is, at a field of this type.
pub(crate) fn attribute_kind(attribute: Attribute, of: FieldType) -> FieldKind
    ensures { result ≡ attribute_kind attribute of }
{
    match attribute {
        Attribute::Info
        | Attribute::Labels
        | Attribute::CaptureWord
        | Attribute::Units
        | Attribute::Scaled
        | Attribute::Bits
        | Attribute::Fields
        | Attribute::Base64 => FieldKind::Text,
        Attribute::Max | Attribute::TimeRaw => FieldKind::Uint { limit: limit(of) },
        Attribute::LutRaw => FieldKind::Lut,
        Attribute::TimeUnits => FieldKind::Enum {
            labels: label_lists::TIME_UNITS,
        },
        Attribute::BitOffset => FieldKind::Uint { limit: 31 },
        Attribute::Delay | Attribute::MaxDelay => FieldKind::Uint {
            limit: bit_bus::MAX_DELAY as u64,
        },
        Attribute::PosCapture => FieldKind::Enum {
            labels: label_lists::POSITION_CAPTURE,
        },
        Attribute::ExtCapture => FieldKind::Enum {
            labels: label_lists::FIELD_CAPTURE,
        },
        Attribute::Offset | Attribute::Scale => FieldKind::Decimal,
        Attribute::MaxLength | Attribute::Length => FieldKind::Uint { limit: 16384 },
        Attribute::RowWords => FieldKind::Uint { limit: 4 },
    }
}

/// The raw value that an attribute has at first: SCALE is 1, in billionths.
pub(crate) fn attribute_default(attribute: Attribute) -> u64
    ensures { result ≡ attribute_default attribute }
{
    match attribute {
        Attribute::Scale => 1_000_000_000,
        _ => 0,
    }
}

/// The greatest value of a field of this type that has a limit of its own.
fn limit(of: FieldType) -> u64
    ensures { result ≡ limit_of of }
{
    match of {
        FieldType::ParamUint { limit } | FieldType::Time { limit } => limit,
        _ => WORD_MAX,
    }
}
