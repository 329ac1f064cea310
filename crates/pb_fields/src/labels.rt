ghost use Rattle.std.specs.Prelude.{◌≡◌, ◌≢◌, ℕ, ◌<◌, ◌≤◌, nat_le, length, map, slice_get, Some, ◌↔◌, IsTrue, IsSome, IfSome, IfNone};
ghost use Rattle.std.specs.List.{list_all};
ghost use Rattle.pb_fields.specs.Labels.{label_list, bit_names, position_names, bit_mux_label, position_mux_label};

use pb_names::{bit_bus, label_lists, position_bus};

static WHEN_DISABLED: [&str; 3] = ["Set output low", "Set output high", "Keep current output"];

static EDGES: [&str; 3] = ["Rising", "Falling", "Either"];

static FIRST_PULSES: [&str; 2] = ["OutN", "OutD"];

static SEQ_STATES: [&str; 5] = ["UNREADY", "WAIT_ENABLE", "WAIT_TRIGGER", "PHASE1", "PHASE2"];

static RELATIONS: [&str; 2] = ["Absolute", "Relative"];

static DIRECTIONS: [&str; 3] = ["Positive", "Negative", "Either"];

static PCOMP_STATES: [&str; 5] = [
    "WAIT_ENABLE",
    "WAIT_DIR",
    "WAIT_PRE_START",
    "WAIT_RISING",
    "WAIT_FALLING",
];

static POSITION_CAPTURES: [&str; 7] = [
    "No",
    "Value",
    "Min",
    "Max",
    "Sum",
    "Min Max",
    "Min Max Sum",
];

static OWN_CAPTURES: [&str; 2] = ["No", "Value"];

static TIME_UNITS: [&str; 3] = ["s", "ms", "us"];

static BIT_NAMES: [&str; 63] = [
    "TTLIN1.VAL",
    "TTLIN2.VAL",
    "TTLIN3.VAL",
    "TTLIN4.VAL",
    "TTLIN5.VAL",
    "TTLIN6.VAL",
    "LUT1.OUT",
    "LUT2.OUT",
    "LUT3.OUT",
    "LUT4.OUT",
    "LUT5.OUT",
    "LUT6.OUT",
    "LUT7.OUT",
    "LUT8.OUT",
    "SRGATE1.OUT",
    "SRGATE2.OUT",
    "SRGATE3.OUT",
    "SRGATE4.OUT",
    "DIV1.OUTD",
    "DIV1.OUTN",
    "DIV2.OUTD",
    "DIV2.OUTN",
    "DIV3.OUTD",
    "DIV3.OUTN",
    "DIV4.OUTD",
    "DIV4.OUTN",
    "PULSE1.OUT",
    "PULSE2.OUT",
    "PULSE3.OUT",
    "PULSE4.OUT",
    "COUNTER1.CARRY",
    "COUNTER2.CARRY",
    "COUNTER3.CARRY",
    "COUNTER4.CARRY",
    "COUNTER5.CARRY",
    "COUNTER6.CARRY",
    "COUNTER7.CARRY",
    "COUNTER8.CARRY",
    "CLOCK1.OUT",
    "CLOCK2.OUT",
    "SEQ1.OUTA",
    "SEQ1.OUTB",
    "SEQ1.OUTC",
    "SEQ1.OUTD",
    "SEQ1.OUTE",
    "SEQ1.OUTF",
    "SEQ1.ACTIVE",
    "SEQ2.OUTA",
    "SEQ2.OUTB",
    "SEQ2.OUTC",
    "SEQ2.OUTD",
    "SEQ2.OUTE",
    "SEQ2.OUTF",
    "SEQ2.ACTIVE",
    "PCOMP1.OUT",
    "PCOMP1.ACTIVE",
    "PCOMP2.OUT",
    "PCOMP2.ACTIVE",
    "PCAP.ACTIVE",
    "BITS.OUTA",
    "BITS.OUTB",
    "BITS.OUTC",
    "BITS.OUTD",
];

static POSITION_NAMES: [&str; 12] = [
    "INENC1.VAL",
    "INENC2.VAL",
    "INENC3.VAL",
    "INENC4.VAL",
    "COUNTER1.OUT",
    "COUNTER2.OUT",
    "COUNTER3.OUT",
    "COUNTER4.OUT",
    "COUNTER5.OUT",
    "COUNTER6.OUT",
    "COUNTER7.OUT",
    "COUNTER8.OUT",
];

/// The raw value of a bit mux that selects ZERO.
pub(crate) const BIT_ZERO: u64 = bit_bus::ZERO as u64;

/// The raw value of a bit mux that selects ONE.
pub(crate) const BIT_ONE: u64 = bit_bus::ONE as u64;

/// The raw value of a position mux that selects ZERO.
pub(crate) const POSITION_ZERO: u64 = position_bus::ZERO as u64;

/// The number of labels in the list of that number; 0 where there is no such list.
pub fn label_count(labels: u8) -> u8
    ensures { result ≡ length (label_list labels) }
{
    label_texts(labels).len() as u8
}

/// The labels in the list of that number; none where there is no such list.
#[tactic(auto, unfolding(crate::specs::Labels::label_list))]
pub fn label_texts(labels: u8) -> &'static [&'static str]
    ensures texts { map (λ s. s.now) result.now ≡ label_list labels }
    ensures few { length result.now < 256 }
    ensures short { IsTrue (list_all (λ s. nat_le (length s.now) 64) result.now) }
{
    match labels {
        label_lists::WHEN_DISABLED => &WHEN_DISABLED,
        label_lists::EDGE => &EDGES,
        label_lists::FIRST_PULSE => &FIRST_PULSES,
        label_lists::SEQ_STATE => &SEQ_STATES,
        label_lists::RELATIVE => &RELATIONS,
        label_lists::DIRECTION => &DIRECTIONS,
        label_lists::PCOMP_STATE => &PCOMP_STATES,
        label_lists::POSITION_CAPTURE => &POSITION_CAPTURES,
        label_lists::FIELD_CAPTURE => &OWN_CAPTURES,
        label_lists::TIME_UNITS => &TIME_UNITS,
        _ => &[],
    }
}

/// The label of that number in the list.
#[tactic(auto, using(crate::proofs::LabelLemmas::labels))]
pub fn label(labels: u8, number: u64) -> &'static [u8]
    requires { number < length (label_list labels) }
    ensures text { slice_get (label_list labels) number ≡ Some result.now }
    ensures short { length result.now ≤ 64 }
{
    label_texts(labels)[number as usize].as_bytes()
}

/// The place of the label that is the text.
#[tactic(auto, using(crate::proofs::LabelLemmas::labels))]
pub fn place_of(labels: &[&str], text: &[u8]) -> Option<usize>
    ensures found { IfSome result (λ i. slice_get (map (λ s. s.now) labels.now) i ≡ Some text.now) }
    ensures none { IfNone result ((i : ℕ) → slice_get (map (λ s. s.now) labels.now) i ≢ Some text.now) }
{
    for (i, label) in labels.iter().enumerate() {
        if is_written(label, text) {
            return Some(i);
        }
    }
    None
}

fn is_written(label: &str, text: &[u8]) -> bool
    ensures { IsTrue result ↔ (label.now ≡ text.now) }
{
    label.as_bytes() == text
}

#[tactic(auto, unfolding(crate::specs::Labels::bit_names))]
fn bit_texts() -> &'static [&'static str]
    ensures texts { map (λ s. s.now) result.now ≡ bit_names }
    ensures few { length result.now ≡ 63 }
    ensures short { IsTrue (list_all (λ s. nat_le (length s.now) 64) result.now) }
{
    &BIT_NAMES
}

#[tactic(auto, unfolding(crate::specs::Labels::position_names))]
fn position_texts() -> &'static [&'static str]
    ensures texts { map (λ s. s.now) result.now ≡ position_names }
    ensures few { length result.now ≡ 12 }
    ensures short { IsTrue (list_all (λ s. nat_le (length s.now) 64) result.now) }
{
    &POSITION_NAMES
}

/// What a bit mux with this label selects.
pub fn bit_mux_selection(text: &[u8]) -> Option<u64>
    ensures found { IfSome result (λ raw. bit_mux_label raw ≡ Some text.now) }
    ensures none { IfNone result ((raw : ℕ) → bit_mux_label raw ≢ Some text.now) }
{
    if is_written("ZERO", text) {
        return Some(BIT_ZERO);
    }
    if is_written("ONE", text) {
        return Some(BIT_ONE);
    }
    match place_of(bit_texts(), text) {
        Some(entry) => Some(entry as u64),
        None => None,
    }
}

/// What a position mux with this label selects.
pub fn position_mux_selection(text: &[u8]) -> Option<u64>
    ensures found { IfSome result (λ raw. position_mux_label raw ≡ Some text.now) }
    ensures none { IfNone result ((raw : ℕ) → position_mux_label raw ≢ Some text.now) }
{
    if is_written("ZERO", text) {
        return Some(POSITION_ZERO);
    }
    match place_of(position_texts(), text) {
        Some(entry) => Some(entry as u64),
        None => None,
    }
}

/// The label of what a bit mux selects.
#[tactic(auto, using(crate::proofs::LabelLemmas::labels))]
pub fn bit_mux_label(raw: u64) -> &'static [u8]
    requires { IsSome (bit_mux_label raw) }
    ensures text { bit_mux_label raw ≡ Some result.now }
    ensures short { length result.now ≤ 64 }
{
    match raw {
        BIT_ZERO => b"ZERO",
        BIT_ONE => b"ONE",
        _ => bit_texts()[raw as usize].as_bytes(),
    }
}

/// The label of what a position mux selects.
#[tactic(auto, using(crate::proofs::LabelLemmas::labels))]
pub fn position_mux_label(raw: u64) -> &'static [u8]
    requires { IsSome (position_mux_label raw) }
    ensures text { position_mux_label raw ≡ Some result.now }
    ensures short { length result.now ≤ 64 }
{
    match raw {
        POSITION_ZERO => b"ZERO",
        _ => position_texts()[raw as usize].as_bytes(),
    }
}
