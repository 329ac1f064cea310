use pb_buses::Record;
use pb_pcap::{Choice, Layout, Units};
use pb_words::Decimal9;

/// The entries of INENC1.VAL and COUNTER1.OUT on the position bus.
const MOTOR: u8 = 0;

const COUNTER: u8 = 4;

/// `INENC1.VAL Min Max Sum` and `COUNTER1.OUT Value`: 20 bytes a record.
pub fn motor_and_count() -> Layout {
    let one = Decimal9 {
        billionths: 1_000_000_000,
    };
    let none = Decimal9 { billionths: 0 };
    let mut layout = Layout::empty();
    layout.add(MOTOR, Choice::MinMaxSum, one, none, Units::new(b"mm"));
    layout.add(COUNTER, Choice::Value, one, none, Units::new(&[]));
    layout
}

/// A record of which the motor was between -1 and 2, with the sum 258, and the counter at 5.
pub fn counted() -> Record {
    Record {
        value: [5; 32],
        least: [-1; 32],
        greatest: [2; 32],
        sum: [258; 32],
        ts_start: 0,
        ts_end: 0,
        ts_trig: 0,
        gate_duration: 0,
        words: [0; 4],
    }
}

/// `COUNTER1.OUT Value`: 4 bytes a record.
pub fn counter_only() -> Layout {
    let one = Decimal9 {
        billionths: 1_000_000_000,
    };
    let none = Decimal9 { billionths: 0 };
    let mut layout = Layout::empty();
    layout.add(COUNTER, Choice::Value, one, none, Units::new(&[]));
    layout
}

/// A record of which the counter is at this value.
pub fn counter_at(value: i32) -> Record {
    Record {
        value: [value; 32],
        ..counted()
    }
}
