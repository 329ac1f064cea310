ghost use Rattle.std.specs.Prelude.{◌≡◌, ◌+◌, ◌≤◌, ◌<◌, ◌++◌, vec_len, pos, slice_index_or};
ghost use Rattle.std.specs.Vec.{vec_capacity};
ghost use Rattle.pb_pcap.specs.Fields.{IsNamed, IsField, IsLayout, choice_size, field_size, size_of};
ghost use Rattle.pb_pcap.specs.Records as definition;

use crate::entries;
use crate::fields::{Choice, Field};
use crate::numbers::{put_i32, put_i64, put_u32, put_u64};
use pb_buses::Record;
use pb_names::position_bus;

/// Adds what is captured of a position.
fn put_position(bytes: &mut Vec<u8>, choice: Choice, entry: usize, row: &Record)
    requires entry { entry < 32 }
    requires room { vec_len bytes.old + choice_size choice ≤ vec_capacity bytes.old }
    ensures items { bytes.new.items ≡ bytes.old.items ++ definition.position_bytes choice entry row.now }
    ensures len { vec_len bytes.new ≡ vec_len bytes.old + choice_size choice }
    ensures capacity { vec_capacity bytes.old ≤ vec_capacity bytes.new }
{
    match choice {
        Choice::No => {}
        Choice::Value => put_i32(bytes, row.value[entry]),
        Choice::Min => put_i32(bytes, row.least[entry]),
        Choice::Max => put_i32(bytes, row.greatest[entry]),
        Choice::Sum => put_i64(bytes, row.sum[entry]),
        Choice::MinMax => put_extremes(bytes, entry, row),
        Choice::MinMaxSum => put_all(bytes, entry, row),
    }
}

/// Adds the least and the greatest value of a position.
fn put_extremes(bytes: &mut Vec<u8>, entry: usize, row: &Record)
    requires entry { entry < 32 }
    requires room { vec_len bytes.old + 8 ≤ vec_capacity bytes.old }
    ensures items { bytes.new.items ≡ bytes.old.items ++ (definition.int32 (slice_index_or row.now.least entry (pos 0)) ++ definition.int32 (slice_index_or row.now.greatest entry (pos 0))) }
    ensures len { vec_len bytes.new ≡ vec_len bytes.old + 8 }
    ensures capacity { vec_capacity bytes.old ≤ vec_capacity bytes.new }
{
    put_i32(bytes, row.least[entry]);
    put_i32(bytes, row.greatest[entry]);
}

/// Adds the least and the greatest value of a position, and its sum.
fn put_all(bytes: &mut Vec<u8>, entry: usize, row: &Record)
    requires entry { entry < 32 }
    requires room { vec_len bytes.old + 16 ≤ vec_capacity bytes.old }
    ensures items { bytes.new.items ≡ bytes.old.items ++ ((definition.int32 (slice_index_or row.now.least entry (pos 0)) ++ definition.int32 (slice_index_or row.now.greatest entry (pos 0))) ++ definition.int64 (slice_index_or row.now.sum entry (pos 0))) }
    ensures len { vec_len bytes.new ≡ vec_len bytes.old + 16 }
    ensures capacity { vec_capacity bytes.old ≤ vec_capacity bytes.new }
{
    put_extremes(bytes, entry, row);
    put_i64(bytes, row.sum[entry]);
}

/// The time stamp or the count of an entry.
fn stamp(entry: u8, row: &Record) -> u64
    ensures { result ≡ definition.stamp entry row.now }
{
    match entry {
        entries::TS_START => row.ts_start,
        entries::TS_END => row.ts_end,
        entries::TS_TRIG => row.ts_trig,
        _ => row.gate_duration,
    }
}

/// Adds a field of a record.
fn put_field(bytes: &mut Vec<u8>, field: &Field, row: &Record)
    requires named { IsNamed field.now.entry }
    requires room { vec_len bytes.old + field_size field.now ≤ vec_capacity bytes.old }
    ensures items { bytes.new.items ≡ bytes.old.items ++ definition.field_bytes field.now row.now }
    ensures len { vec_len bytes.new ≡ vec_len bytes.old + field_size field.now }
    ensures capacity { vec_capacity bytes.old ≤ vec_capacity bytes.new }
{
    if field.entry < position_bus::WIDTH {
        put_position(bytes, field.choice, usize::from(field.entry), row);
    } else if field.entry < entries::BITS0 {
        put_u64(bytes, stamp(field.entry, row));
    } else {
        put_u32(bytes, row.words[usize::from(field.entry - entries::BITS0)]);
    }
}

/// Adds a record.
pub(crate) fn put_record(bytes: &mut Vec<u8>, fields: &[Field], row: &Record)
    requires fields { IsLayout fields.now }
    requires room { vec_len bytes.old + size_of fields.now ≤ vec_capacity bytes.old }
    ensures items { bytes.new.items ≡ bytes.old.items ++ definition.record_bytes fields.now row.now }
    ensures len { vec_len bytes.new ≡ vec_len bytes.old + size_of fields.now }
    ensures capacity { vec_capacity bytes.old ≤ vec_capacity bytes.new }
{
    for field in fields {
        put_field(bytes, field, row);
    }
}
