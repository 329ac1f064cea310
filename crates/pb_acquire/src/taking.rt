ghost use Rattle.std.specs.Prelude.{◌≡◌, ◌≢◌, ◌+◌, ◌*◌, ◌/◌, ◌<◌, ◌≤◌, min, ◌^◌, length, take, drop, IfOk, OnErr, Some, IsSome};
ghost use Rattle.pb_pcap.specs.Fields.{size_of};
ghost use Rattle.pb_acquire.specs.Acquisitions.{Acquisition};
ghost use Rattle.pb_acquire.specs.Taking.{HandsBytes};
ghost use Rattle.pb_acquire.specs.Taking as definition;
ghost use Rattle.pb_acquire.specs.Kept.{IsOf};

use crate::acquiring::PIECE_LIMIT;
use crate::readers::{Reader, Taken};
use pb_buses::Condition;
use pb_encode::{end, header, piece};
use pb_pcap::Records;
use pb_words::OutOfMemory;
use std::alloc::Global;

/// What a reader takes of an acquisition that has been armed.
pub(crate) fn taken_of(
    alloc: Global,
    reader: &Reader,
    records: &Records,
    condition: Option<Condition>,
) -> Result<Taken, OutOfMemory>
    requires next { IsSome condition → reader.now.before + 1 < 2 ^ 64 }
    ensures ok { (own : Acquisition) → IsOf records.now condition own → IfOk result (λ taken. taken ≡ definition.taken_of reader.now own) }
    ensures err { (own : Acquisition) → IsOf records.now condition own → OnErr result (HandsBytes (definition.taken_of reader.now own)) }
{
    if reader.header_is_owed {
        return header_taken(alloc, reader, records);
    }
    if reader.given < records.len() {
        return records_taken(alloc, reader, records);
    }
    match condition {
        None => Ok(Taken::NotYet),
        Some(condition) => end_taken(alloc, reader, records.len(), condition),
    }
}

/// The header, and the reader after it.
fn header_taken(alloc: Global, reader: &Reader, records: &Records) -> Result<Taken, OutOfMemory>
    ensures { (own : Acquisition) → records.now.layout ≡ own.layout → IfOk result (λ taken. taken ≡ definition.header_taken reader.now own) }
{
    let text = header(alloc, &reader.options, records.layout())?;
    Ok(Taken::Bytes {
        text,
        reader: reader.after_header(),
    })
}

/// The next records, and the reader after them.
fn records_taken(alloc: Global, reader: &Reader, records: &Records) -> Result<Taken, OutOfMemory>
    requires { reader.now.given < records.now.count }
    ensures { (own : Acquisition) → IsOf records.now own.condition own → IfOk result (λ taken. taken ≡ definition.records_taken reader.now own) }
{
    let count = next_count(records.layout().size(), records.len() - reader.given);
    let raw = cut(records, reader.given, count);
    let text = piece(alloc, &reader.options, records.layout(), raw)?;
    Ok(Taken::Bytes {
        text,
        reader: reader.after_records(count),
    })
}

/// How many records of this size a piece has, if so many are left.
fn next_count(size: usize, left: u64) -> u64
    requires size { (0 < size) × (size ≤ 240) }
    requires left { 0 < left }
    ensures value { result ≡ min left (PIECE_LIMIT / size) }
    ensures some { 0 < result }
    ensures limit { result * size ≤ PIECE_LIMIT }
{
    left.min(PIECE_LIMIT / size as u64)
}

/// The bytes of so many records from one on.
fn cut(records: &Records, first: u64, count: u64) -> &[u8]
    requires { first + count ≤ records.now.count }
    ensures value { result.now ≡ take (count * size_of records.now.layout) (drop (first * size_of records.now.layout) records.now.bytes) }
    ensures len { length result.now ≡ count * size_of records.now.layout }
{
    let size = records.layout().size();
    part(records.bytes(), first as usize, count as usize, size)
}

/// The bytes of so many parts of this size from one on.
fn part(bytes: &[u8], first: usize, count: usize, size: usize) -> &[u8]
    requires { (first + count) * size ≤ length bytes.now }
    ensures value { result.now ≡ take (count * size) (drop (first * size) bytes.now) }
    ensures len { length result.now ≡ count * size }
{
    let rest = bytes.split_at(first * size).1;
    rest.split_at(count * size).0
}

/// The end, and the reader after it.
fn end_taken(
    alloc: Global,
    reader: &Reader,
    count: u64,
    condition: Condition,
) -> Result<Taken, OutOfMemory>
    requires { reader.now.before + 1 < 2 ^ 64 }
    ensures { IfOk result (λ taken. taken ≡ definition.end_taken reader.now count (Some condition)) }
{
    let text = end(alloc, &reader.options, count, condition)?;
    Ok(Taken::Bytes {
        text,
        reader: reader.after_end(),
    })
}
