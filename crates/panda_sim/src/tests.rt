ghost use Rattle.std.specs.Prelude.{◌≡◌, ◌<◌, ◌≤◌};

use super::*;
use pb_ports::{MemSink, MemSource};
use pb_stim::Cause;
use pb_words::OutOfMemory;
use std::process::Abort;
use std::test::Fail;

/// The script of the README, of 118 bytes.
const SCRIPT: &[u8] = b"0 C 1 LUT1.INPA=TTLIN1.VAL
0 C 1 LUT1.FUNC=~A
10 C 1 TTLIN1.VAL?
10 S TTLIN1 1
10 C 1 LUT1.OUT?
11 C 1 LUT1.OUT?
11 E
";

/// Its output: sections of 11, 11, 15, 15 and 15 bytes.
const OUTPUT: &[u8] = b"0 C 1 3
OK
0 C 1 3
OK
10 C 1 6
OK =1
10 C 1 6
OK =1
11 C 1 6
OK =0
";

/// The most bytes that a read gives, the number of the read that fails and of the write that does, how
/// the run ends, and how many bytes of the output are written.
type Try = (usize, Option<u64>, Option<u64>, Status, usize);

fn text_of(alloc: Global, bytes: &[u8]) -> Result<Text, OutOfMemory> {
    let mut text = Text::new(alloc);
    text.append(bytes)?;
    Ok(text)
}

/// How a replay of this script ends, and what it writes.
fn run_counted<L: Ledger>(
    alloc: Global,
    blank: Blank,
    script: Text,
    piece: usize,
    fails: (Option<u64>, Option<u64>),
) -> Result<(Status, Text), OutOfMemory>
    requires name { blank.name ≡ L.name }
    requires parts { blank.parts ≡ L.parts }
    requires some { 0 < blank.parts }
    requires piece { 1 ≤ piece }
{
    let mut words = Vec::new(alloc);
    words.push(text_of(alloc, b"replay")?)?;
    let mut input = MemSource::new(script, piece, fails.0);
    let mut output = MemSink::new(alloc, 4096, fails.1)?;
    let mut steps: Steps<L> = Steps::new(blank);
    let status = run(alloc, words.as_slice(), &mut input, &mut output, &mut steps);
    Ok((status, text_of(alloc, output.bytes())?))
}

fn replayed(
    alloc: Global,
    script: Text,
    piece: usize,
    fails: (Option<u64>, Option<u64>),
) -> Result<(Status, Text), OutOfMemory>
    requires { 1 ≤ piece }
{
    run_counted::<Brand>(alloc, Blank::new(1), script, piece, fails)
}

/// Replays the script of the README once for each row.
fn ends_as(rt: &impl Abort, alloc: Global, rows: &[Try]) -> Result<(), Fail> {
    for (piece, read, write, wanted, size) in rows {
        let piece = (*piece).max(1);
        let (status, written) = replayed(alloc, text_of(alloc, SCRIPT)?, piece, (*read, *write))?;
        assert_eq!(rt; status, *wanted);
        assert_eq!(rt; written.bytes().len(), *size);
        assert!(rt; OUTPUT.starts_with(written.bytes()));
    }
    Ok(())
}

#[test]
fn a_script_is_read_in_any_pieces(rt: HostRuntime) -> Result<(), Fail> {
    ends_as(
        &rt,
        rt.alloc(),
        &[
            (1, None, None, Status::Ok, 67),
            (7, None, None, Status::Ok, 67),
            (65536, None, None, Status::Ok, 67),
        ],
    )
}

// 118 bytes in pieces of 16 are eight reads, and the ninth finds the end.
#[test]
fn a_read_that_fails_writes_nothing(rt: HostRuntime) -> Result<(), Fail> {
    ends_as(
        &rt,
        rt.alloc(),
        &[
            (16, Some(1), None, Status::ReadFault, 0),
            (16, Some(2), None, Status::ReadFault, 0),
            (16, Some(8), None, Status::ReadFault, 0),
            (16, Some(9), None, Status::ReadFault, 0),
            (16, Some(10), None, Status::Ok, 67),
        ],
    )
}

// All sections are few, so there is one write.
#[test]
fn a_write_that_fails_leaves_a_front(rt: HostRuntime) -> Result<(), Fail> {
    ends_as(
        &rt,
        rt.alloc(),
        &[
            (16, None, Some(1), Status::WriteFault, 0),
            (16, None, Some(2), Status::Ok, 67),
        ],
    )
}

/// Line 1 has bytes 1 to 4 and each later line one byte, so byte 16 MiB + 1 is line 16 MiB - 2.
const TOO_LARGE: Status = Status::Script {
    line: 16_777_214,
    cause: Cause::TooLarge,
};

/// The end line and empty lines, of 1 KiB and so many further ones.
fn long_script(alloc: Global, more: usize) -> Result<Text, OutOfMemory> {
    let blank = [b'\n'; 1024];
    let mut text = text_of(alloc, b"0 E\n")?;
    text.append(&blank[..1020])?;
    for _block in 0..more {
        text.append(&blank)?;
    }
    Ok(text)
}

// A read takes at most 16 KiB. So 16 MiB are 1,024 reads, and the next one finds the end or takes the
// last piece, after which none is made: a later one that would fail isn't noticed. In pieces of 7 bytes
// the first byte beyond 16 MiB comes with read 2,396,746.
#[test]
fn no_read_is_made_beyond_16_mib(rt: HostRuntime) -> Result<(), Fail> {
    let table = [
        (16_383, 65_536, 1_025, Status::ReadFault),
        (16_383, 65_536, 1_026, Status::Ok),
        (16_500, 65_536, 1_025, Status::ReadFault),
        (16_500, 65_536, 1_026, TOO_LARGE),
        (16_500, 7, 2_396_746, Status::ReadFault),
        (16_500, 7, 2_396_747, TOO_LARGE),
    ];
    for (more, piece, read, wanted) in table {
        let script = long_script(rt.alloc(), more)?;
        let (status, written) = replayed(rt.alloc(), script, piece, (Some(read), None))?;
        assert_eq!(rt; status, wanted);
        assert_eq!(rt; written.bytes().len(), 0);
    }
    Ok(())
}
