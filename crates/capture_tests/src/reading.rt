ghost use Rattle.std.specs.Prelude.{◌≤◌};

use crate::adding::add;
use crate::samples::{counter_at, counter_only};
use pb_acquire::{Acquisitions, ArmFault, Piece};
use pb_buses::Condition;
use pb_encode::Options;
use pb_words::Refusal;
use std::process::Abort;

/// Opens a reader by an options line.
fn open(rt: &impl Abort, acquisitions: &mut Acquisitions, id: u32, line: &[u8])
    requires { (1 ≤ id) × (id ≤ 8) }
{
    match Options::parse(line) {
        Ok(options) => acquisitions.open(id, options),
        Err(_) => panic!(rt; "the line is refused"),
    }
}

/// The reader takes these bytes.
fn takes(rt: &impl Abort, acquisitions: &mut Acquisitions, id: u32, wanted: &[u8])
    requires { (1 ≤ id) × (id ≤ 8) }
{
    match acquisitions.take(id) {
        Ok(Piece::Bytes(text)) => assert!(rt; text.bytes() == wanted),
        _ => panic!(rt; "no bytes"),
    }
}

/// The reader takes nothing yet.
fn waits(rt: &impl Abort, acquisitions: &mut Acquisitions, id: u32)
    requires { (1 ≤ id) × (id ≤ 8) }
{
    match acquisitions.take(id) {
        Ok(Piece::NotYet) => {}
        _ => panic!(rt; "it doesn't wait"),
    }
}

/// Arms one of the counter alone.
fn arm(rt: &impl Abort, acquisitions: &mut Acquisitions) {
    assert!(rt; acquisitions.arm(counter_only()).is_ok());
}

/// A record with the counter at this value.
fn count(rt: &impl Abort, acquisitions: &mut Acquisitions, value: i32) {
    assert!(rt; add(acquisitions, &counter_at(value)).is_ok());
}

/// The one that runs is over.
fn end(rt: &impl Abort, acquisitions: &mut Acquisitions, condition: Condition) {
    let Some(_) = acquisitions.running() else {
        panic!(rt; "none runs")
    };
    acquisitions.complete(condition);
}

#[test]
fn four_readers_take_one_acquisition(rt: HostRuntime) {
    let Ok(mut acquisitions) = Acquisitions::new(rt.alloc()) else {
        panic!(rt; "no memory")
    };
    let all = &mut acquisitions;
    open(&rt, all, 1, b"ASCII UNSCALED");
    open(&rt, all, 2, b"FRAMED NO_HEADER");
    open(&rt, all, 3, b"BARE");
    waits(&rt, all, 1);
    assert!(rt; !all.is_active(1));
    arm(&rt, all);
    assert!(rt; all.is_active(1));
    count(&rt, all, 0);
    count(&rt, all, 1);
    open(&rt, all, 4, b"BASE64 NO_HEADER NO_STATUS");
    takes(&rt, all, 2, b"BIN \x10\0\0\0\0\0\0\0\x01\0\0\0");
    waits(&rt, all, 2);
    count(&rt, all, 2);
    end(&rt, all, Condition::Ok);
    let header =
        b"missed: 0\nprocess: Unscaled\nformat: ASCII\nfields:\n COUNTER1.OUT int32 Value\n\n";
    takes(&rt, all, 1, header);
    takes(&rt, all, 1, b" 0\n 1\n 2\n");
    takes(&rt, all, 1, b"END 3 Ok\n");
    waits(&rt, all, 1);
    takes(&rt, all, 2, b"BIN \x0c\0\0\0\x02\0\0\0");
    takes(&rt, all, 2, b"END 3 Ok\n");
    takes(&rt, all, 3, b"\0\0\0\0\x01\0\0\0\x02\0\0\0");
    takes(&rt, all, 3, b"");
    let Ok(Piece::Done) = all.take(3) else {
        panic!(rt; "one alone isn't done")
    };
    assert!(rt; all.is_open(3) && !all.is_active(3));
    takes(&rt, all, 4, b" AAAAAAEAAAACAAAA\n");
    takes(&rt, all, 4, b"");
    waits(&rt, all, 4);
}

#[test]
fn a_fifth_is_refused_while_four_are_held(rt: HostRuntime) {
    let Ok(mut acquisitions) = Acquisitions::new(rt.alloc()) else {
        panic!(rt; "no memory")
    };
    let all = &mut acquisitions;
    open(&rt, all, 1, b"ASCII UNSCALED NO_HEADER");
    for _ in 0..4_usize {
        arm(&rt, all);
        end(&rt, all, Condition::Disarmed);
    }
    let too_many = Err(ArmFault::Refused(Refusal::TooManyHeld));
    assert!(rt; all.arm(counter_only()) == too_many);
    takes(&rt, all, 1, b"END 0 Disarmed\n");
    arm(&rt, all);
    end(&rt, all, Condition::Disarmed);
    assert!(rt; all.arm(counter_only()) == too_many);
    for _ in 0..4_usize {
        takes(&rt, all, 1, b"END 0 Disarmed\n");
    }
    waits(&rt, all, 1);
    all.close(1);
    assert!(rt; !all.is_open(1));
}
