use crate::adding::{add, make_room};
use crate::samples::{counted, motor_and_count};
use pb_acquire::{Acquisitions, ArmFault};
use pb_buses::Condition;
use pb_pcap::Layout;
use pb_words::Refusal;
use std::process::Abort;

/// How many records the latest acquisition has, and how it ended.
fn told(rt: &impl Abort, acquisitions: &Acquisitions, captured: u64, condition: Option<Condition>) {
    assert!(rt; acquisitions.captured() == captured);
    assert!(rt; acquisitions.condition() == condition);
}

/// Arming is answered so. Where memory lacks once, nothing changed, and it is armed again.
fn answers(
    rt: &impl Abort,
    acquisitions: &mut Acquisitions,
    layout: Layout,
    wanted: Result<u64, ArmFault>,
) {
    let again = layout.copy();
    let captured = acquisitions.captured();
    let condition = acquisitions.condition();
    let mut answer = acquisitions.arm(layout);
    if answer == Err(ArmFault::OutOfMemory) {
        assert!(rt; acquisitions.running().is_none());
        told(rt, acquisitions, captured, condition);
        answer = acquisitions.arm(again);
    }
    assert!(rt; answer == wanted);
}

/// A record is added. Where memory lacks once, nothing changed, and it is added again.
fn adds(rt: &impl Abort, acquisitions: &mut Acquisitions) {
    let captured = acquisitions.captured();
    if add(acquisitions, &counted()).is_err() {
        told(rt, acquisitions, captured, None);
        assert!(rt; add(acquisitions, &counted()).is_ok());
    }
}

/// One more acquisition, of one record, ends so.
fn end_by(rt: &impl Abort, acquisitions: &mut Acquisitions, condition: Condition) {
    answers(rt, acquisitions, motor_and_count(), Ok(3_355_443));
    adds(rt, acquisitions);
    let Some(_) = acquisitions.running() else {
        panic!(rt; "none is armed")
    };
    acquisitions.complete(condition);
    told(rt, acquisitions, 1, Some(condition));
}

#[test]
fn two_acquisitions_one_after_the_other(rt: HostRuntime) {
    let Ok(mut acquisitions) = Acquisitions::new(rt.alloc()) else {
        panic!(rt; "no memory")
    };
    told(&rt, &acquisitions, 0, None);
    assert!(rt; acquisitions.disarm() == Err(Refusal::NotArmed));
    let nothing = Err(ArmFault::Refused(Refusal::NothingCaptured));
    answers(&rt, &mut acquisitions, Layout::empty(), nothing);
    answers(&rt, &mut acquisitions, motor_and_count(), Ok(3_355_443));
    let already = Err(ArmFault::Refused(Refusal::AlreadyArmed));
    answers(&rt, &mut acquisitions, motor_and_count(), already);
    answers(&rt, &mut acquisitions, Layout::empty(), already);
    adds(&rt, &mut acquisitions);
    adds(&rt, &mut acquisitions);
    told(&rt, &acquisitions, 2, None);
    assert!(rt; acquisitions.disarm() == Ok(()));
    told(&rt, &acquisitions, 2, Some(Condition::Disarmed));
    answers(&rt, &mut acquisitions, motor_and_count(), Ok(3_355_443));
    told(&rt, &acquisitions, 0, None);
}

#[test]
fn records_are_lent_while_one_runs(rt: HostRuntime) {
    let Ok(mut acquisitions) = Acquisitions::new(rt.alloc()) else {
        panic!(rt; "no memory")
    };
    assert!(rt; acquisitions.running().is_none());
    answers(&rt, &mut acquisitions, motor_and_count(), Ok(3_355_443));
    assert!(rt; make_room(&mut acquisitions).is_ok());
    adds(&rt, &mut acquisitions);
    let Some(records) = acquisitions.running() else {
        panic!(rt; "none is armed")
    };
    let bytes = b"\xff\xff\xff\xff\x02\0\0\0\x02\x01\0\0\0\0\0\0\x05\0\0\0";
    assert!(rt; records.bytes() == bytes.as_slice());
    assert!(rt; records.len() == 1);
}

#[test]
fn an_end_is_told_until_the_next_arming(rt: HostRuntime) {
    let Ok(mut acquisitions) = Acquisitions::new(rt.alloc()) else {
        panic!(rt; "no memory")
    };
    end_by(&rt, &mut acquisitions, Condition::Overrun);
    assert!(rt; acquisitions.running().is_none());
    assert!(rt; acquisitions.disarm() == Err(Refusal::NotArmed));
    end_by(&rt, &mut acquisitions, Condition::Ok);
}
