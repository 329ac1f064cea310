use crate::fakes::Fake;
use pb_changes::{Group, Marks};
use pb_fields::Slot;
use pb_names::{ITSELF, lut};
use std::alloc::Global;
use std::process::Abort;

/// The report is these bytes, unless memory lacks.
fn reports(
    rt: &impl Abort,
    alloc: Global,
    marks: &mut Marks,
    group: Option<Group>,
    face: &mut Fake,
    wanted: &[u8],
) {
    match marks.report(alloc, group, face) {
        Ok(text) => assert_eq!(rt; text.bytes(), wanted),
        Err(_) => panic!(rt; "out of memory"),
    }
}

/// Tick 10: LUT1.FUNC was the third assignment, and TTLIN2, which is entry 1, changed at tick 7.
fn at_ten() -> Fake {
    Fake {
        slot: Slot {
            block: lut::BLOCK,
            instance: 1,
            field: lut::FUNC,
            attr: ITSELF,
        },
        place: 3,
        entry: 1,
        changed: 7,
        tick: 10,
        count: 3,
    }
}

#[test]
fn new_session_has_every_line(rt: HostRuntime) {
    let mut face = at_ten();
    let mut marks = Marks::new();
    let Ok(text) = marks.report(rt.alloc(), None, &mut face) else {
        panic!(rt; "out of memory");
    };
    let bytes = text.bytes();
    assert_eq!(rt; bytes.iter().filter(|byte| **byte == b'\n').count(), 505);
    assert!(rt; bytes.starts_with(b"!BITS.A=7\n!BITS.B=7\n"));
    assert!(rt; bytes.ends_with(b"!PCOMP2.STATE=WAIT_ENABLE\n!PCOMP2.PRODUCED=0\n.\n"));
    reports(&rt, rt.alloc(), &mut marks, None, &mut face, b".\n");
}

#[test]
fn what_came_after_a_reset_is_reported_once(rt: HostRuntime) {
    let mut face = at_ten();
    let mut before = face;
    before.place = 0;
    before.changed = 0;
    before.tick = 0;
    before.count = 0;
    let mut marks = Marks::new();
    marks.reset(None, false, &mut before);
    reports(
        &rt,
        rt.alloc(),
        &mut marks,
        None,
        &mut face,
        b"!LUT1.FUNC=7\n!TTLIN2.VAL=7\n.\n",
    );
    reports(&rt, rt.alloc(), &mut marks, None, &mut face, b".\n");
}

#[test]
fn tables_are_reported_again_after_their_reset(rt: HostRuntime) {
    let mut face = at_ten();
    let mut marks = Marks::new();
    marks.reset(None, false, &mut face);
    marks.reset(Some(Group::Table), true, &mut face);
    reports(
        &rt,
        rt.alloc(),
        &mut marks,
        None,
        &mut face,
        b"!SEQ1.TABLE<\n!SEQ2.TABLE<\n.\n",
    );
}

#[test]
fn assignments_beyond_the_last_place_are_reported_again(rt: HostRuntime) {
    let mut face = at_ten();
    face.place = u64::MAX;
    face.count = u64::MAX;
    let mut marks = Marks::new();
    marks.reset(None, false, &mut face);
    for _time in 0..2 {
        reports(
            &rt,
            rt.alloc(),
            &mut marks,
            Some(Group::Config),
            &mut face,
            b"!LUT1.FUNC=7\n.\n",
        );
    }
}
