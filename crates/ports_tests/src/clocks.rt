use pb_ports::{ClockPacer, Pacer};
use std::process::Abort;
use std::sync::Wait;
use std::test::Fail;

/// The moments before and after a pause.
fn around_a_pause<P: Pacer, R: Wait>(rt: &R, pacer: &mut P) -> (u64, u64) {
    let before = pacer.now();
    pacer.pause(rt);
    (before, pacer.now())
}

#[test]
fn a_pause_takes_a_millisecond_of_ticks(rt: HostRuntime) -> Result<(), Fail> {
    let mut pacer = ClockPacer::new(rt);
    let mut other = pacer;
    let (before, after) = around_a_pause(&rt, &mut pacer);
    assert!(rt; before <= after);
    assert!(rt; 125_000 <= after - before);
    assert!(rt; after <= other.now());
    Ok(())
}
