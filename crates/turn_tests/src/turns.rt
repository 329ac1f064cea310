use crate::counters::{Counter, by_eight, by_two, calls};
use pb_turn::{Entered, Turn};
use std::test::Fail;
use std::time::Instant;

#[test]
fn a_turn_of_one_part_is_closed_at_once(rt: HostRuntime) -> Result<(), Fail> {
    let Ok((turn, pass)) = Turn::new(rt.alloc(), Counter::new(7), 1) else {
        panic!(rt; "no memory")
    };
    let counter = turn.close(pass);
    assert!(rt; counter.count() == 0 && counter.name() == 7);
    Ok(())
}

#[test]
fn busy_while_another_holds_the_turn(rt: HostRuntime) -> Result<(), Fail> {
    let Ok((turn, pass)) = Turn::new(rt.alloc(), Counter::new(7), 2) else {
        panic!(rt; "no memory")
    };
    let (mine, theirs) = turn.split(pass, 1);
    let entered = turn.try_enter(mine);
    let Entered::Held(mut held) = entered else {
        panic!(rt; "nobody holds the turn")
    };
    let entered = turn.try_enter(theirs);
    let Entered::Busy(theirs) = entered else {
        panic!(rt; "the turn is held")
    };
    held.value().bump(false);
    let mine = held.leave(&1);
    let entered = turn.try_enter(theirs);
    let Entered::Held(mut held) = entered else {
        panic!(rt; "nobody holds the turn now")
    };
    assert!(rt; held.value().count() == 1);
    held.value().bump(false);
    let theirs = held.leave(&2);
    let pass = turn.join(mine, theirs);
    assert!(rt; turn.close(pass).count() == 2);
    Ok(())
}

#[test]
fn two_threads_lose_no_call(rt: HostRuntime) -> Result<(), Fail> {
    let Ok((turn, pass)) = Turn::new(rt.alloc(), Counter::new(7), 2) else {
        panic!(rt; "no memory")
    };
    let pass = by_two(&rt, &turn, pass, 100, true);
    assert!(rt; turn.close(pass).count() == 200);
    Ok(())
}

#[test]
fn eight_threads_lose_no_call(rt: HostRuntime) -> Result<(), Fail> {
    let Ok((turn, pass)) = Turn::new(rt.alloc(), Counter::new(7), 8) else {
        panic!(rt; "no memory")
    };
    let pass = by_eight(&rt, &turn, pass, 100, true);
    let counter = turn.close(pass);
    assert!(rt; counter.count() == 800 && counter.name() == 7);
    Ok(())
}

// Prints what a turn costs, alone and among eight threads.
#[test]
fn speed_of_turns(rt: HostRuntime) -> Result<(), Fail> {
    let Ok((turn, pass)) = Turn::new(rt.alloc(), Counter::new(7), 8) else {
        panic!(rt; "no memory")
    };
    let start = Instant::now(&rt)?;
    let pass = calls(&rt, &turn, pass, 1, 80_000, false);
    let alone = start.elapsed(&rt)?.as_micros();
    let start = Instant::now(&rt)?;
    let pass = by_eight(&rt, &turn, pass, 10_000, false);
    let eight = start.elapsed(&rt)?.as_micros();
    eprintln!(rt; "80,000 turns: {alone} us by one thread, {eight} us by eight")?;
    assert!(rt; turn.close(pass).count() == 160_000);
    Ok(())
}
