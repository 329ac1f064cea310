use crate::stepping::{seeing, shows, stepped};
use pb_buses::{Edge, Machine};
use pb_logic::{Clock, Counter, Div, Lut, Srgate};
use pb_names::{clock, counter, div, edge, lut, srgate};

#[test]
fn a_lut_looks_its_inputs_up(rt: HostRuntime) {
    let mut block = Lut::new();
    block.set(lut::FUNC, 0xff00_0000);
    let ticks = [seeing(true)];
    assert_eq!(rt; stepped(&mut block, &ticks), shows(1, 0));
}

#[test]
fn a_gate_is_set_and_forced(rt: HostRuntime) {
    let mut block = Srgate::new();
    block.set(srgate::SET_EDGE, u64::from(edge::FALLING));
    let ticks = [seeing(true), seeing(false)];
    assert_eq!(rt; stepped(&mut block, &ticks), shows(1, 0));
    block.set(srgate::FORCE_RST, 0);
    let ticks = [seeing(false)];
    assert_eq!(rt; stepped(&mut block, &ticks), shows(0, 0));
}

#[test]
fn a_divider_counts_and_divides(rt: HostRuntime) {
    let mut block = Div::new();
    block.set(div::DIVISOR, 2);
    let ticks = [seeing(false), seeing(true)];
    assert_eq!(rt; stepped(&mut block, &ticks), shows(2, 0));
    assert_eq!(rt; block.read(div::COUNT), 1);
    assert_eq!(rt; stepped(&mut block, &ticks), shows(1, 0));
    assert_eq!(rt; block.read(div::COUNT), 0);
}

#[test]
fn a_counter_goes_over_its_end(rt: HostRuntime) {
    let mut block = Counter::new();
    block.set(counter::START, 1);
    block.set(counter::STEP, 2);
    block.set(counter::MAX, 2);
    let ticks = [seeing(false), seeing(true)];
    assert_eq!(rt; stepped(&mut block, &ticks), shows(1, 0));
}

#[test]
fn a_clock_is_high_for_its_width(rt: HostRuntime) {
    let mut block = Clock::new();
    block.set(clock::PERIOD, 3);
    block.set(clock::WIDTH, 2);
    let ticks = [seeing(false), seeing(false)];
    assert_eq!(rt; stepped(&mut block, &ticks), shows(1, 0));
    let ticks = [seeing(false)];
    assert_eq!(rt; stepped(&mut block, &ticks), shows(0, 0));
}

#[test]
fn either_edge_is_a_change(rt: HostRuntime) {
    let either = Edge::new(u64::from(edge::EITHER));
    assert_eq!(rt; either, Edge::Either);
    assert!(rt; either.is_at(true, false));
    assert!(rt; !either.is_at(true, true));
}
