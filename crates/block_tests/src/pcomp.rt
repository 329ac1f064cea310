use crate::stepping::{seeing_at, shows, stepped};
use pb_buses::Machine;
use pb_names::{pcomp, pcomp_state};
use pb_pcomp::Pcomp;

#[test]
fn a_compare_makes_a_pulse_at_a_position(rt: HostRuntime) {
    let mut block = Pcomp::new();
    block.set(pcomp::START, 10);
    block.set(pcomp::WIDTH, 2);
    block.set(pcomp::PULSES, 1);
    let ticks = [seeing_at(0), seeing_at(9)];
    assert_eq!(rt; stepped(&mut block, &ticks), shows(2, 0));
    assert_eq!(rt;
        block.read(pcomp::STATE),
        u64::from(pcomp_state::WAIT_RISING)
    );
    let ticks = [seeing_at(10)];
    assert_eq!(rt; stepped(&mut block, &ticks), shows(3, 0));
    let ticks = [seeing_at(12)];
    assert_eq!(rt; stepped(&mut block, &ticks), shows(0, 0));
    assert_eq!(rt; block.read(pcomp::PRODUCED), 1);
}
