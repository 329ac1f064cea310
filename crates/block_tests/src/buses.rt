ghost use Rattle.std.specs.Prelude.{◌≤◌};

use pb_buses::{Buses, Inputs, Mux};

/// Whether a pulse one tick long is seen exactly with this delay.
fn is_seen_after(delay: u8) -> bool
    requires { delay ≤ 31 }
{
    let mut mux = Mux::new();
    mux.set_delay(delay);
    let mut right = mux.seen(true) == (delay == 0);
    mux.shift(true, 1);
    for tick in 1..40 {
        right = right && mux.seen(false) == (tick == delay);
        mux.shift(false, 1);
    }
    right
}

#[test]
fn pulse_is_seen_after_its_delay(rt: HostRuntime) {
    assert!(rt; is_seen_after(0));
    assert!(rt; is_seen_after(1));
    assert!(rt; is_seen_after(30));
    assert!(rt; is_seen_after(31));
}

#[test]
fn rewiring_keeps_the_line(rt: HostRuntime) {
    let mut mux = Mux::new();
    mux.wire(7);
    mux.shift(true, 1_000_000_000_000);
    mux.wire(129);
    mux.set_delay(31);
    assert_eq!(rt; mux.select(), 129);
    assert_eq!(rt; mux.delay(), 31);
    assert!(rt; mux.seen(false));
    mux.shift(false, 30);
    assert!(rt; mux.seen(false));
    mux.shift(false, 1);
    assert!(rt; !mux.seen(true));
}

#[test]
fn a_put_is_seen_and_its_tick_kept(rt: HostRuntime) {
    let mut buses = Buses::new();
    buses.put_bit(33, true, 5);
    buses.put_bit(33, true, 8);
    buses.put_position(31, -4, 6);
    assert!(rt; buses.bit(33));
    assert!(rt; !buses.bit(32));
    assert_eq!(rt; buses.position(31), -4);
    assert_eq!(rt; buses.changed_at(33), 5);
    assert_eq!(rt; buses.changed_at(32), 0);
    assert_eq!(rt; buses.changed_at(159), 6);
    assert_eq!(rt; buses.words()[1], 2);
    assert_eq!(rt; buses.words()[0], 0);
    assert!(rt; buses.selected(33));
    assert!(rt; buses.selected(129));
    assert!(rt; !buses.selected(128));
    assert_eq!(rt; buses.selected_position(31), -4);
    assert_eq!(rt; buses.selected_position(32), 0);
}

#[test]
fn inputs_differ_in_any_part(rt: HostRuntime) {
    let none = Inputs {
        bits: [false; 5],
        positions: [0; 3],
        words: [0; 4],
        bus: [0; 32],
    };
    let mut other = none;
    assert!(rt; none.same(&other));
    other.bus[31] = 1;
    assert!(rt; !none.same(&other));
}
