//! Tests of the public calls of pb_pcap's machine, and of pb_acquire over layouts and records of pb_pcap.
#![tactic(auto)]

mod adding;
#[cfg(test)]
mod arming;
#[cfg(test)]
mod deadlines;
mod laws;
#[cfg(test)]
mod machine;
#[cfg(test)]
mod reading;
mod samples;

pub use adding::{add, make_room};
pub use laws::sums_wrap;
pub use samples::{counted, counter_at, counter_only, motor_and_count};
