//! Ticks at which nothing happens but counting. `specs/Driving.antt` has the box with its stimulus,
//! `specs/Eventful.antt` says which ticks are eventful, and `specs/Coasting.antt` what many quiet ticks come to.
#![tactic(auto)]

mod laws;
mod placing;

pub use laws::{busy_blocks_are_counted_once, quiet_ticks_are_one_coast};
pub use placing::{put_rows, put_values};
