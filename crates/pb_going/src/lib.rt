//! What is kept of a run of the box with lazy blocks, and the moment of the run that it stands for: what a tick, many quiet
//! ticks and an advance come to. `specs/Sims.antt` has what is kept, `specs/Advanced.antt` what an advance comes to.
#![tactic(auto)]

mod advanced;
mod laws;

pub use advanced::{Advanced, Why};
pub use laws::{
    jumps_come_to_later_moments, runs_come_in_parts, ticks_come_to_the_next_moment,
    walks_tell_what_is_eventful,
};
