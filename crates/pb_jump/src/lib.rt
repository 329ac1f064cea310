//! The box with its stimulus, over ticks at which nothing happens but counting at once. Each block stays at a tick
//! of its own until something concerns it. `specs/Sims.antt` says what is kept, `specs/Advanced.antt` what an advance comes to.
#![tactic(auto)]

mod advancing;
mod changing;
mod showing;
mod sims;
mod stepping;
mod waking;

pub use pb_going::{Advanced, Why};
pub use sims::Sim;
