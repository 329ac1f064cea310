//! The turn: threads that share one value take turns at it. Whoever holds the turn changes the value and adds one
//! entry to one history, for which the value then stands. A pass is what a thread takes its turns with: it knows a
//! front of the history and which entries of it are its own.
//!
//! `specs/Seeing` says what a pass knows, `specs/Steps` the six kinds of atomic step, `specs/Turning` what holds
//! between any two of them.
#![tactic(auto)]

mod entering;
mod holding;
mod laws;
mod passes;
mod rules;
mod stands;
mod turns;
mod views;

pub use entering::Entered;
pub use holding::Held;
pub use laws::{calls_stay, joined_calls_are_those_of_both, joined_passes_have_seen_both};
pub use passes::Pass;
pub use stands::Stands;
pub use turns::Turn;
