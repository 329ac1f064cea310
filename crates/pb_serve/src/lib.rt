//! The threads of the server: one captures, eight serve the control port, and eight the data port. They share one turn.
#![tactic(auto)]

mod jobs;
mod seats;
mod starting;

pub use starting::{StartFault, start_workers};
