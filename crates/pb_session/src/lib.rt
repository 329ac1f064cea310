//! Sessions: what a client of the control port or of the data port does to the core that all sessions share. A session
//! takes its turn for each event; what it adds to the one history and what it writes is defined in `specs/Controls.antt`
//! and `specs/Data.antt`.
#![tactic(auto)]

mod controls;
mod endings;
mod happening;
mod laws;
mod lines;
mod streams;
mod taking;
mod telling;
mod workers;

pub use controls::control_session;
pub use endings::{DataEnded, Ended};
pub use laws::data_sessions_are_given_whole_acquisitions;
pub use streams::data_session;
pub use workers::{capture_worker, control_worker, data_worker};
