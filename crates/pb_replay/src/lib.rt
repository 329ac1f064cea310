//! Replay scripts. `parse` reads one: which bytes are a script, and which lines it has, is said in `specs/Script.antt`,
//! and which line of other bytes is refused, and why, in `specs/Faults.antt`.
#![tactic(auto)]

mod assemblers;
mod checking;
mod controls;
mod cuts;
mod digits;
mod drafts;
mod examples;
mod faults;
mod feeding;
mod forms;
mod happening;
mod laws;
mod lines;
mod parsing;
mod places;
mod played;
mod players;
mod playing;
mod readers;
mod reading;
mod scripts;
mod sections;
mod worked;

pub use examples::{faults_by_example, lines_by_example};
pub use faults::ScriptFault;
pub use laws::{kept_scripts_have_their_events, lines_are_computed, scripts_are_read_or_refused};
pub use parsing::parse;
pub use played::Played;
pub use playing::play;
pub use scripts::Script;
pub use sections::Port;
pub use worked::{
    commands_over_several_lines, data_sessions_open_and_close, sessions_of_their_own,
    worked_scripts,
};
