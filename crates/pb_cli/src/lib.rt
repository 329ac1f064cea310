//! The words of the command line with which the server is started: which two ports it opens. They are read by `clap`.
//! What they mean is in `specs/ServeWords.antt`.
#![tactic(auto)]

mod options;
mod ports;
#[cfg(test)]
mod tests;
mod texts;
mod worked;

pub use ports::{Ports, PortsFault, read_ports, starts_server};
pub use worked::worked_words;
