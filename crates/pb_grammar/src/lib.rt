//! Control lines: which bytes of a stream are whole commands, which of them are a query, an
//! assignment, a table write or an echo query, and why others are refused. What they are stands
//! in `specs/Targets.antt`, `specs/Grammar.antt` and `specs/Streams.antt`.
#![tactic(auto)]

mod assembling;
mod commands;
mod laws;
mod queries;
mod scanning;
mod stages;
mod tables;
mod targets;

pub use assembling::Assembler;
pub use commands::{Command, commands_by_example, commands_have_one_meaning, parse};
pub use laws::{streams_grow_by_a_byte, streams_have_one_list, whole_commands_are_computed};
pub use targets::{targets_are_computed, targets_are_read_in_one_way};
