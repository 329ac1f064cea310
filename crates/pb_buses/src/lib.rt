//! What every block of the box has in common: what it sees at a tick, what it
//! shows and emits, the calls of a machine, and the rules by which a kind of
//! block is defined (`specs/Rules.antt`).
#![tactic(auto)]

mod edges;
mod emits;
mod entries;
mod inputs;
mod laws;
mod machines;
mod muxes;

pub use edges::Edge;
pub use emits::{Condition, Emit, Record};
pub use entries::{Bus, Buses};
pub use inputs::{Inputs, Outputs};
pub use laws::{
    delay_lines_keep_the_past, next_changes_come_nearer, puts_keep_the_last_changes, steps_add_up,
};
pub use machines::Machine;
pub use muxes::Mux;
