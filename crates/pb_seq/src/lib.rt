//! SEQ: outputs by a table, each row of which waits for its trigger and then has two phases. What its settings
//! and registers are, what a tick does and what commands may set is said in `specs/Seq.antt`, and what a table
//! write leaves in pb_tables.
#![tactic(auto)]

mod deadlines;
mod laws;
mod machine;
mod registers;
mod settings;
mod triggers;

pub use laws::{phases_by_example, sequencer_by_example};
pub use machine::Seq;
pub use registers::{SeqRegisters, SeqState};
pub use settings::SeqSettings;
