//! PCOMP: pulses at positions. What its settings and registers are, what a tick
//! does and what commands may set is said in `specs/Pcomp.antt`.
#![tactic(auto)]

mod laws;
mod machine;
mod registers;
mod settings;

pub use laws::pulses_by_example;
pub use machine::Pcomp;
pub use registers::{PcompRegisters, PcompState, Sign};
pub use settings::{Direction, PcompSettings, Reference};
