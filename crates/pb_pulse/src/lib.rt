//! PULSE: trains of pulses behind a trigger. What its settings and registers are,
//! what a tick does and what commands may set is said in `specs/Pulse.antt`, on
//! the words of `specs/Queue.antt` and `specs/Train.antt`.
#![tactic(auto)]

mod laws;
mod machine;
mod queues;
mod registers;
mod settings;
mod trains;

pub use laws::{on_by_some_pulse, pulses_by_example};
pub use machine::Pulse;
pub use registers::PulseRegisters;
pub use settings::PulseSettings;
pub use trains::Train;
