//! The logic blocks: LUT, SRGATE, DIV, COUNTER and CLOCK. Each has a module in
//! `specs/` that says what its settings and registers are, what a tick does, and
//! what commands may set.
#![tactic(auto)]

mod clocks;
mod counters;
mod divs;
mod laws;
mod luts;
mod srgates;

pub use clocks::{Clock, ClockRegisters, ClockSettings};
pub use counters::{Counter, CounterRegisters, CounterSettings};
pub use divs::{Div, DivRegisters, DivSettings, FirstPulse};
pub use laws::{
    clock_by_example, clock_deadlines_by_example, counter_by_example, divider_by_example,
    gate_by_example, lut_shows_its_expression,
};
pub use luts::{Lut, LutRegisters, LutSettings};
pub use srgates::{Force, Srgate, SrgateRegisters, SrgateSettings, WhenDisabled};
