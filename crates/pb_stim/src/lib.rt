//! The stimulus: which levels and positions come to the box from outside, and when.
//! Its definition is in `specs/Stimulus.antt`, and that of its lines in `specs/Lines.antt`. Why a line of a script or
//! of a stimulus is refused stands here too.
#![tactic(auto)]

mod causes;
mod checking;
mod cuts;
mod faults;
mod forms;
mod laws;
mod making;
mod parsing;
mod places;
mod reading;
mod stimuli;

pub use causes::Cause;
pub use faults::StimFault;
pub use laws::{
    scripts_are_made_by_example, stimuli_are_read_or_refused, stimulus_lines_are_computed,
};
pub use making::make;
pub use stimuli::{Row, Stimulus};
