//! The settings of the box: they start at their defaults, take the values that
//! control lines assign, and are printed for queries. What they are stands in
//! `specs/Settings.antt`, their defaults in `specs/Defaults.antt`, what an
//! assignment does in `specs/Assigning.antt`, what is printed in
//! `specs/Showing.antt`, and how assignments are counted in
//! `specs/Numbers.antt`.
#![tactic(auto)]

mod capturing;
mod changing;
mod configs;
mod defaults;
mod infos;
mod laws;
mod numbers;
mod places;
mod scaling;
mod showing;
mod texts;

pub use capturing::output;
pub use configs::Config;
pub use laws::{
    assigned_here, clearing_assigns_no, fresh_texts, fresh_values, kept_function_is_the_number,
    numbers_are_of_assignments, others_stay, places_are_distinct, texts_stay,
};
pub use places::field_slot;
pub use showing::has_line;
