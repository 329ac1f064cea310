//! Change reports: what has changed since a session last asked, over any face that tells of the box. What a
//! report holds is said over the whole past, by the list of accepted assignments and the list of bus states
//! (`specs/Report.antt`); the marks of a session keep numbers (`specs/Kept.antt`).
#![tactic(auto)]

mod faces;
mod groups;
mod laws;
mod lines;
mod marks;
mod reads;
mod walks;

pub use faces::Face;
pub use groups::Group;
pub use laws::{groups_have_their_sizes, reports_by_example, second_report_at_once_is_empty};
pub use marks::Marks;
