//! The tables of sequencers: the words that the body of a table write says, as numbers or in base64, and the
//! rows of the table. What a body says stands in `specs/Bodies.antt`, what a write leaves in `specs/Tables.antt`.
#![tactic(auto)]

mod decoding;
mod drafts;
mod laws;
mod reading;
mod rows;
mod seq_rows;
mod triggers;

pub use laws::{
    bodies_have_one_meaning, writes_are_computed, writes_by_example, writes_have_one_meaning,
};
pub use rows::Rows;
pub use seq_rows::SeqRow;
