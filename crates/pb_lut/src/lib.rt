//! The function of a lookup table: a text of a user becomes the 32 bits that
//! the table looks its output up in. What a text means is said in
//! `specs/Functions.antt` and, for logic expressions, in `specs/Expressions.antt`.
#![tactic(auto)]

mod expressions;
mod functions;
mod laws;

pub use functions::parse;
pub use laws::{
    computed_numbers, each_bit_is_a_value, functions_are_computed, one_number, one_reading,
    tables_put_out_the_expression, worked_numbers,
};
