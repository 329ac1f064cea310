//! What every crate of panda_sim speaks: texts that grow, lines on the stack, the
//! cutting of texts, the numbers of scripts and control lines in both directions,
//! the refusals with their lines, and a counter of work that costs nothing at run
//! time.
#![tactic(auto)]

mod counting;
mod cuts;
mod decimals;
mod hex;
mod lines;
mod memory;
mod numbers;
mod refusals;
mod signed;
mod texts;

pub use counting::Steps;
pub use cuts::{cut_digits, take_out_spaces};
pub use decimals::{
    Decimal9, canonical_decimals_are_read_back, decimals_are_computed,
    decimals_are_read_in_one_way, decimals_by_example, read_decimal, read_decimal_up_to,
    whole_numbers_are_canonical, write_decimal,
};
pub use hex::write_hex32;
pub use lines::Line;
pub use memory::OutOfMemory;
pub use numbers::{
    NumFault, decimals_are_read_back, put_front, read_tick, read_u32, read_u48, read_uint,
    uints_are_computed, write_u64,
};
pub use refusals::Refusal;
pub use signed::{
    ints_are_computed, ints_are_read_in_one_way, ints_by_example, read_i32,
    signed_decimals_are_read_back, write_i64,
};
pub use texts::Text;
