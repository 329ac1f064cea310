//! What the client of a data session is handed: the options that it chooses, the header of an acquisition, pieces
//! of its records in four forms, and its end. What a line of options chooses is said in
//! `specs/Choosing.antt`, and what is handed out in `specs/Encoding.antt`.
#![tactic(auto)]

mod choosing;
mod ends;
mod headers;
mod laws;
mod lines;
mod naming;
mod numbers;
mod options;
mod pieces;
mod quantities;

pub use choosing::Chosen;
pub use ends::end;
pub use headers::header;
pub use laws::{
    acquisitions_by_example, headers_by_example, options_by_example, pieces_by_example,
    pieces_show_the_numbers_of_records,
};
pub use options::{Form, Options};
pub use pieces::piece;
pub use quantities::Quantity;
