//! Replies to queries: one value, or several in a line each, and what the catalogue
//! answers in several lines: blocks, fields, attributes, labels and the entries of the
//! buses; and the tables of sequencers. The forms stand in `specs/Replies.antt`, the lists in
//! `specs/Lists.antt` and `specs/Tables.antt`.
#![tactic(auto)]

mod lines;
mod lists;
mod replies;
mod tables;

pub use lists::{
    attributes_reply, blocks_reply, fields_reply, has_labels, labels_reply, positions_reply,
    row_reply, word_reply,
};
pub use replies::{end_list, list_pair, number_reply, put_value, value_reply};
pub use tables::{base64_reply, table_reply};
