//! Tests of the public calls of pb_changes, over a face made for them.
#![tactic(auto)]

mod fakes;
#[cfg(test)]
mod reports;

pub use fakes::Fake;
