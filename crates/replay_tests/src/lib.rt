//! Tests of reading scripts: each rule that a line can break, and which is told where it breaks two.
#![tactic(auto)]

#[cfg(test)]
mod faults;
#[cfg(test)]
mod limits;
