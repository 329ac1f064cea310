//! Tests of the public calls of pb_turn.
#![tactic(auto)]

#[cfg(test)]
mod counters;
#[cfg(test)]
mod turns;
