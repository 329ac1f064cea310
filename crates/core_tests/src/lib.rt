//! Tests of the public calls of pb_core: each once on its happy path, and what no
//! script reaches.
#![tactic(auto)]

#[cfg(test)]
mod cores;
