//! Tests of the public calls of the crates that read and print, and of tables:
//! what no script reaches, and each call once on its happy path.
#![tactic(auto)]

#[cfg(test)]
mod config;
#[cfg(test)]
mod fields;
#[cfg(test)]
mod grammar;
#[cfg(test)]
mod lut;
#[cfg(test)]
mod ports;
#[cfg(test)]
mod replies;
#[cfg(test)]
mod tables;
#[cfg(test)]
mod words;
