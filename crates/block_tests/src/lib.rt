//! Tests of the public calls of pb_buses, pb_stim and the kinds of block.
#![tactic(auto)]

#[cfg(test)]
mod buses;
#[cfg(test)]
mod clocks;
#[cfg(test)]
mod coasting;
#[cfg(test)]
mod logic;
#[cfg(test)]
mod pcomp;
#[cfg(test)]
mod pulses;
#[cfg(test)]
mod sequencers;
#[cfg(test)]
mod stepping;
#[cfg(test)]
mod stim;
