//! Tests of the doors, spawners and pacers of pb_ports, over memory and over the system.
#![tactic(auto)]

#[cfg(test)]
mod clocks;
#[cfg(test)]
mod fakes;
#[cfg(test)]
mod sockets;
#[cfg(test)]
mod threads;
