//! PCAP: position capture. What its settings and registers are, what a tick
//! does and what commands may set is said in `specs/Pcap.antt`; what is captured
//! of each entry in `specs/Fields.antt`, and the bytes of records in
//! `specs/Records.antt`.
#![tactic(auto)]

mod deadlines;
pub mod entries;
mod fields;
mod laws;
mod layouts;
mod machine;
mod numbers;
mod packing;
mod records;
mod registers;
mod samples;
mod settings;

pub use fields::{Choice, Field, Units};
pub use laws::{captures_by_example, records_by_example, records_have_their_size};
pub use layouts::Layout;
pub use machine::Pcap;
pub use records::Records;
pub use registers::{PcapMode, PcapRegisters};
pub use samples::PcapSamples;
pub use settings::PcapSettings;
