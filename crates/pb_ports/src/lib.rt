//! The outside world as traits: sources that are read and sinks that are
//! written, doors that let connections in, spawners that start jobs in
//! threads, pacers that tell the moment, each with a count of its faults;
//! their fakes in memory, and the adapters over standard input and output,
//! TCP, threads and the clock.
#![tactic(auto)]

mod clock_pacers;
mod counts;
mod doors;
mod list_pacers;
mod mem_doors;
mod mem_sinks;
mod mem_sources;
mod no_spawners;
mod pacers;
mod reader_sources;
mod sinks;
mod sources;
mod spawners;
mod starting;
mod tcp_doors;
mod thread_spawners;
mod writer_sinks;

pub use clock_pacers::ClockPacer;
pub use doors::{Door, Listen};
pub use list_pacers::ListPacer;
pub use mem_doors::{MemDoor, MemListen};
pub use mem_sinks::MemSink;
pub use mem_sources::MemSource;
pub use no_spawners::NoSpawner;
pub use pacers::Pacer;
pub use reader_sources::ReaderSource;
pub use sinks::{Failed, Sink};
pub use sources::{Read, Source};
pub use spawners::{Job, Spawner};
pub use tcp_doors::{TcpDoor, TcpListen};
pub use thread_spawners::ThreadSpawner;
pub use writer_sinks::WriterSink;
