//! What the program takes from outside and gives to it: files that are loaded whole by name, and sinks that bytes are put to.
#![tactic(auto)]

mod host;
mod memory;
mod outside;

pub use ca_tree::NoMemory;
pub use host::{HostFiles, HostSink};
pub use memory::{MemoryFiles, MemorySink};
pub use outside::{Files, LoadNo, PutNo, Sink};
