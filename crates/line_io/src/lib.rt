//! Bytes in and out: a source and a sink that count their faults, in memory and over std.
//!
//! Above: the texts and the programs. Below: `memory`.
//! Promise: bytes come and go in order where they are told, and an answer that names a fault comes
//! only where the count of faults of that source or sink rose.
#![tactic(auto)]

pub use failed::Failed;
pub use memory::OutOfMemory;
pub use memory_sink::MemorySink;
pub use memory_source::MemorySource;
pub use read_refused::ReadRefused;
pub use reading::read_all;
pub use sink::Sink;
pub use source::Source;
pub use std_sink::StdSink;
pub use std_source::StdSource;
pub use write_fault::WriteFault;
pub use writing::write_all;

pub mod failed;
pub mod memory_sink;
pub mod memory_source;
pub mod read_refused;
pub mod reading;
pub mod sink;
pub mod source;
pub mod std_sink;
pub mod std_source;
pub mod write_fault;
pub mod writing;
