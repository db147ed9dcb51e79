//! Bytes in and out: sources and sinks whose faults are counted, in memory and over the readers and
//! writers of std, and the two calls that move all bytes.
#![tactic(auto)]

pub mod memory;
pub mod standard;
#[cfg(test)]
mod tests;
pub mod traits;
pub mod whole;

pub use memory::{MemSink, MemSource};
pub use standard::{StdSink, StdSource};
pub use traits::{Failed, Sink, Source};
pub use whole::{ReadRefusal, WriteFault, read_all, write_all};
