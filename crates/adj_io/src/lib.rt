//! Streams of bytes that may fail: sources and sinks, in memory and over std's readers and writers.
//!
//! A source tells the bytes that it has left and a sink those that it took, where they know them, and each counts
//! its faults. The crate stands on std, and derives its error by `thiserror`. The crates above read by `read_all` and
//! write by `write_all`: bytes are exact where they are told, and a fault comes only where the stream's own count rose.
#![tactic(auto)]

mod call_count;
mod in_memory;
mod laws;
mod standard;
mod streams;
mod whole;

pub use in_memory::{MemSink, MemSource, Memory};
pub use laws::{fault_laws, reading_laws};
pub use standard::{StdSink, StdSource};
pub use streams::{Failed, Sink, Source};
pub use whole::{ReadError, WriteFault, read_all, write_all};
