//! The outside as the rest of the workspace sees it: sources, sinks and wires that count their
//! faults.
//!
//! A program hands in the real things by [`StreamSource`] and [`StreamSink`]. The memory forms are
//! for tests, and for bytes that stay in the process. Each kind of object is a trait, so code above
//! works over any of them.
#![tactic(auto)]

mod calls;
mod errors;
mod front;
mod pieces;
mod queue;
mod sink;
mod sinks;
mod source;
mod sources;
mod streams;
mod whole;
mod wire;
mod wires;

pub use errors::{OutOfMemory, ReadAllError, WriteFault};
pub use sink::{Finished, Sink, Wrote};
pub use sinks::{MemSink, SteadySink};
pub use source::{Patience, ReadGot, Source};
pub use sources::{MemSource, SteadySource};
pub use streams::{StreamSink, StreamSource};
pub use whole::{read_all, write_all};
pub use wire::{Got, PutDone, Wire};
pub use wires::{BentWire, MemWire, SteadyWire};

#[cfg(test)]
mod tests;
