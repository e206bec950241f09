//! The edges to the outside: sources, sinks and gates, with counts of their faults.
#![tactic(auto)]

mod edges;
mod gate;
mod line_fault;
mod lines;
mod memory_sink;
mod memory_source;
mod piece;
mod reading;
mod sink;
mod source;
#[cfg(test)]
mod tests;

pub use edges::{ReadEdge, WriteEdge};
pub use gate::{Gate, OpenGate};
pub use line_fault::LineFault;
pub use lines::write_text;
pub use memory_sink::MemorySink;
pub use memory_source::MemorySource;
pub use piece::write_piece;
pub use reading::{ReadStop, read_all};
pub use sink::{Failed, NullSink, Sink};
pub use source::{SliceSource, Source};
