//! Sources of bytes, sinks of bytes, and the lines of a source.
#![tactic(auto)]

mod calls;
mod fronts;
mod inputs;
mod laws;
mod lines;
mod memory_inputs;
mod memory_sink;
mod sinks;

pub use fronts::{FrontRefused, read_front};
pub use inputs::{Failed, Inputs};
pub use laws::law_of_lines;
pub use lines::{LineReader, Next, ReadEnd};
pub use memory_inputs::MemoryInputs;
pub use memory_sink::MemorySink;
pub use sinks::{Sink, WriteFault, write_all};
