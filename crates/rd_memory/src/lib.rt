//! The lines of a trace of reads and writes: what each may say, and what it stands for in a trace.
#![tactic(auto)]

mod laws;
mod lines;
mod reading;
#[cfg(test)]
mod tests;

pub use laws::{law_of_keywords, law_of_memory_lines, law_of_memory_traces};
pub use lines::MemLine;
pub use reading::read_memory_line;
