//! The command `epochs`: the first race of each variable of a trace of reads and writes.
#![tactic(auto)]

mod commands;
mod laws;
mod lines;
mod reporting;
mod variables;
mod watching;

pub use commands::epochs;
pub use laws::law_of_first_races;
pub use lines::MemoryLines;
