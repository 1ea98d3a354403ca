//! The command `adjacent`: a trace in which two of its calls stand side by side, or the path that orders them.
#![tactic(auto)]

mod adjoining;
mod commands;
mod laws;
mod reporting;

pub use commands::adjacent;
pub use laws::law_of_adjacent_calls;
