//! The command `reorder`: a trace in another order of its events.
#![tactic(auto)]

mod commands;
mod laws;
mod reordering;
mod reporting;

pub use commands::reorder;
pub use laws::law_of_reordering;
