//! The command `weave`.
#![tactic(auto)]

mod answering;
mod commands;
mod texts;
mod writing;

pub use commands::weave;
