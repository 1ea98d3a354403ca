//! The commands on generated traces.
#![tactic(auto)]

mod checks;
mod commands;
mod texts;
mod walk;

pub use commands::{generate, generate_text};
