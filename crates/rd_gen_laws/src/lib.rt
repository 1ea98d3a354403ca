//! What generated traces are.
#![tactic(auto)]

mod laws;

pub use laws::{law_of_generated_lines, law_of_generated_replays, law_of_generated_verdicts};
