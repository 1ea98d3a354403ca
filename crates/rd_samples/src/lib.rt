//! What the tests of the crates that read and write the text of a specification make their rows of.
#![tactic(auto)]

mod texts;

pub use texts::{push_cause, push_comma, push_number, push_times, read_bytes, repeated};
