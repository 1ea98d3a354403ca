//! Traces that are made by a number.
#![tactic(auto)]

mod calls;
mod counts;
mod generator;

pub use counts::{MOST_CALLS, calls_in, lines_in};
pub use generator::Generator;
