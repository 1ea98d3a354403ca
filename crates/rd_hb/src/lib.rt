//! Happens-before: the vector clocks of events, which tell their order, and a tracker that computes them.
#![tactic(auto)]

mod clocks;
mod tracker;

pub use clocks::{examples_of_clocks, law_of_clocks};
pub use tracker::Tracker;
