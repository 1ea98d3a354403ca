//! Which of many have something, and the one at a position among them, in the logarithm of how many there are.
#![tactic(auto)]

mod ranks;
#[cfg(test)]
mod tests;

pub use ranks::Ranks;
