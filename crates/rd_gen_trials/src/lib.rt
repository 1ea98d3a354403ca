//! Tests of generated traces.
#![tactic(auto)]

#[cfg(test)]
mod traces;
