//! Tests of inputs, sinks and the reader of lines.
#![tactic(auto)]

#[cfg(test)]
mod inputs;
