//! Tests of whole texts of specifications, read and printed.
#![tactic(auto)]

#[cfg(test)]
mod printing;
#[cfg(test)]
mod rows;
#[cfg(test)]
mod spec_texts;
