//! Tests of other orders of the events of traces.
#![tactic(auto)]

#[cfg(test)]
mod course;
#[cfg(test)]
mod drawing;
#[cfg(test)]
mod long;
#[cfg(test)]
mod model;
#[cfg(test)]
mod random;
#[cfg(test)]
mod rows;
