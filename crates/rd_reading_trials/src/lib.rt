//! Tests of a specification's lines: their forms, pairs, and what a line is behind others.
#![tactic(auto)]

#[cfg(test)]
mod judging;
#[cfg(test)]
mod line_forms;
#[cfg(test)]
mod pairs;
#[cfg(test)]
mod rows;
#[cfg(test)]
mod versions;
