//! Tests of the detector: which earlier call it names, how many cells it keeps, and what a slow detector answers.
#![tactic(auto)]

#[cfg(test)]
mod cells;
#[cfg(test)]
mod course;
#[cfg(test)]
mod drawing;
#[cfg(test)]
mod kinds;
#[cfg(test)]
mod listing;
#[cfg(test)]
mod random;
#[cfg(test)]
mod rows;
#[cfg(test)]
mod trial;
