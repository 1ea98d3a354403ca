//! The command `points`: the access points of a specification's kinds.
#![tactic(auto)]

mod numbered;
mod point_tables;
mod texts;

pub use point_tables::points;
