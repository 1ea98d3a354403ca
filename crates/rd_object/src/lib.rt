//! Objects that run calls one after another: their shapes, what their machines say, and the law that commuting calls may be
//! exchanged.
#![tactic(auto)]

mod lists;
mod objects;
mod shapes;

pub use lists::{ValueCounts, ValuePairs};
pub use objects::{ApplyRefused, RefObject};
pub use shapes::{Expected, ReplayEnd, Shape};
