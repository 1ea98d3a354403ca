//! Two calls of a trace side by side, or the path that orders them.
#![tactic(auto)]

mod calls;
mod laws;
mod order;

pub use calls::{NotAdjacent, adjacent};
pub use laws::law_of_neighbours;
