//! The order of the events of a trace: edges, what reaches what, and well-formed lists of events.
#![tactic(auto)]

mod edges;
mod laws;
mod paths;
mod steps;

pub use edges::{edge, thread_of};
pub use laws::{
    examples_of_order, law_of_farthest_paths, law_of_lists, law_of_locks, law_of_reaching,
};
pub use paths::{Places, path, path_along};
pub use steps::{FarthestSteps, farthest_steps};
