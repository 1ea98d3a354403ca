//! The replay of recorded calls, one after another, by the objects of the kinds that are built in.
#![tactic(auto)]

mod laws;
mod replayer;

pub use laws::{law_of_end_shapes, law_of_replays};
pub use replayer::{Match, Replayer};
