//! Reads and writes of variables: the first access to each that races, found by epochs (after FastTrack, Flanagan and Freund, PLDI 2009).
#![tactic(auto)]

mod epochs;
mod kept;
mod laws;
mod lessons;
mod reads;
mod variables;

pub use epochs::{Access, Epochs, First};
pub use laws::{law_of_accesses, law_of_epochs};
pub use lessons::Lessons;
