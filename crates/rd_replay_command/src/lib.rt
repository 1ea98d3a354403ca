//! The command `replay`, and the replay of the calls beside a walk over a trace.
#![tactic(auto)]

mod following;
mod laws;
mod replaying;
mod states;

pub use following::follow;
pub use laws::law_of_replay_reports;
pub use replaying::replay;
