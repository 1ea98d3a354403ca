//! The accepted lines of a trace are kept, and written in any order of its events.
#![tactic(auto)]

mod kept;
mod refusals;
mod texts;
mod writing;

pub use kept::Kept;
pub use refusals::write_refused;
