//! The turns by which logs that were kept per thread become a weaving.
#![tactic(auto)]

mod logs;
mod tables;
mod turns;
mod waiting;

pub use logs::{NumberedLogs, Step, ThreadSteps};
pub use turns::take_turns;
