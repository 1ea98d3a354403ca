//! A run of the program: which words are which command, and `run`.
#![tactic(auto)]

mod commands;
mod top;

pub use rd_check_command::{law_of_checks, law_of_faults, law_of_reports};
pub use rd_decimals::law_of_decimals;
pub use rd_replay_command::law_of_replay_reports;
pub use rd_walk::{Analysis, Halt, Status, WalkEnd, law_of_walks};
pub use top::run;
