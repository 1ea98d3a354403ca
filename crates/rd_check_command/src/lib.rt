//! The command `check`: what it does with each accepted line, what it writes, and the laws of its reports.
#![tactic(auto)]

mod checking;
mod commands;
mod laws;
mod reports;

pub use checking::Check;
pub use commands::{ToCheck, check};
pub use laws::{law_of_checks, law_of_faults, law_of_reports, law_of_verdicts};
pub use reports::CheckReport;
