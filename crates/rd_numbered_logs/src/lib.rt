//! Logs by numbers: which number each name has that logs mention, and what the logs say by them.
#![tactic(auto)]

mod laws;
mod names;
mod numbered;

pub use laws::law_of_numbers;
pub use numbered::number_logs;
