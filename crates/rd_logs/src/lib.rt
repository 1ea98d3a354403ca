//! The lines of a log that a thread kept for itself: what each may say.
#![tactic(auto)]

mod laws;
mod lines;
mod reading;
#[cfg(test)]
mod tests;
mod whole;

pub use laws::law_of_log_lines;
pub use lines::{LogEvent, LogLine, LogObject};
pub use reading::{read_log_header, read_log_line};
pub use whole::{Log, LogRefused, ReadLog, read_log};
