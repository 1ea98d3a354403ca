//! The logs that files hold, read one after the other under the limits.
#![tactic(auto)]

mod files;
mod laws;
mod lines;
#[cfg(test)]
mod tests;
mod unread;

pub use files::read_logs;
pub use laws::law_of_log_limits;
pub use unread::{LogLimit, LogsUnread};
