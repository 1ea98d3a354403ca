//! The walk over the lines of a trace for any command: judging a line, what a command does with it, writing, reporting, the status of a run.
#![tactic(auto)]

mod analysis;
mod grammar;
mod laws;
mod reporting;
mod status;
mod walk;
mod writing;

pub use analysis::{Analysis, Halt};
pub use grammar::{Grammar, TraceLines, take_anywhere, take_keyword};
pub use laws::law_of_walks;
pub use reporting::{Report, report_named, report_trace};
pub use status::{Ended, Status, ended_status};
pub use walk::{Taken, WalkEnd, Walker, at_end, take, walk_lines};
pub use writing::{status_of, write_line, write_lines};
