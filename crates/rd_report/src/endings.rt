//! How the lines of a trace end.

use rd_object::ReplayEnd;
use rd_wf::TraceCause;

/// How the lines of a trace end.
#[derive(Drop, PartialEq, Eq)]
pub enum Ending {
    /// the trace was read to its end, the replay of its calls ended so, and whether it is shown that every order of its events that
    /// keeps what comes before what ends the same
    End { replay: ReplayEnd, shown: bool },
    /// a line was refused
    Refused { line: u64, cause: TraceCause },
    /// a read of the input failed
    Fault,
}
