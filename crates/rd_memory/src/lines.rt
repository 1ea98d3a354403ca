//! What a line of reads and writes says.

use rd_base::Name;
use rd_event::LineEvent;

/// What a line of a trace of reads and writes says.
#[derive(Drop, PartialEq, Eq)]
pub enum MemLine {
    /// an empty line, or one whose first byte is `#`
    Skip,
    /// `rdmem 1`
    Header,
    /// `thread T`: a thread that no other begins
    Thread(Name),
    /// a fork, a join, an acquire or a release, as in a trace
    Event(LineEvent),
    /// `read T V` or `write T V`: thread T reads variable V, or writes it
    Access {
        thread: Name,
        variable: Name,
        write: bool,
    },
}
