//! What a line of a log says.

use rd_base::Name;
use rd_event::LineEvent;

/// What a line of a thread's log says behind its header.
#[derive(Drop, PartialEq, Eq)]
pub enum LogLine {
    /// an empty line, or one whose first byte is `#`
    Skip,
    /// `object O K`
    Object { name: Name, kind: Name },
    /// `fork U`, `join U`, `release L`, or `call O M`, arguments, ` -> ` and a result: an event of the log's thread
    Event(LineEvent),
    /// `acquire L N`: the thread acquires lock L, as the Nth acquire of it over all logs
    Acquire { lock: Name, number: u32 },
}

/// What a log declares: an object, with its kind.
#[derive(Drop, PartialEq, Eq)]
pub struct LogObject {
    pub name: Name,
    pub kind: Name,
}

/// An event of a log, with the thread that the log's header names. Where it is an acquire, the number says which one of its lock it is over all logs, from 1;
/// else it is 0.
#[derive(Drop, PartialEq, Eq)]
pub struct LogEvent {
    pub event: LineEvent,
    pub number: u32,
}
