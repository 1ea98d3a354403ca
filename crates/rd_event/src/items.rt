//! What a line of a trace says.

use rd_base::{Name, Slots};

/// An event as a line spells it, by names.
#[derive(Drop, PartialEq, Eq)]
pub enum LineEvent {
    /// `fork T U`: thread T begins thread U
    Fork {
        thread: Name,
        child: Name,
    },
    /// `join T U`: thread T waits for the end of thread U
    Join {
        thread: Name,
        child: Name,
    },
    /// `acquire T L`: thread T takes lock L
    Acquire {
        thread: Name,
        lock: Name,
    },
    /// `release T L`: thread T gives lock L back
    Release {
        thread: Name,
        lock: Name,
    },
    /// `share T L`, of version 2: thread T takes lock L together with others that share it
    Share {
        thread: Name,
        lock: Name,
    },
    /// `unshare T L`, of version 2: thread T gives its share of lock L back
    Unshare {
        thread: Name,
        lock: Name,
    },
    /// `call T O M A -> R`: thread T calls method M of object O with the arguments A, a space behind each, and has the result R
    Call {
        thread: Name,
        object: Name,
        method: Name,
        /// the arguments, at most 6, then the result
        slots: Slots,
    },
}

/// What a line of a trace says.
#[derive(Drop, PartialEq, Eq)]
pub enum Line {
    /// an empty line, or one whose first byte is `#`
    Skip,
    /// `rdtrace 1` or `rdtrace 2`
    Header { version: u8 },
    /// `thread T`: a thread that no other begins
    Thread(Name),
    /// `object O K`: an object and its kind
    Object { name: Name, kind: Name },
    /// what a thread does
    Event(LineEvent),
}
