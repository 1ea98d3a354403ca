//! Why logs are not read.
use rd_base::{LimitName, NoMemory};

/// A limit that a log passes.
#[derive(Clone, Copy, PartialEq, Eq)]
pub struct LogLimit {
    /// the number of the log, from 1
    pub log: u64,
    /// the number of its line, from 1
    pub line: u64,
    /// what the limit counts
    pub name: LimitName,
    /// the limit
    pub number: u64,
}

/// Why logs are not read.
#[derive(Clone, Copy, PartialEq, Eq)]
pub enum LogsUnread {
    /// a file could not be opened or read
    Fault,
    /// the first log that passes a limit passes this
    Limit(LogLimit),
    /// memory ran out
    NoMemory,
}

impl From<NoMemory> for LogsUnread {
    ghost use Rattle.std.specs.Prelude.{◌≡◌};
    ghost use Rattle.rd_log_files.specs.declared.unread.LogsUnread.TheVariants.{NoMemory as MemoryRanOut};

    ghost from_gives = { λ _ unread. unread ≡ MemoryRanOut };

    fn from(_error: NoMemory) -> LogsUnread {
        LogsUnread::NoMemory
    }
}
