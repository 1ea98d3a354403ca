//! Logs by numbers.

/// An event of a log, without its thread: threads, locks and objects by their numbers, from 0.
#[derive(Clone, Copy, PartialEq, Eq)]
pub enum Step {
    /// begins this thread
    Fork(u32),
    /// waits for the end of this thread
    Join(u32),
    /// acquires the lock, as the acquire of this number over all logs
    Acquire { lock: u32, number: u32 },
    /// gives this lock back
    Release(u32),
    /// a call on this object
    Call(u32),
}

/// The log of a thread.
#[derive(Drop)]
pub struct ThreadSteps {
    pub thread: u32,
    pub steps: Vec<Step>,
}

/// Logs by numbers: which threads no log forks, which objects a log declares, and how many locks there are.
#[derive(Drop)]
pub struct NumberedLogs {
    pub logs: Vec<ThreadSteps>,
    pub roots: Vec<bool>,
    pub declared: Vec<bool>,
    pub locks: u32,
}
