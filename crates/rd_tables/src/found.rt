//! What look-ups of a line's names find, and the numbers that a line's names have.

use crate::locks::Lock;

/// What a look-up of a thread's name finds: its number, which is the next one where it was not begun, and whether it was joined.
#[derive(Clone, Copy)]
pub struct FoundThread {
    pub number: u32,
    pub unknown: bool,
    pub joined: bool,
}

/// What a look-up of an object's name finds: its number, which is the next one where it was not
/// declared, and that of its kind, which is then no kind's.
#[derive(Clone, Copy)]
pub struct FoundObject {
    pub number: u32,
    pub unknown: bool,
    pub kind: u32,
}

/// What a look-up of a lock's name finds: its number, which is the next one where it was neither acquired nor shared, and what is
/// held of it.
#[derive(Clone, Copy)]
pub struct FoundLock {
    pub number: u32,
    pub unknown: bool,
    pub lock: Lock,
}

/// The number of a new object, and that of its kind.
#[derive(Clone, Copy)]
pub struct Declared {
    pub object: u32,
    pub kind: u32,
}

/// The numbers of an event's threads.
#[derive(Clone, Copy)]
pub struct Pair {
    pub thread: u32,
    pub child: u32,
}
