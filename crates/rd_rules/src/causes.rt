//! What an accepted line is, and why a line is refused.

use rd_base::{LimitName, NoMemory};
use rd_event::Event;
use std::alloc::AllocFailed;
use thiserror::Error;

/// What an accepted line is in numbers: threads, locks and objects from 0, in the order of the lines that
/// began, first acquired or shared, or declared them, and kinds by their places among the kinds.
#[derive(Drop, PartialEq, Eq)]
pub enum Accepted {
    /// a skipped line, or the header
    Nothing,
    /// a thread that no other begins
    Root(u32),
    /// an object and its kind
    Object { object: u32, kind: u32 },
    /// what a thread does
    Event(Event),
}

/// Why a line may not follow the accepted lines: the first part of the rules that it breaks.
#[derive(Clone, Copy, Debug, PartialEq, Eq, Error)]
pub enum WfCause {
    /// the first line that isn't skipped is no header, or a later one is a header
    #[error("the header comes first, and once")]
    HeaderFirst,
    /// a thread line comes after an event
    #[error("a thread line comes after an event")]
    LateRoot,
    /// the new thread or object has the name of an earlier one
    #[error("the name is taken")]
    NameTaken,
    /// the acting thread or the joined thread was not begun
    #[error("the thread is unknown")]
    UnknownThread,
    /// the acting thread was joined
    #[error("the thread has ended")]
    ThreadEnded,
    /// a thread joins itself
    #[error("a thread joins itself")]
    OwnThread,
    /// the object's kind is no kind
    #[error("the kind is unknown")]
    UnknownKind,
    /// the called object was not declared
    #[error("the object is unknown")]
    UnknownObject,
    /// the object's kind has no such method
    #[error("the method is unknown")]
    UnknownMethod,
    /// the call has another number of slots than its method
    #[error("the number of arguments is wrong")]
    WrongCount,
    /// another thread stands against the line, that of least number: it has the acquired or shared lock, or a share of the acquired one
    #[error("another thread holds the lock")]
    LockHeld(u32),
    /// the acting thread doesn't have the released lock, or no share of the unshared one
    #[error("the thread doesn't hold the lock")]
    NotHeld,
    /// one more would pass this limit, which is the number
    #[error("one more would pass a limit")]
    Limit(LimitName, u32),
}

/// Why a line is refused.
#[derive(Clone, Copy, PartialEq, Eq)]
pub enum TraceCause {
    /// the line says no item
    BadLine,
    /// the input ended inside the line
    NoFinalNewline,
    /// the line may not follow the accepted ones
    Wf(WfCause),
    /// the line is too long, or the bytes are too many
    Limit(LimitName, u64),
}

/// Why a roster refuses a line.
#[derive(Clone, Copy, Debug, PartialEq, Eq, Error)]
pub enum WfRefused {
    /// the line may not follow
    #[error("the line may not follow")]
    Cause(WfCause),
    /// memory ran out
    #[error("out of memory")]
    NoMemory,
}

impl From<NoMemory> for WfRefused {
    ghost use Rattle.std.specs.Prelude.{◌≡◌};
    ghost use Rattle.rd_rules.specs.declared.causes.WfRefused.TheVariants.{NoMemory as MemoryRefused};

    ghost from_gives = { λ _ e. e ≡ MemoryRefused };

    fn from(_error: NoMemory) -> WfRefused {
        WfRefused::NoMemory
    }
}

impl<T: Drop> From<AllocFailed<T>> for WfRefused {
    ghost use Rattle.std.specs.Prelude.{◌≡◌};
    ghost use Rattle.rd_rules.specs.declared.causes.WfRefused.TheVariants.{NoMemory as MemoryRefused};

    ghost from_gives = { λ _ e. e ≡ MemoryRefused };

    fn from(_error: AllocFailed<T>) -> WfRefused {
        WfRefused::NoMemory
    }
}

/// Why a line is not accepted by its bytes.
#[derive(Clone, Copy, PartialEq, Eq)]
pub enum BytesRefused {
    /// the bytes say no item
    BadLine,
    /// the item may not follow the accepted lines
    Cause(WfCause),
    /// memory ran out
    NoMemory,
}

impl From<NoMemory> for BytesRefused {
    ghost use Rattle.std.specs.Prelude.{◌≡◌};
    ghost use Rattle.rd_rules.specs.declared.causes.BytesRefused.TheVariants.{NoMemory as MemoryRanOut};

    ghost from_gives = { λ _ refused. refused ≡ MemoryRanOut };

    fn from(_error: NoMemory) -> BytesRefused {
        BytesRefused::NoMemory
    }
}

impl<T: Drop> From<AllocFailed<T>> for BytesRefused {
    ghost use Rattle.std.specs.Prelude.{◌≡◌};
    ghost use Rattle.rd_rules.specs.declared.causes.BytesRefused.TheVariants.{NoMemory as MemoryRanOut};

    ghost from_gives = { λ _ refused. refused ≡ MemoryRanOut };

    fn from(_error: AllocFailed<T>) -> BytesRefused {
        BytesRefused::NoMemory
    }
}
