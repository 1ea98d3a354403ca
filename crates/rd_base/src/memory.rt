//! Want of memory, and lists that take memory only where there is something to hold.
ghost use Rattle.std.specs.Prelude.{◌≡◌, ◌≢◌, [], IfOk, OnErr};

use std::alloc::{AllocError, AllocFailed, Global};
use thiserror::Error;

/// Memory ran out. It is merged with no other answer, and the call that gives it has changed nothing.
#[derive(Clone, Copy, Debug, PartialEq, Eq, Error)]
#[error("out of memory")]
pub struct NoMemory;

impl From<AllocError> for NoMemory {
    fn from(_error: AllocError) -> NoMemory {
        NoMemory
    }
}

impl<T: Drop> From<AllocFailed<T>> for NoMemory {
    fn from(_error: AllocFailed<T>) -> NoMemory {
        NoMemory
    }
}

/// A list of these bytes. Where there are none, it takes no memory.
pub(crate) fn list_of_bytes(alloc: Global, bytes: &[u8]) -> Result<Vec<u8>, AllocError>
    ensures value { IfOk result (λ list. list.items ≡ bytes.now) }
    ensures memory { OnErr result (bytes.now ≢ []) }
{
    if bytes.is_empty() {
        return Ok(Vec::new(alloc));
    }
    Vec::from_slice(alloc, bytes)
}
