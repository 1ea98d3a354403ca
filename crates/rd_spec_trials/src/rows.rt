//! What each row asserts.

use rd_base::NoMemory;
use std::process::Abort;

/// What a row gives is the text that is wanted.
pub(crate) fn gives(rt: &impl Abort, found: Result<String, NoMemory>, wanted: &str, at: &[u8]) {
    let found = found.expect(rt, "memory");
    assert_eq!(rt; found.as_str(), wanted, "at {at:?}");
}
