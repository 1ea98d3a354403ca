//! Texts of rows.

use rd_base::NoMemory;
use rd_reading::SpecCause;
use std::alloc::Global;

/// Words so often.
pub fn push_times(text: &mut String, words: &str, count: u32) -> Result<(), NoMemory> {
    for _ in 0..count {
        text.push_str(words)?;
    }
    Ok(())
}

/// Words so often between two texts.
pub fn repeated(
    alloc: Global,
    front: &str,
    words: &str,
    count: u32,
    behind: &str,
) -> Result<String, NoMemory> {
    let mut text = String::from_str(alloc, front)?;
    push_times(&mut text, words, count)?;
    text.push_str(behind)?;
    Ok(text)
}

/// A number between two texts.
pub fn push_number(
    text: &mut String,
    front: &str,
    number: u32,
    behind: &str,
) -> Result<(), NoMemory> {
    write!(text, "{front}{number}{behind}")?;
    Ok(())
}

/// What stands between two parts.
pub fn push_comma(text: &mut String) -> Result<(), NoMemory> {
    if !text.is_empty() {
        text.push_str(", ")?;
    }
    Ok(())
}

/// Bytes that are text.
pub fn read_bytes(bytes: &[u8]) -> &str {
    str::from_utf8(bytes).unwrap_or("?")
}

/// The place and the cause, which says a pair that is missing by its names.
pub fn push_cause(text: &mut String, place: u32, cause: &SpecCause) -> Result<(), NoMemory> {
    push_number(text, "", place, " ")?;
    if let SpecCause::MissingPair(first, second) = cause {
        text.push_str("MissingPair ")?;
        text.push_str(read_bytes(first.items()))?;
        text.push_str(" ")?;
        text.push_str(read_bytes(second.items()))?;
    } else {
        write!(text, "{cause:?}")?;
    }
    Ok(())
}
