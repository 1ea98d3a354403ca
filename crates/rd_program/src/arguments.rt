//! The words of the command line.

use rd_base::{NoMemory, Word};
use std::alloc::Global;
use std::env::{Env, FillError};

/// Why there are no words.
#[derive(Clone, Copy, PartialEq, Eq)]
pub enum WordsRefused {
    /// the system doesn't give them
    NotGiven,
    /// memory ran out
    NoMemory,
}

impl From<NoMemory> for WordsRefused {
    fn from(_error: NoMemory) -> WordsRefused {
        WordsRefused::NoMemory
    }
}

/// The word at a place, the program's own name at place 0, or None behind the last. Its bytes need not be text. A word of
/// more than 2^30 bytes isn't given.
fn argument_at<E: Env>(env: &E, alloc: Global, place: usize) -> Result<Option<Word>, WordsRefused> {
    for power in 8u32..31 {
        let Ok(mut bytes) = vec![in alloc; 0u8; 1usize << power] else {
            return Err(WordsRefused::NoMemory);
        };
        match env.arg(place, &mut bytes) {
            Ok(count) => return Ok(Some(Word::from_bytes(alloc, &bytes[..count])?)),
            Err(FillError::NotPresent) => return Ok(None),
            Err(FillError::TooLong) => {}
        }
    }
    Err(WordsRefused::NotGiven)
}

/// The words of the command line, without the program's own name.
pub fn words<E: Env>(env: &E, alloc: Global) -> Result<Vec<Word>, WordsRefused> {
    let mut words = Vec::new(alloc);
    if argument_at(env, alloc, 0)?.is_none() {
        return Err(WordsRefused::NotGiven);
    }
    for place in 1..usize::MAX {
        let Some(word) = argument_at(env, alloc, place)? else {
            break;
        };
        if words.push(word).is_err() {
            return Err(WordsRefused::NoMemory);
        }
    }
    Ok(words)
}
