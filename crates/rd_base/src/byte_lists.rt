//! Lists of bytes of any length: the words of a command line, and texts that are written.
ghost use Rattle.std.specs.Prelude.{◌≡◌, ◌≢◌, ◌+◌, ◌<◌, ◌≤◌, [], ◌∷◌, ◌++◌, IfOk, OnOk, OnErr, length, take, vec_len};

use crate::memory::{NoMemory, list_of_bytes};
use std::alloc::Global;
use std::marker::Model;

/// A word of the command line, any bytes. Contracts see it as the list of its bytes.
#[derive(Drop)]
pub struct Word {
    held: Vec<u8>,
}

impl Model for Word {
    ghost use Rattle.std.specs.Prelude.{List, ℕ};

    ghost Value = { List ℕ };

    ghost view = { λ w. w.held.items };
}

impl Word {
    /// The empty word. It takes no memory.
    pub fn new(alloc: Global) -> Word
        ensures { result ≡ [] }
    {
        Word {
            held: Vec::new(alloc),
        }
    }

    /// The word with these bytes. The empty one takes no memory.
    pub fn from_bytes(alloc: Global, bytes: &[u8]) -> Result<Word, NoMemory>
        ensures value { IfOk result (λ word. word ≡ bytes.now) }
        ensures memory { OnErr result (bytes.now ≢ []) }
    {
        Ok(Word {
            held: list_of_bytes(alloc, bytes)?,
        })
    }

    /// Puts a byte last. After want of memory the word is as before.
    pub fn push(&mut self, byte: u8) -> Result<(), NoMemory>
        ensures ok { OnOk result (self.new ≡ self.old ++ byte ∷ []) }
        ensures err { OnErr result (self.new ≡ self.old) }
    {
        self.held.push(byte)?;
        Ok(())
    }

    /// Its bytes.
    pub fn items(&self) -> &[u8]
        ensures { result.now ≡ self.now }
    {
        self.held.as_slice()
    }
}

// Zeros to put behind what stands in a text.
static ZEROS: [u8; 1024] = [0; 1024];

// A text that grows takes at least this many bytes at once.
const LEAST_AHEAD: usize = 64;

// What is filled ahead of a text is at most this long, so that no memory is touched long before it is written.
const MOST_AHEAD: usize = 16 * 1024;

// Fills a list with zeros up to this length. After want of memory it may be filled in part.
fn fill(held: &mut Vec<u8>, length: usize) -> Result<(), NoMemory>
    requires { vec_len held.old ≤ length }
    ensures filled { OnOk result (length ≤ vec_len held.new) }
    ensures more { vec_len held.old ≤ vec_len held.new }
    ensures front { take (vec_len held.old) held.new.items ≡ held.old.items }
{
    while held.len() < length {
        let step = (length - held.len()).min(ZEROS.len());
        held.extend_from_slice(&ZEROS[..step])?;
    }
    Ok(())
}

// Makes a list longer, by at least this many bytes.
#[cold]
#[inline(never)]
fn grow(held: &mut Vec<u8>, missing: usize) -> Result<(), NoMemory>
    ensures longer { OnOk result (vec_len held.old + missing ≤ vec_len held.new) }
    ensures more { vec_len held.old ≤ vec_len held.new }
    ensures front { take (vec_len held.old) held.new.items ≡ held.old.items }
{
    let filled = held.len();
    let ahead = missing.max(filled.clamp(LEAST_AHEAD, MOST_AHEAD));
    held.reserve(ahead)?;
    fill(held, filled + ahead)
}

// Makes room for this many bytes more behind those that stand in a list.
#[inline]
fn make_room(held: &mut Vec<u8>, len: usize, more: usize) -> Result<(), NoMemory>
    requires { len ≤ vec_len held.old }
    ensures room { OnOk result (len + more ≤ vec_len held.new) }
    ensures long { vec_len held.old ≤ vec_len held.new }
    ensures front { take len held.new.items ≡ take len held.old.items }
    ensures some { OnErr result (vec_len held.old < len + more) }
{
    let room = held.len() - len;
    if more <= room {
        return Ok(());
    }
    grow(held, more - room)
}

// Puts bytes behind those that stand in a list, where there is room, and answers where they end.
#[inline]
fn place(held: &mut Vec<u8>, len: usize, bytes: &[u8]) -> usize
    requires { len + length bytes.now ≤ vec_len held.old }
    ensures placed { take result held.new.items ≡ take len held.old.items ++ bytes.now }
    ensures end { result ≡ len + length bytes.now }
    ensures long { vec_len held.new ≡ vec_len held.old }
{
    let end = len + bytes.len();
    held[len..end].copy_from_slice(bytes);
    end
}

/// A text to write, any bytes. Contracts see it as the list of its bytes.
#[derive(Drop)]
pub struct Bytes {
    // longer than what stands in it, so that what comes next is written into it
    held: Vec<u8>,
    len: usize,
}

impl Model for Bytes {
    ghost use Rattle.std.specs.Prelude.{List, ℕ, ◌≤◌, length, take};

    ghost Value = { List ℕ };

    ghost view = { λ b. take b.len b.held.items };

    ghost invariant = { λ b. b.len ≤ length b.held.items };
}

impl Bytes {
    /// The empty text. It takes no memory.
    pub fn new(alloc: Global) -> Bytes
        ensures { result ≡ [] }
    {
        Bytes {
            held: Vec::new(alloc),
            len: 0,
        }
    }

    /// Takes all bytes away, and keeps their memory for the next ones.
    pub fn clear(&mut self)
        ensures { self.new ≡ [] }
    {
        self.len = 0;
    }

    /// Takes room for this many bytes more at once. Its bytes stay.
    pub fn reserve(&mut self, more: usize) -> Result<(), NoMemory>
        ensures { self.new ≡ self.old }
    {
        make_room(&mut self.held, self.len, more)
    }

    /// Puts a byte last. After want of memory the text is as before.
    #[inline]
    pub fn push(&mut self, byte: u8) -> Result<(), NoMemory>
        ensures ok { OnOk result (self.new ≡ self.old ++ byte ∷ []) }
        ensures err { OnErr result (self.new ≡ self.old) }
    {
        make_room(&mut self.held, self.len, 1)?;
        self.held[self.len] = byte;
        self.len += 1;
        Ok(())
    }

    /// Puts these bytes last. None take no memory. After want of memory the text is as before.
    #[inline]
    pub fn append(&mut self, bytes: &[u8]) -> Result<(), NoMemory>
        ensures ok { OnOk result (self.new ≡ self.old ++ bytes.now) }
        ensures err { OnErr result (self.new ≡ self.old) }
        ensures memory { OnErr result (bytes.now ≢ []) }
    {
        make_room(&mut self.held, self.len, bytes.len())?;
        self.len = place(&mut self.held, self.len, bytes);
        Ok(())
    }

    /// Puts this byte, these bytes and the byte again last. After want of memory the text is as before.
    #[inline]
    pub(crate) fn append_between(&mut self, byte: u8, bytes: &[u8]) -> Result<(), NoMemory>
        ensures ok { OnOk result (self.new ≡ self.old ++ (byte ∷ bytes.now ++ byte ∷ [])) }
        ensures err { OnErr result (self.new ≡ self.old) }
    {
        make_room(&mut self.held, self.len, bytes.len() + 2)?;
        let from = place(&mut self.held, self.len, &[byte]);
        let end = place(&mut self.held, from, bytes);
        self.len = place(&mut self.held, end, &[byte]);
        Ok(())
    }

    /// Its bytes.
    pub fn items(&self) -> &[u8]
        ensures { result.now ≡ self.now }
    {
        &self.held[..self.len]
    }
}
