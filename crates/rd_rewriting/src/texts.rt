//! Lines in one block of memory.
ghost use Rattle.std.specs.Prelude.{◌≡◌, ◌<◌, ◌≤◌, ◌^◌, ◌++◌, ℕ, List, [], ◌∷◌, codes, length, Some, slice_get, slice_range, OnOk};
ghost use Rattle.rd_rewriting.specs.Texts.{AreStarts, texts_in};

use rd_base::{Bytes, NoMemory};
use std::alloc::Global;
use std::marker::Model;

/// Lines one behind another, each with its line feed. Contracts see them as the list of these.
#[derive(Drop)]
pub struct Texts {
    bytes: Bytes,
    // where each line starts
    starts: Vec<usize>,
}

impl Model for Texts {
    ghost use Rattle.std.specs.Prelude.{List, ℕ, length};
    ghost use Rattle.rd_rewriting.specs.Texts.{AreStarts, texts_in};

    ghost Value = { List (List ℕ) };

    ghost view = { λ t. texts_in t.bytes t.starts.items };

    ghost invariant = { λ t. AreStarts t.starts.items (length t.bytes) };
}

// Where the text with this number starts and ends among so many bytes.
fn bounds(starts: &[usize], index: usize, count: usize) -> (usize, usize)
    requires inside { index < length starts.now }
    requires starts { AreStarts starts.now count }
    ensures text { (bytes : List ℕ) → length bytes ≡ count →
        slice_get (texts_in bytes starts.now) index ≡ Some (slice_range bytes result.0 result.1) }
    ensures rises { result.0 ≤ result.1 }
    ensures within { result.1 ≤ count }
{
    if index + 1 < starts.len() {
        return (starts[index], starts[index + 1]);
    }
    (starts[index], count)
}

impl Texts {
    /// No lines. It takes no memory.
    pub(crate) fn new(alloc: Global) -> Texts
        ensures { result ≡ [] }
    {
        Texts {
            bytes: Bytes::new(alloc),
            starts: Vec::new(alloc),
        }
    }

    /// Puts a line last, with a line feed behind it.
    pub(crate) fn push(&mut self, line: &[u8]) -> Result<(), NoMemory>
        ensures { OnOk result (self.new ≡ self.old ++ (line.now ++ codes "\n") ∷ []) }
    {
        self.starts.push(self.bytes.items().len())?;
        self.bytes.append(line)?;
        self.bytes.push(b'\n')
    }

    /// How many there are.
    pub(crate) fn len(&self) -> usize
        ensures count { result ≡ length self.now }
        ensures few { result < 2 ^ 63 }
    {
        self.starts.len()
    }

    /// The line with this number, from 0.
    pub(crate) fn get(&self, index: usize) -> &[u8]
        requires { index < length self.now }
        ensures { slice_get self.now index ≡ Some result.now }
    {
        let bytes = self.bytes.items();
        let (start, end) = bounds(self.starts.as_slice(), index, bytes.len());
        &bytes[start..end]
    }
}
