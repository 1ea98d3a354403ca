//! Words with their sorts, and lists of them.
ghost use Rattle.std.specs.Prelude.{◌≡◌, [], ◌∷◌, ◌++◌, OnOk, OnErr};

use rd_base::{Bytes, NoMemory};
use rd_tokens::Sort;
use std::alloc::Global;
use std::marker::Model;

/// A word of a formula, with the sort of the token that it is.
#[derive(Drop)]
pub struct PrintedWord {
    pub sort: Sort,
    pub bytes: Bytes,
}

/// The words of a formula, from the left. Contracts see it as the list of the words.
#[derive(Drop)]
pub struct Words {
    held: Vec<PrintedWord>,
}

impl Model for Words {
    ghost use Rattle.std.specs.Prelude.{List};
    ghost use Rattle.rd_print.specs.declared.canonical.word_list.PrintedWord.{PrintedWord};

    ghost Value = { List PrintedWord };

    ghost view = { λ w. w.held.items };
}

impl Words {
    // No words. It takes no memory.
    pub(crate) fn new(alloc: Global) -> Words
        ensures { result ≡ [] }
    {
        Words {
            held: Vec::new(alloc),
        }
    }

    // Puts a word last. After want of memory the list is as before.
    pub(crate) fn push(&mut self, word: PrintedWord) -> Result<(), NoMemory>
        ensures ok { OnOk result (self.new ≡ self.old ++ word ∷ []) }
        ensures err { OnErr result (self.new ≡ self.old) }
    {
        self.held.push(word)?;
        Ok(())
    }

    /// The words. It takes no memory.
    pub fn items(&self) -> &[PrintedWord]
        ensures { result.now ≡ self.now }
    {
        self.held.as_slice()
    }
}
