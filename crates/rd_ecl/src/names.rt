//! Lists of names.
ghost use Rattle.std.specs.Prelude.{◌≡◌, [], ◌∷◌, ◌++◌, OnOk, OnErr};

use rd_base::{Name, NoMemory};
use std::alloc::Global;
use std::marker::Model;

/// Names, one after another. Contracts see it as the list of the names.
#[derive(Drop)]
pub struct Names {
    held: Vec<Name>,
}

impl Model for Names {
    ghost use Rattle.std.specs.Prelude.{List, ℕ};

    ghost Value = { List (List ℕ) };

    ghost view = { λ n. n.held.items };
}

impl Names {
    /// No names. It takes no memory.
    pub fn new(alloc: Global) -> Names
        ensures { result ≡ [] }
    {
        Names {
            held: Vec::new(alloc),
        }
    }

    /// Puts a name last. After want of memory the list is as before.
    pub fn push(&mut self, item: Name) -> Result<(), NoMemory>
        ensures ok { OnOk result (self.new ≡ self.old ++ item ∷ []) }
        ensures err { OnErr result (self.new ≡ self.old) }
    {
        self.held.push(item)?;
        Ok(())
    }

    /// The names. It takes no memory.
    pub fn items(&self) -> &[Name]
        ensures { result.now ≡ self.now }
    {
        self.held.as_slice()
    }
}
