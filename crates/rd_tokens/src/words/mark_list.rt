//! Lists of marks.
ghost use Rattle.std.specs.Prelude.{◌≡◌, [], ◌∷◌, ◌++◌, OnOk, OnErr};

use rd_base::NoMemory;
use rd_grammar::Mark;
use std::alloc::Global;
use std::marker::Model;

/// Marks, one after another. Contracts see it as the list of the marks.
#[derive(Drop)]
pub struct Marks {
    held: Vec<Mark>,
}

impl Model for Marks {
    ghost use Rattle.std.specs.Prelude.{List};
    ghost use Rattle.rd_grammar.specs.declared.marks.Mark.{Mark};

    ghost Value = { List Mark };

    ghost view = { λ m. m.held.items };
}

impl Marks {
    // No marks. It takes no memory.
    pub(crate) fn new(alloc: Global) -> Marks
        ensures { result ≡ [] }
    {
        Marks {
            held: Vec::new(alloc),
        }
    }

    // Puts a mark last. After want of memory the list is as before.
    pub(crate) fn push(&mut self, mark: Mark) -> Result<(), NoMemory>
        ensures ok { OnOk result (self.new ≡ self.old ++ mark ∷ []) }
        ensures err { OnErr result (self.new ≡ self.old) }
    {
        self.held.push(mark)?;
        Ok(())
    }

    /// The marks. It takes no memory.
    pub fn items(&self) -> &[Mark]
        ensures { result.now ≡ self.now }
    {
        self.held.as_slice()
    }
}
