//! Lists of predicates.
ghost use Rattle.std.specs.Prelude.{◌≡◌, [], ◌∷◌, ◌++◌, OnOk, OnErr};

use crate::formulas::Predicate;
use rd_base::NoMemory;
use std::alloc::Global;
use std::marker::Model;

/// Predicates, one after another. Contracts see it as the list of the predicates.
#[derive(Drop)]
pub struct Predicates {
    held: Vec<Predicate>,
}

impl Model for Predicates {
    ghost use Rattle.std.specs.Prelude.{List};
    ghost use Rattle.rd_ecl.specs.declared.formulas.Predicate.{Predicate as PredicateOf};

    ghost Value = { List PredicateOf };

    ghost view = { λ p. p.held.items };
}

impl Predicates {
    /// No predicates. It takes no memory.
    pub fn new(alloc: Global) -> Predicates
        ensures { result ≡ [] }
    {
        Predicates {
            held: Vec::new(alloc),
        }
    }

    /// Puts a predicate last. After want of memory the list is as before.
    pub fn push(&mut self, item: Predicate) -> Result<(), NoMemory>
        ensures ok { OnOk result (self.new ≡ self.old ++ item ∷ []) }
        ensures err { OnErr result (self.new ≡ self.old) }
    {
        self.held.push(item)?;
        Ok(())
    }

    /// The predicates. It takes no memory.
    pub fn items(&self) -> &[Predicate]
        ensures { result.now ≡ self.now }
    {
        self.held.as_slice()
    }
}
