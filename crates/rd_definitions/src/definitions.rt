//! The definitions of one method.
ghost use Rattle.std.specs.Prelude.{◌≡◌, [], ◌∷◌, ◌++◌, None, Some, IfSome, IfNone, OnOk, OnErr};
ghost use Rattle.rd_ecl.specs.Formulas.{tree_of};
ghost use Rattle.rd_definitions.specs.Definitions.{formula_of};

use indexmap::IndexMap;
use rd_base::{Name, NoMemory};
use rd_ecl::Formula;
use std::alloc::Global;
use std::marker::Model;

/// The definitions of one method, in their order. Contracts see them as the list of names and formulas.
#[derive(Drop)]
pub struct Definitions {
    held: IndexMap<Name, Formula>,
}

impl Model for Definitions {
    ghost use Rattle.std.specs.Prelude.{List, map};
    ghost use Rattle.std.specs.Coded.{codes};
    ghost use Rattle.rd_ecl.specs.Codes.{coded_tree};
    ghost use Rattle.rd_definitions.specs.Definitions.{Definition, entry_definition};

    ghost Value = { List Definition };

    ghost coded = { Prim.hlevel (codes, coded_tree) };

    ghost view = { λ d. map entry_definition d.held.entries };
}

impl Definitions {
    /// No definitions. It takes no memory.
    pub fn new(alloc: Global) -> Definitions
        ensures { result ≡ [] }
    {
        Definitions {
            held: IndexMap::new(alloc),
        }
    }

    /// The formula that a name stands for. It takes no memory.
    pub fn formula(&self, name: &Name) -> Option<&Formula>
        ensures some { IfSome result (λ formula. formula_of self.now name.now ≡ Some (tree_of formula.now)) }
        ensures none { IfNone result (formula_of self.now name.now ≡ None) }
    {
        self.held.get(name)
    }

    /// Puts a definition last, of a name that isn't defined. After want of memory all is as before.
    pub fn add(&mut self, name: Name, formula: Formula) -> Result<(), NoMemory>
        requires { formula_of self.old name ≡ None }
        ensures ok { OnOk result (self.new ≡ self.old ++ record { name = name; formula = tree_of formula } ∷ []) }
        ensures err { OnErr result (self.new ≡ self.old) }
    {
        self.held.insert(name, formula)?;
        Ok(())
    }
}
