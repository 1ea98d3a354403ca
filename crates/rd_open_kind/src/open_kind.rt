//! A kind of a specification's text whose lines are read.
ghost use Rattle.std.specs.Prelude.{◌≡◌, ◌<◌, ◌≤◌, None, IfOk, IsOk, OnOk, OnErr, is_some, length};
ghost use Rattle.rd_definitions.specs.Definitions.{IsDefined, formula_of};
ghost use Rattle.rd_ecl.specs.Formulas.{tree_of};
ghost use Rattle.rd_ecl.specs.Specified.{IsDraft, IsWhole, MayAdd, MayPair, formula_at, slots_at};
ghost use Rattle.rd_open_kind.specs.Opened.{AreItsDefinitions, definitions_at, filled, kind_named, with_default, with_definition, with_method_in, with_pair_in};

use crate::filling::fill_with;
use rd_base::{Name, NoMemory};
use rd_definitions::Definitions;
use rd_ecl::{Formula, KindDraft, KindSpec, Names};
use std::alloc::Global;
use std::marker::Model;

/// A kind whose lines are read. Contracts see it as the kind so far, the definitions of each of its methods, and the default.
#[derive(Drop)]
pub struct OpenKind {
    draft: KindDraft,
    /// of each method
    definitions: Vec<Definitions>,
    /// what a pair without a line gets
    default: Option<bool>,
}

impl Model for OpenKind {
    ghost use Rattle.std.specs.Coded.{codes};
    ghost use Rattle.rd_ecl.specs.Codes.{coded_tree};
    ghost use Rattle.rd_open_kind.specs.Opened.{AreItsDefinitions, Opened};

    ghost Value = { Opened };

    ghost coded = { Prim.hlevel (codes, coded_tree) };

    ghost view = { λ o. record { kind = o.draft; defined = o.definitions.items; default = o.default } };

    ghost invariant = { λ o. AreItsDefinitions o.draft o.definitions.items };
}

impl OpenKind {
    /// A kind of this name, without a method.
    pub fn new(alloc: Global, name: Name) -> Result<OpenKind, NoMemory>
        ensures { IfOk result (λ opened. opened ≡ kind_named name) }
    {
        Ok(OpenKind {
            draft: KindDraft::new(alloc, name)?,
            definitions: Vec::new(alloc),
            default: None,
        })
    }

    /// Its methods and pairs so far. It takes no memory.
    pub fn draft(&self) -> &KindDraft
        ensures value { result.now ≡ self.now.kind }
        ensures valid { IsDraft self.now.kind }
        ensures definitions { AreItsDefinitions self.now.kind self.now.defined }
    {
        // its clause says what is known of a draft
        let _methods = self.draft.methods();
        &self.draft
    }

    /// What is defined of the method with this number. It takes no memory.
    pub fn definitions(&self, method: u8) -> &Definitions
        requires { method < length self.now.kind.methods }
        ensures { result.now ≡ definitions_at self.now.defined method }
    {
        &self.definitions[usize::from(method)]
    }

    /// What a pair without a line gets, where a line said it. It takes no memory.
    pub fn default(&self) -> Option<bool>
        ensures { result ≡ self.now.default }
    {
        self.default
    }

    /// Puts a method last, of which nothing is defined. Its name is new in the kind, which has fewer than 16 methods, and there are 1 to
    /// 7 different variables in the form of variables. After want of memory the kind is as before.
    pub fn method(&mut self, alloc: Global, name: Name, variables: Names) -> Result<(), NoMemory>
        requires { MayAdd self.old.kind name variables }
        ensures ok { OnOk result
            (self.new ≡ with_method_in self.old (record { name = name; variables = variables })) }
        ensures err { OnErr result (self.new ≡ self.old) }
    {
        self.definitions.reserve(1)?;
        self.draft.method(name, variables)?;
        self.definitions.push_reserved(Definitions::new(alloc));
        Ok(())
    }

    /// Sets the formula of two methods, or of one with itself, by their numbers, as a draft does. It takes no memory.
    pub fn pair(&mut self, first: u8, second: u8, formula: Formula) -> Result<(), NoMemory>
        requires { MayPair self.old.kind first second (tree_of formula) }
        ensures ok { IsOk result }
        ensures value { self.new ≡ with_pair_in self.old first second (tree_of formula) }
    {
        self.draft.pair(first, second, formula)
    }

    /// Defines a name as a formula of the method with this number. It isn't defined of this method yet, and the formula is one of a call
    /// of it. After want of memory the kind is as before.
    pub fn define(&mut self, method: u8, name: Name, formula: Formula) -> Result<(), NoMemory>
        requires inside { method < length self.old.kind.methods }
        requires unknown { formula_of (definitions_at self.old.defined method) name ≡ None }
        requires defined { IsDefined (slots_at self.old.kind.methods method)
            (record { name = name; formula = tree_of formula }) }
        ensures ok { OnOk result
            (self.new ≡ with_definition self.old method (record { name = name; formula = tree_of formula })) }
        ensures err { OnErr result (self.new ≡ self.old) }
    {
        self.definitions[usize::from(method)].add(name, formula)?;
        Ok(())
    }

    /// Sets what a pair without a line gets. It takes no memory.
    pub fn set_default(&mut self, value: bool)
        ensures { self.new ≡ with_default self.old value }
    {
        self.default = Some(value);
    }

    /// Has the pair of these methods a formula, once the default is given to each without one? `first` is at most `second`. It takes no
    /// memory.
    pub fn is_set(&self, first: u8, second: u8) -> bool
        requires { (first ≤ second) × (second < length self.now.kind.methods) }
        ensures { result ≡ is_some (formula_at (filled self.now) first second) }
    {
        // its clause says what is known of a draft
        let _methods = self.draft.methods();
        self.default.is_some() || self.draft.formula(first, second).is_some()
    }

    /// The kind, with the default for each pair without a formula. With it each has one. It takes no memory.
    pub fn finish(self) -> KindSpec
        requires { IsWhole (filled self) }
        ensures { result ≡ filled self }
    {
        let mut draft = self.draft;
        fill_with(&mut draft, self.default);
        draft.finish()
    }
}
