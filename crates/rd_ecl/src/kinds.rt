//! A kind of objects and its methods.
ghost use Rattle.std.specs.Prelude.{◌≡◌, ◌≢◌, ◌↔◌, ℕ, List, [], ◌∷◌, ◌++◌, IfOk, IfSome, OnOk, OnErr, IsTrue, AllPairs, Contains, IsOk, Some, None, replicate, length, ◌+◌, ◌*◌, ◌<◌, ◌≤◌, ◌&&◌, option_map};
ghost use Rattle.rd_base.specs.declared.values.Value.{Value};
ghost use Rattle.rd_ecl.specs.Variables.{IsVariable, is_variable, is_one_of, are_different};
ghost use Rattle.rd_ecl.specs.Formulas.{Tree, nodes, tree_of};
ghost use Rattle.rd_ecl.specs.Reduction.{AreListed};
ghost use Rattle.rd_ecl.specs.Relations.{Gathers, RelationsAreCounted, kept_relations, part_of, with_room};
ghost use Rattle.rd_ecl.specs.Specified.{IsDraft, IsKind, IsPair, IsWhole, MayAdd, MayPair, SpecifiedKind, commutes, formula_at, may_pair, method_predicates, pair_holds, slots_at, with_method, with_pair};

use crate::formulas::Formula;
use crate::names::Names;
use crate::predicates::Predicates;
use crate::relations::Relations;
use rd_base::{MOST_METHODS, MOST_PREDICATES, MOST_TOKENS, Name, NoMemory, Value};
use std::alloc::Global;
use std::marker::Model;

/// A method of a kind. Its slots are its arguments, then its result.
#[derive(Drop)]
pub struct Method {
    pub name: Name,
    /// one for each slot, which it names
    pub variables: Names,
}

/// A kind of objects: its name, and at most 16 methods of different names. Contracts see it as the name and the methods.
#[derive(Drop)]
pub struct KindSpec {
    name: Name,
    methods: Vec<Method>,
    // the formula of methods m and n, with m at most n, stands at 16 n + m
    pairs: Vec<Option<Formula>>,
}

impl Model for KindSpec {
    ghost use Rattle.std.specs.Prelude.{map, option_map};
    ghost use Rattle.rd_ecl.specs.Formulas.{tree_of};
    ghost use Rattle.rd_ecl.specs.Specified.{SpecifiedKind, IsKind, IsDraft};
    ghost use Rattle.std.specs.Coded.{codes};
    ghost use Rattle.rd_ecl.specs.Codes.{coded_tree};

    ghost Value = { SpecifiedKind };

    ghost coded = { Prim.hlevel (codes, coded_tree) };

    ghost view = { λ k.
        record { name = k.name; methods = k.methods.items; pairs = map (option_map tree_of) k.pairs.items } };

    ghost invariant = { λ k.
        IsKind (record { name = k.name; methods = k.methods.items; pairs = map (option_map tree_of) k.pairs.items }) };
}

impl KindSpec {
    /// Its name. It takes no memory.
    pub fn name(&self) -> &Name
        ensures { result.now ≡ self.now.name }
    {
        &self.name
    }

    /// Its methods. It takes no memory.
    pub fn methods(&self) -> &[Method]
        ensures value { result.now ≡ self.now.methods }
        ensures valid { IsKind self.now }
    {
        self.methods.as_slice()
    }

    /// The formula of two methods, or of one with itself, by their numbers: `first` is at most `second`. It takes no memory.
    pub fn formula(&self, first: u8, second: u8) -> &Formula
        requires { (first ≤ second) × (second < length self.now.methods) }
        ensures value { formula_at self.now first second ≡ Some (tree_of result.now) }
        ensures valid { IsPair (tree_of result.now) (slots_at self.now.methods first)
            (slots_at self.now.methods second) }
    {
        self.pairs[place(first, second)].as_ref().unwrap()
    }

    /// Do two calls commute, of the methods `m` and `n` with the slots `a` and `b`? For different methods it is their formula
    /// with the method declared first on side 1. For one method the formula holds with either call on side 1. It takes no memory.
    pub fn commute(&self, m: u8, a: &[Value], n: u8, b: &[Value]) -> bool
        requires known { (m < length self.now.methods) × (n < length self.now.methods) }
        requires slots { (length a.now ≡ slots_at self.now.methods m)
            × (length b.now ≡ slots_at self.now.methods n) }
        ensures { result ≡ commutes self.now m a.now n b.now }
    {
        if m < n {
            return self.formula(m, n).holds(a, b);
        }
        if n < m {
            return self.formula(n, m).holds(b, a);
        }
        let formula = self.formula(m, m);
        formula.holds(a, b) && formula.holds(b, a)
    }

    // Adds what the formula of a method and another says of it. Is there room for it?
    fn gather<'a>(&'a self, seen: &mut Relations<'a>, method: u8, other: u8) -> bool
        requires counted { RelationsAreCounted seen.old }
        requires known { (method < length self.now.methods) × (other < length self.now.methods) }
        ensures { Gathers (kept_relations seen.old) (part_of self.now method other)
            (with_room result seen.new) }
    {
        let (low, high) = (method.min(other), method.max(other));
        seen.add_all(self.formula(low, high), method, low, high)
    }

    // The distinct relations of a method on its side alone.
    fn relations(&self, method: u8) -> Relations<'_>
        requires { method < length self.now.methods }
        ensures counted { RelationsAreCounted result }
        ensures value { kept_relations result ≡ method_predicates self.now method }
    {
        let mut seen = Relations::none();
        let count = self.methods().len() as u8;
        for other in 0..count {
            // a kind has no sixth
            let _room = self.gather(&mut seen, method, other);
        }
        seen
    }

    /// The distinct relations of the method with this number on its side alone, without the side: at
    /// most 5. They come pair by pair of methods, by the first of a pair, then by the second, and in a
    /// formula from left to right.
    pub fn predicates(&self, alloc: Global, method: u8) -> Result<Predicates, NoMemory>
        requires { method < length self.now.methods }
        ensures value { IfOk result
            (λ predicates. predicates ≡ method_predicates self.now method) }
        ensures few { IfOk result (λ predicates. length predicates ≤ MOST_PREDICATES) }
    {
        self.relations(method).to_predicates(alloc)
    }
}

// Where the formula of two methods stands.
fn place(first: u8, second: u8) -> usize
    ensures { result ≡ MOST_METHODS * second + first }
{
    MOST_METHODS * usize::from(second) + usize::from(first)
}

// Puts 16 pairs last that aren't set. After want of memory the pairs are as before.
fn add_pairs(pairs: &mut Vec<Option<Formula>>) -> Result<(), NoMemory>
    ensures ok { OnOk result (pairs.new.items ≡ pairs.old.items ++ replicate MOST_METHODS None) }
    ensures err { OnErr result (pairs.new.items ≡ pairs.old.items) }
{
    pairs.reserve(MOST_METHODS)?;
    for _ in 0..MOST_METHODS {
        pairs.push_reserved(None);
    }
    Ok(())
}

/// A kind that is being made. Contracts see it as a kind: its name and the methods so far.
#[derive(Drop)]
pub struct KindDraft {
    name: Name,
    methods: Vec<Method>,
    // the formula of methods m and n, with m at most n, stands at 16 n + m
    pairs: Vec<Option<Formula>>,
}

impl Model for KindDraft {
    ghost use Rattle.std.specs.Prelude.{map, option_map};
    ghost use Rattle.rd_ecl.specs.Formulas.{tree_of};
    ghost use Rattle.rd_ecl.specs.Specified.{SpecifiedKind, IsKind, IsDraft};
    ghost use Rattle.std.specs.Coded.{codes};
    ghost use Rattle.rd_ecl.specs.Codes.{coded_tree};

    ghost Value = { SpecifiedKind };

    ghost coded = { Prim.hlevel (codes, coded_tree) };

    ghost view = { λ d.
        record { name = d.name; methods = d.methods.items; pairs = map (option_map tree_of) d.pairs.items } };

    ghost invariant = { λ d.
        IsDraft (record { name = d.name; methods = d.methods.items; pairs = map (option_map tree_of) d.pairs.items }) };
}

impl KindDraft {
    /// A kind of this name, without a method.
    pub fn new(alloc: Global, name: Name) -> Result<KindDraft, NoMemory>
        ensures { IfOk result (λ draft. draft ≡ record { name = name; methods = []; pairs = [] }) }
    {
        // its clause says what is known of a name
        let _bytes = name.items();
        Ok(KindDraft {
            name,
            methods: Vec::new(alloc),
            pairs: Vec::new(alloc),
        })
    }

    /// Puts a method last. Its name is new in the draft, which has fewer than 16 methods, and there are 1 to 7 different
    /// variables: each has 1 to 64 letters, digits and `_`, begins with a letter, and is none of the words `true`, `false`,
    /// `nil`, `not`, `and`, `or` and `when`. After want of memory the draft is as before.
    pub fn method(&mut self, name: Name, variables: Names) -> Result<(), NoMemory>
        requires { MayAdd self.old name variables }
        ensures ok { OnOk result
            (self.new ≡ with_method self.old (record { name = name; variables = variables })) }
        ensures err { OnErr result (self.new ≡ self.old) }
    {
        // its clause says what is known of a name
        let _bytes = name.items();
        self.methods.reserve(1)?;
        add_pairs(&mut self.pairs)?;
        self.methods.push_reserved(Method { name, variables });
        Ok(())
    }

    /// Its name. It takes no memory.
    pub fn name(&self) -> &Name
        ensures { result.now ≡ self.now.name }
    {
        &self.name
    }

    /// Its methods so far. It takes no memory.
    pub fn methods(&self) -> &[Method]
        ensures value { result.now ≡ self.now.methods }
        ensures valid { IsDraft self.now }
    {
        self.methods.as_slice()
    }

    /// The formula of two methods, or of one with itself, by their numbers, where it is set: `first` is at most `second`. It takes
    /// no memory.
    pub fn formula(&self, first: u8, second: u8) -> Option<&Formula>
        requires { (first ≤ second) × (second < length self.now.methods) }
        ensures { option_map
            (λ formula. tree_of formula.now) result ≡ formula_at self.now first second }
    {
        self.pairs[place(first, second)].as_ref()
    }

    // The formula of two methods in the draft where this formula of `first` and `second` is set too.
    fn formula_with<'a>(
        &'a self,
        first: u8,
        second: u8,
        formula: &'a Formula,
        low: u8,
        high: u8,
    ) -> Option<&'a Formula>
        requires pair { (first ≤ second) × (second < length self.now.methods) }
        requires asked { (low ≤ high) × (high < length self.now.methods) }
        requires few { nodes (tree_of formula.now) ≤ MOST_TOKENS }
        ensures value { option_map (λ part. tree_of part.now) result ≡ formula_at
            (with_pair self.now first second (tree_of formula.now)) low high }
        ensures few { IfSome result (λ part. nodes (tree_of part.now) ≤ MOST_TOKENS) }
    {
        // its clause says what is known of a draft
        let _methods = self.methods();
        if low == first && high == second {
            return Some(formula);
        }
        self.formula(low, high)
    }

    // Adds what the formula of a method and another says of it, in the draft where this formula is set too. Is there room for it?
    fn gather<'a>(
        &'a self,
        seen: &mut Relations<'a>,
        first: u8,
        second: u8,
        formula: &'a Formula,
        method: u8,
        other: u8,
    ) -> bool
        requires counted { RelationsAreCounted seen.old }
        requires known { (first ≤ second) × (second < length self.now.methods)
            × (method < length self.now.methods) × (other < length self.now.methods) }
        requires few { nodes (tree_of formula.now) ≤ MOST_TOKENS }
        ensures { Gathers (kept_relations seen.old)
            (part_of (with_pair self.now first second (tree_of formula.now)) method other)
            (with_room result seen.new) }
    {
        let (low, high) = (method.min(other), method.max(other));
        match self.formula_with(first, second, formula, low, high) {
            Some(part) => seen.add_all(part, method, low, high),
            None => true,
        }
    }

    /// Has the method with this number at most 5 distinct relations on its side alone, with this formula for two methods in place
    /// of one that is set? These go by their numbers: `first` is at most `second`. The formula has at most 512 nodes, so the walk over it
    /// is as deep at most. It takes no memory.
    pub fn has_room<'a>(&'a self, first: u8, second: u8, formula: &'a Formula, method: u8) -> bool
        requires known { (first ≤ second) × (second < length self.now.methods)
            × (method < length self.now.methods) }
        requires few { nodes (tree_of formula.now) ≤ MOST_TOKENS }
        ensures { IsTrue result
            ↔ (length (method_predicates
            (with_pair self.now first second (tree_of formula.now)) method) ≤ MOST_PREDICATES) }
    {
        let mut seen = Relations::none();
        let count = self.methods().len() as u8;
        for other in 0..count {
            if !self.gather(&mut seen, first, second, formula, method, other) {
                return false;
            }
        }
        true
    }

    /// Sets the formula of two methods, or of one with itself, by their numbers: `first` is at most `second`, and the pair isn't
    /// set yet. Its slots are those of the methods, each of its relations on one side has one, its constants are values, it is in the
    /// fragment, and it has at most 64 nodes and 32 levels. With it neither method has more than 5 distinct relations on its side
    /// alone. It takes no memory.
    pub fn pair(&mut self, first: u8, second: u8, formula: Formula) -> Result<(), NoMemory>
        requires { MayPair self.old first second (tree_of formula) }
        ensures ok { IsOk result }
        ensures value { self.new ≡ with_pair self.old first second (tree_of formula) }
    {
        self.pairs[place(first, second)] = Some(formula);
        Ok(())
    }

    /// The kind that was drafted. Each pair of its methods is set. It takes no memory.
    pub fn finish(self) -> KindSpec
        requires { IsWhole self }
        ensures { result ≡ self }
    {
        KindSpec {
            name: self.name,
            methods: self.methods,
            pairs: self.pairs,
        }
    }
}

/// The law of variables: the tests of a variable, of a name among others, and of names that differ find exactly these.
pub fn law_of_variables()
    ensures variable { (bytes : List ℕ) → (IsTrue (is_variable bytes) ↔ IsVariable bytes) }
    ensures among { (name : List ℕ) (names : List (List ℕ)) →
        (IsTrue (is_one_of name names) ↔ Contains names name) }
    ensures different { (names : List (List ℕ)) →
        (IsTrue (are_different names) ↔ AllPairs (λ x y. x ≢ y) names) }
{}

/// The law of commuting calls: calls commute in either order; those of different methods by their formula with the method
/// declared first on side 1, those of one method by its formula with either call there.
#[tactic(auto, using(crate::proofs::CommuteLemmas::symmetric, crate::proofs::CommuteLemmas::straight, crate::proofs::CommuteLemmas::behind, crate::proofs::CommuteLemmas::alike))]
pub fn law_of_commuting()
    ensures symmetric { (kind : SpecifiedKind) (m n : ℕ) (a b : List Value) →
        commutes kind m a n b ≡ commutes kind n b m a }
    ensures before { (kind : SpecifiedKind) (m n : ℕ) (a b : List Value) → m < n →
        commutes kind m a n b ≡ pair_holds kind m n a b }
    ensures behind { (kind : SpecifiedKind) (m n : ℕ) (a b : List Value) → n < m →
        commutes kind m a n b ≡ pair_holds kind n m b a }
    ensures alike { (kind : SpecifiedKind) (m : ℕ) (a b : List Value) →
        commutes kind m a m b ≡ (pair_holds kind m m a b && pair_holds kind m m b a) }
{}

/// The law of predicates: the relations that a pair's formula has on one side are among the predicates of
/// that side's method.
#[tactic(auto, using(crate::proofs::ListedLemmas::pair_listed))]
pub fn law_of_predicates()
    ensures { (kind : SpecifiedKind) (m n : ℕ) (f : Tree) → IsKind kind → m ≤ n
        → n < length kind.methods → formula_at kind m n ≡ Some f
        → AreListed f (method_predicates kind m) (method_predicates kind n) }
{}

/// The law of equal kinds: two of one name, with the same methods and the same formula for each pair of them, are equal.
#[tactic(auto, using(crate::proofs::PairLemmas::equal_drafts))]
pub fn law_of_equal_kinds()
    ensures { (kind other : SpecifiedKind) → IsDraft kind → IsDraft other → kind.name ≡ other.name
        → kind.methods ≡ other.methods
        → ((first second : ℕ) → first ≤ second → second < length kind.methods →
        formula_at kind first second ≡ formula_at other first second) → kind ≡ other }
{}

/// The law of pairs: the test of a pair's formula, which computes on a kind that is written out, finds only those that may be set.
pub fn law_of_pairs()
    ensures { (kind : SpecifiedKind) (first second : ℕ) (formula : Tree) →
        IsTrue (may_pair kind first second formula) → MayPair kind first second formula }
{}
