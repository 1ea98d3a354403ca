//! The distinct relations of a method on its side alone.
ghost use Rattle.std.specs.Prelude.{◌≡◌, ◌≤◌, [], ◌∷◌, IfOk};
ghost use Rattle.std.specs.List.{list_any};
ghost use Rattle.rd_ecl.specs.Formulas.{nodes, tree_of, predicates_of, same_predicate};
ghost use Rattle.rd_ecl.specs.Relations.{Gathers, RelationsAreCounted, kept_relations, kept_predicate, with_room};

use crate::formulas::{Formula, Predicate, Rel, Side, Term};
use crate::predicates::Predicates;
use rd_base::{MOST_PREDICATES, MOST_TOKENS, NoMemory};
use std::alloc::Global;

// A relation on one side, without its side, as a formula has it.
#[derive(Clone, Copy)]
struct Relation<'a> {
    rel: Rel,
    left: &'a Term,
    right: &'a Term,
}

// Relations, each once: at most 5.
#[derive(Clone, Copy)]
pub(crate) struct Relations<'a> {
    places: [Option<Relation<'a>>; MOST_PREDICATES],
    // the first places have one
    taken: usize,
}

// A copy of a term.
fn copied_term(alloc: Global, term: &Term) -> Result<Term, NoMemory>
    ensures { IfOk result (λ copy. copy ≡ term.now) }
{
    match term {
        Term::Slot(slot) => Ok(Term::Slot(*slot)),
        Term::Const(value) => Ok(Term::Const(value.copy(alloc)?)),
    }
}

// A copy of a relation.
fn copied_relation(alloc: Global, relation: &Relation<'_>) -> Result<Predicate, NoMemory>
    ensures { IfOk result (λ copy. copy ≡ kept_predicate relation.now) }
{
    let left = copied_term(alloc, relation.left)?;
    let right = copied_term(alloc, relation.right)?;
    Ok(Predicate {
        rel: relation.rel,
        left,
        right,
    })
}

// Are they the same?
fn are_same(a: &Relation<'_>, b: &Relation<'_>) -> bool
    ensures { result ≡ same_predicate (kept_predicate a.now) (kept_predicate b.now) }
{
    a.rel == b.rel && (a.left == b.left && a.right == b.right)
}

impl<'a> Relations<'a> {
    // None of them.
    pub(crate) fn none() -> Relations<'a>
        ensures count { RelationsAreCounted result }
        ensures value { kept_relations result ≡ [] }
    {
        Relations {
            places: [None; MOST_PREDICATES],
            taken: 0,
        }
    }

    // Is this among them?
    fn has(&self, relation: &Relation<'_>) -> bool
        requires { RelationsAreCounted self.now }
        ensures { result ≡ list_any (same_predicate (kept_predicate relation.now)) (kept_relations self.now) }
    {
        for place in &self.places[..self.taken] {
            if let Some(known) = place {
                if are_same(relation, known) {
                    return true;
                }
            }
        }
        false
    }

    // A copy of them.
    pub(crate) fn to_predicates(&self, alloc: Global) -> Result<Predicates, NoMemory>
        requires { RelationsAreCounted self.now }
        ensures { IfOk result (λ copies. copies ≡ kept_relations self.now) }
    {
        let mut copies = Predicates::new(alloc);
        for place in &self.places[..self.taken] {
            if let Some(relation) = place {
                copies.push(copied_relation(alloc, relation)?)?;
            }
        }
        Ok(copies)
    }

    // Adds this one, unless it is there. Is there room for it?
    fn add(&mut self, relation: Relation<'a>) -> bool
        requires { RelationsAreCounted self.old }
        ensures { Gathers (kept_relations self.old) (kept_predicate relation.entry ∷ [])
            (with_room result self.new) }
    {
        if self.has(&relation) {
            return true;
        }
        let taken = self.taken;
        if taken == MOST_PREDICATES {
            return false;
        }
        let places = &mut self.places[..];
        places[taken] = Some(relation);
        self.taken = taken + 1;
        true
    }

    // Adds those of the method in a formula of two methods, from left to right. Is there room for them?
    // The walk is as deep as the formula: it has at most 512 nodes.
    pub(crate) fn add_all(
        &mut self,
        formula: &'a Formula,
        method: u8,
        first: u8,
        second: u8,
    ) -> bool
        requires counted { RelationsAreCounted self.old }
        requires few { nodes (tree_of formula.now) ≤ MOST_TOKENS }
        ensures { Gathers (kept_relations self.old)
            (predicates_of method first second (tree_of formula.now)) (with_room result self.new) }
    {
        match formula {
            Formula::Atom {
                side,
                rel,
                left,
                right,
            } => {
                let own = match side {
                    Side::First => first,
                    Side::Second => second,
                };
                if own == method {
                    self.add(Relation {
                        rel: *rel,
                        left,
                        right,
                    })
                } else {
                    true
                }
            }
            Formula::Not(inner) => self.add_all(inner, method, first, second),
            Formula::And(left, right) | Formula::Or(left, right) => {
                if self.add_all(left, method, first, second) {
                    self.add_all(right, method, first, second)
                } else {
                    false
                }
            }
            _ => true,
        }
    }
}
