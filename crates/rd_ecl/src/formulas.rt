//! Formulas: when two calls of a pair of methods commute.
ghost use Rattle.std.specs.Prelude.{◌≡◌, ◌+◌, ◌≤◌, ◌<◌, ◌^◌, ◌&&◌, ◌↔◌, ℕ, List, IfNone, IsNone, IsTrue, IsFalse, length, Option, Some, None, option_copied, if◌then◌else◌, slice_get};
ghost use Rattle.rd_base.specs.declared.values.Value.{Value};
ghost use Rattle.rd_ecl.specs.declared.formulas.Predicate.{Predicate};
ghost use Rattle.rd_ecl.specs.declared.formulas.Rel.{Rel};
ghost use Rattle.rd_ecl.specs.declared.formulas.Rel.TheVariants.{Lt, Le};
ghost use Rattle.rd_ecl.specs.declared.formulas.Reason.TheVariants.{NotOverCross, OrOfCross};
ghost use Rattle.rd_ecl.specs.Reduction.{predicate_holds};
ghost use Rattle.rd_ecl.specs.Formulas.{Tree, tree_of, holds, Fits, post_order, first_offence, nodes, levels, InFragment, FitsTerm, term_value, relates, relate, slots_of, crosses_sides, same_predicate, same_value, offence, or_later, earlier_of};

use rd_base::{MOST_TOKENS, Value};

/// The two sides of a formula: the calls that it speaks of.
#[derive(Clone, Copy, Debug, PartialEq, Eq)]
pub enum Side {
    First,
    Second,
}

/// A relation of two terms.
#[derive(Clone, Copy, PartialEq, Eq)]
pub enum Rel {
    /// equal values
    Eq,
    /// the left integer is below the right one; false unless both are integers
    Lt,
    /// the left integer is at most the right one; false unless both are integers
    Le,
}

/// A term of a relation.
#[derive(Drop, PartialEq, Eq)]
pub enum Term {
    /// a slot of the relation's side, by its number
    Slot(u8),
    Const(Value),
}

/// A relation on one side, without its side.
#[derive(Drop, PartialEq, Eq)]
pub struct Predicate {
    pub rel: Rel,
    pub left: Term,
    pub right: Term,
}

/// When two calls commute: a condition on the slots of both.
#[derive(Drop)]
pub enum Formula {
    True,
    False,
    /// a relation on one side
    Atom {
        side: Side,
        rel: Rel,
        left: Term,
        right: Term,
    },
    /// slot `first` of side 1 differs from slot `second` of side 2
    Cross {
        first: u8,
        second: u8,
    },
    /// another relation between the sides; `flipped` says that side 2 stands on the left
    Mixed {
        rel: Rel,
        flipped: bool,
        first: u8,
        second: u8,
    },
    Not(Box<Formula>),
    And(Box<Formula>, Box<Formula>),
    Or(Box<Formula>, Box<Formula>),
}

/// Why a formula isn't in the fragment.
#[derive(Clone, Copy, Debug, PartialEq, Eq)]
pub enum Reason {
    /// the sides are related other than by `!=`
    CrossRelation,
    /// a `not` over a formula that relates the sides
    NotOverCross,
    /// an `or` of two formulas that both relate the sides
    OrOfCross,
}

/// The first node of a formula that isn't in the fragment.
#[derive(Clone, Copy, PartialEq, Eq)]
pub struct Outside {
    /// its number in post-order, from 0
    pub node: u32,
    pub reason: Reason,
}

// The value in a slot.
fn slot_value(slots: &[Value], slot: u8) -> &Value
    requires { slot < length slots.now }
    ensures { slice_get slots.now slot ≡ Some result.now }
{
    &slots[usize::from(slot)]
}

// The value of a term.
fn term_value<'a>(term: &'a Term, slots: &'a [Value]) -> &'a Value
    requires { FitsTerm term.now (length slots.now) }
    ensures { term_value term.now slots.now ≡ Some result.now }
{
    match term {
        Term::Slot(slot) => slot_value(slots, *slot),
        Term::Const(value) => value,
    }
}

// Is the left integer below the right one?
fn is_below(left: &Value, right: &Value) -> bool
    ensures { result ≡ relates Lt left.now right.now }
{
    match (left, right) {
        (Value::Int(left), Value::Int(right)) => left < right,
        _ => false,
    }
}

// Is the left integer at most the right one?
fn is_at_most(left: &Value, right: &Value) -> bool
    ensures { result ≡ relates Le left.now right.now }
{
    match (left, right) {
        (Value::Int(left), Value::Int(right)) => left <= right,
        _ => false,
    }
}

// Are the values in this relation?
fn are_related(rel: Rel, left: &Value, right: &Value) -> bool
    ensures { result ≡ relates rel left.now right.now }
{
    match rel {
        Rel::Eq => left == right,
        Rel::Lt => is_below(left, right),
        Rel::Le => is_at_most(left, right),
    }
}

// The slots of a side.
fn slots_of_side<'a>(side: Side, a: &'a [Value], b: &'a [Value]) -> &'a [Value]
    ensures { result.now ≡ slots_of side a.now b.now }
{
    match side {
        Side::First => a,
        Side::Second => b,
    }
}

// Does a relation between the sides hold?
fn holds_across(rel: Rel, flipped: bool, first: &Value, second: &Value) -> bool
    ensures straight { IsFalse flipped → result ≡ relates rel first.now second.now }
    ensures turned { IsTrue flipped → result ≡ relates rel second.now first.now }
{
    if flipped {
        are_related(rel, second, first)
    } else {
        are_related(rel, first, second)
    }
}

// What a walk over a formula has found.
#[derive(Clone, Copy)]
struct FormulaWalk {
    // the number of the next node in post-order
    next: u64,
    crosses: bool,
    first: Option<Outside>,
}

// The node with this number, if it offends.
fn offender(number: u64, reason: Option<Reason>) -> Option<Outside>
    requires { number < 2 ^ 32 }
    ensures { result ≡ or_later number reason None }
{
    match reason {
        Some(reason) => Some(Outside {
            node: number as u32,
            reason,
        }),
        None => None,
    }
}

// Why a `not` over this part offends.
fn not_over(part: &FormulaWalk) -> Option<Reason>
    ensures { result ≡ if part.now.crosses then Some NotOverCross else None }
{
    if part.crosses {
        Some(Reason::NotOverCross)
    } else {
        None
    }
}

// Why an `or` of these parts offends.
fn or_of(left: &FormulaWalk, right: &FormulaWalk) -> Option<Reason>
    ensures { result ≡ if left.now.crosses && right.now.crosses then Some OrOfCross else None }
{
    if left.crosses && right.crosses {
        Some(Reason::OrOfCross)
    } else {
        None
    }
}

// The first of two.
fn earlier(first: Option<Outside>, second: Option<Outside>) -> Option<Outside>
    ensures { result ≡ earlier_of first second }
{
    match first {
        Some(outside) => Some(outside),
        None => second,
    }
}

// A node without parts.
fn leaf(number: u64, crosses: bool, reason: Option<Reason>) -> FormulaWalk
    requires { number < 2 ^ 32 }
    ensures next { result.next ≡ number + 1 }
    ensures crosses { result.crosses ≡ crosses }
    ensures first { result.first ≡ or_later number reason None }
{
    FormulaWalk {
        next: number + 1,
        crosses,
        first: offender(number, reason),
    }
}

// The walk goes over the formula, whose first node has this number.
#[tactic(auto, using(crate::proofs::FragmentLemmas::first_of_two, crate::proofs::FragmentLemmas::first_or))]
fn walk(formula: &Formula, number: u64) -> FormulaWalk
    requires { number + nodes (tree_of formula.now) ≤ MOST_TOKENS }
    ensures next { result.next ≡ number + nodes (tree_of formula.now) }
    ensures crosses { result.crosses ≡ crosses_sides (tree_of formula.now) }
    ensures first { result.first ≡ first_offence number (post_order (tree_of formula.now)) }
{
    match formula {
        Formula::True | Formula::False | Formula::Atom { .. } => leaf(number, false, None),
        Formula::Cross { .. } => leaf(number, true, None),
        Formula::Mixed { .. } => leaf(number, true, Some(Reason::CrossRelation)),
        Formula::Not(inner) => {
            let part = walk(inner, number);
            FormulaWalk {
                next: part.next + 1,
                crosses: part.crosses,
                first: earlier(part.first, offender(part.next, not_over(&part))),
            }
        }
        Formula::And(left, right) => {
            let left = walk(left, number);
            let right = walk(right, left.next);
            FormulaWalk {
                next: right.next + 1,
                crosses: left.crosses || right.crosses,
                first: earlier(left.first, right.first),
            }
        }
        Formula::Or(left, right) => {
            let left = walk(left, number);
            let right = walk(right, left.next);
            let parts = earlier(left.first, right.first);
            let first = earlier(parts, offender(right.next, or_of(&left, &right)));
            FormulaWalk {
                next: right.next + 1,
                crosses: left.crosses || right.crosses,
                first,
            }
        }
    }
}

// The value of a term, where its slot is there.
fn value_in<'a>(term: &'a Term, slots: &'a [Value]) -> Option<&'a Value>
    ensures { option_copied result ≡ term_value term.now slots.now }
{
    match term {
        Term::Slot(slot) => slots.get(usize::from(*slot)),
        Term::Const(value) => Some(value),
    }
}

impl Predicate {
    /// Does it hold of a call with these slots? Not where it speaks of a slot that isn't there. It takes no memory.
    pub fn holds(&self, slots: &[Value]) -> bool
        ensures { result ≡ predicate_holds self.now slots.now }
    {
        match (value_in(&self.left, slots), value_in(&self.right, slots)) {
            (Some(left), Some(right)) => are_related(self.rel, left, right),
            _ => false,
        }
    }
}

impl Formula {
    /// Does it hold of two calls, with the slots `a` of side 1 and `b` of side 2? Its slots are among these, and it has at most 512
    /// nodes. It takes no memory.
    pub fn holds(&self, a: &[Value], b: &[Value]) -> bool
        requires fits { Fits (tree_of self.now) (length a.now) (length b.now) }
        requires few { nodes (tree_of self.now) ≤ MOST_TOKENS }
        ensures { result ≡ holds (tree_of self.now) a.now b.now }
    {
        match self {
            Formula::True => true,
            Formula::False => false,
            Formula::Atom {
                side,
                rel,
                left,
                right,
            } => {
                let slots = slots_of_side(*side, a, b);
                are_related(*rel, term_value(left, slots), term_value(right, slots))
            }
            Formula::Cross { first, second } => {
                !are_related(Rel::Eq, slot_value(a, *first), slot_value(b, *second))
            }
            Formula::Mixed {
                rel,
                flipped,
                first,
                second,
            } => holds_across(
                *rel,
                *flipped,
                slot_value(a, *first),
                slot_value(b, *second),
            ),
            Formula::Not(inner) => !inner.holds(a, b),
            Formula::And(left, right) => left.holds(a, b) && right.holds(a, b),
            Formula::Or(left, right) => left.holds(a, b) || right.holds(a, b),
        }
    }

    /// The first node in post-order that keeps it out of the fragment, and why; `None` exactly in the fragment. It has at most 512
    /// nodes, so the walk over it is as deep at most. It takes no memory.
    #[tactic(auto, using(crate::proofs::FragmentLemmas::fragment_is))]
    pub fn place_outside(&self) -> Option<Outside>
        requires { nodes (tree_of self.now) ≤ MOST_TOKENS }
        ensures first { result ≡ first_offence 0 (post_order (tree_of self.now)) }
        ensures fragment { IsNone result ↔ InFragment (tree_of self.now) }
    {
        walk(self, 0).first
    }

    /// How many nodes it has: at most 512. It takes no memory.
    pub fn nodes(&self) -> u32
        requires { nodes (tree_of self.now) ≤ MOST_TOKENS }
        ensures { result ≡ nodes (tree_of self.now) }
    {
        walk(self, 0).next as u32
    }

    /// How many levels it has: one more than its parts. It has at most 512 nodes. It takes no memory.
    #[tactic(auto, using(crate::proofs::FragmentLemmas::few_not, crate::proofs::FragmentLemmas::few_both, crate::proofs::FragmentLemmas::few_either))]
    pub fn levels(&self) -> u32
        requires { nodes (tree_of self.now) ≤ MOST_TOKENS }
        ensures { result ≡ levels (tree_of self.now) }
    {
        match self {
            Formula::Not(inner) => inner.levels() + 1,
            Formula::And(left, right) => left.levels().max(right.levels()) + 1,
            Formula::Or(left, right) => left.levels().max(right.levels()) + 1,
            _ => 1,
        }
    }
}

/// The law of the fragment: no node of a formula offends exactly where the grammar of the fragment derives the formula.
#[tactic(auto, using(crate::proofs::FragmentLemmas::none_is))]
pub fn law_of_fragment()
    ensures { (f : Tree) → (first_offence 0 (post_order f) ≡ None ↔ InFragment f) }
{}

/// The law of equal terms: the tests of equal values and of equal relations find exactly the equal ones.
#[tactic(auto, using(crate::proofs::EqualLemmas::value_decides, crate::proofs::EqualLemmas::predicate_decides))]
pub fn law_of_formulas()
    ensures values { (a b : Value) → IsTrue (same_value a b) ↔ (a ≡ b) }
    ensures predicates { (p q : Predicate) → IsTrue (same_predicate p q) ↔ (p ≡ q) }
{}
