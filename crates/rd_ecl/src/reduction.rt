//! Formulas whose relations on one side have truth values.
ghost use Rattle.std.specs.Prelude.{◌≡◌, ◌==◌, ◌≤◌, ◌<◌, ℕ, List, All, length, IfOk, IfSome};
ghost use Rattle.std.specs.Int.{bit_at};
ghost use Rattle.rd_ecl.specs.declared.formulas.Predicate.{Predicate};
ghost use Rattle.rd_ecl.specs.declared.reduction.Reduced.TheVariants.{Pairs};
ghost use Rattle.rd_ecl.specs.Formulas.{Fits, InFragment, Tree, same_predicate, same_rel, same_term, tree_of};
ghost use Rattle.rd_ecl.specs.Reduction.{AreListed, AreRising, Reduces, constant, flipped, of_both, of_either, place_in, predicate_of, reduce_of, truth_in};

use crate::formulas::{Formula, Predicate, Rel, Side, Term};
use crate::predicates::Predicates;
use crate::slot_pairs::SlotPairs;
use rd_base::NoMemory;
use std::alloc::Global;

/// The truth values of a method's predicates, the first in the lowest bit.
#[derive(Clone, Copy, PartialEq, Eq)]
pub struct Valuation {
    pub bits: u8,
}

/// A formula whose relations on one side have truth values.
#[derive(Drop)]
pub enum Reduced {
    True,
    False,
    /// each of these pairs of slots differs
    Pairs(SlotPairs),
}

impl Valuation {
    // The truth value of the predicate with this number.
    fn bit(self, number: usize) -> bool
        requires { number < 8 }
        ensures { result ≡ (bit_at self.bits number == 1) }
    {
        (self.bits >> number) & 1 == 1
    }
}

fn is_same_rel(left: Rel, right: Rel) -> bool
    ensures { result ≡ same_rel left right }
{
    left == right
}

fn is_same_term(left: &Term, right: &Term) -> bool
    ensures { result ≡ same_term left.now right.now }
{
    left == right
}

// Is this the relation?
fn is_same(known: &Predicate, rel: Rel, left: &Term, right: &Term) -> bool
    ensures { result ≡ same_predicate (predicate_of rel left.now right.now) known.now }
{
    is_same_rel(rel, known.rel)
        && (is_same_term(left, &known.left) && is_same_term(right, &known.right))
}

// Where a relation stands among these.
fn place(predicates: &[Predicate], rel: Rel, left: &Term, right: &Term) -> Option<usize>
    ensures value { result ≡ place_in predicates.now (predicate_of rel left.now right.now) }
    ensures bound { IfSome result (λ i. i < length predicates.now) }
{
    predicates
        .iter()
        .position(|known| is_same(known, rel, left, right))
}

fn truth(predicates: &[Predicate], v: Valuation, rel: Rel, left: &Term, right: &Term) -> bool
    requires { length predicates.now ≤ 8 }
    ensures { result ≡ truth_in predicates.now v.bits (predicate_of rel left.now right.now) }
{
    match place(predicates, rel, left, right) {
        Some(number) => v.bit(number),
        None => false,
    }
}

fn constant(value: bool) -> Reduced
    ensures { result ≡ constant value }
{
    if value { Reduced::True } else { Reduced::False }
}

fn flipped(part: Reduced) -> Reduced
    ensures { result ≡ flipped part }
{
    match part {
        Reduced::True => Reduced::False,
        Reduced::False => Reduced::True,
        Reduced::Pairs(pairs) => Reduced::Pairs(pairs),
    }
}

fn of_both(x: Reduced, y: Reduced) -> Result<Reduced, NoMemory>
    ensures { IfOk result (λ r. r ≡ of_both x y) }
{
    match (x, y) {
        (Reduced::False, _) => Ok(Reduced::False),
        (Reduced::True, y) => Ok(y),
        (Reduced::Pairs(_), Reduced::False) => Ok(Reduced::False),
        (Reduced::Pairs(pairs), Reduced::True) => Ok(Reduced::Pairs(pairs)),
        (Reduced::Pairs(pairs), Reduced::Pairs(more)) => Ok(Reduced::Pairs(pairs.union(&more)?)),
    }
}

fn of_either(x: Reduced, y: Reduced) -> Result<Reduced, NoMemory>
    ensures { IfOk result (λ r. r ≡ of_either x y) }
{
    match (x, y) {
        (Reduced::True, _) => Ok(Reduced::True),
        (Reduced::False, y) => Ok(y),
        (Reduced::Pairs(_), Reduced::True) => Ok(Reduced::True),
        (Reduced::Pairs(pairs), Reduced::False) => Ok(Reduced::Pairs(pairs)),
        (Reduced::Pairs(pairs), Reduced::Pairs(more)) => Ok(Reduced::Pairs(pairs.union(&more)?)),
    }
}

/// The formula where the predicates of side 1 and of side 2 have these truth values. It is in the fragment, and its relations on one side are
/// among them.
#[tactic(auto, using(crate::proofs::ReductionLemmas::reduces_ok))]
pub fn reduce(
    alloc: Global,
    formula: &Formula,
    first: &Predicates,
    v: Valuation,
    second: &Predicates,
    w: Valuation,
) -> Result<Reduced, NoMemory>
    requires few { (length first.now ≤ 8) × (length second.now ≤ 8) }
    requires inside { InFragment (tree_of formula.now) }
    requires listed { AreListed (tree_of formula.now) first.now second.now }
    ensures value { IfOk result (λ r. r ≡ reduce_of (tree_of formula.now) first.now v.bits second.now w.bits) }
    ensures reduces { IfOk result (Reduces (tree_of formula.now) first.now v.bits second.now w.bits) }
    ensures rising { IfOk result AreRising }
{
    reduce_part(alloc, formula, first.items(), v, second.items(), w)
}

fn reduce_part(
    alloc: Global,
    formula: &Formula,
    first: &[Predicate],
    v: Valuation,
    second: &[Predicate],
    w: Valuation,
) -> Result<Reduced, NoMemory>
    requires few { (length first.now ≤ 8) × (length second.now ≤ 8) }
    ensures { IfOk result (λ r. r ≡ reduce_of (tree_of formula.now) first.now v.bits second.now w.bits) }
{
    match formula {
        Formula::True => Ok(Reduced::True),
        Formula::False => Ok(Reduced::False),
        Formula::Atom {
            side,
            rel,
            left,
            right,
        } => match side {
            Side::First => Ok(constant(truth(first, v, *rel, left, right))),
            Side::Second => Ok(constant(truth(second, w, *rel, left, right))),
        },
        Formula::Cross { first, second } => {
            Ok(Reduced::Pairs(SlotPairs::one(alloc, *first, *second)?))
        }
        Formula::Mixed { .. } => Ok(Reduced::False),
        Formula::Not(part) => Ok(flipped(reduce_part(alloc, part, first, v, second, w)?)),
        Formula::And(left, right) => {
            let x = reduce_part(alloc, left, first, v, second, w)?;
            let y = reduce_part(alloc, right, first, v, second, w)?;
            of_both(x, y)
        }
        Formula::Or(left, right) => {
            let x = reduce_part(alloc, left, first, v, second, w)?;
            let y = reduce_part(alloc, right, first, v, second, w)?;
            of_either(x, y)
        }
    }
}

/// The law of reductions: the reduced formula says what the formula says, which is in the fragment and whose
/// relations on one side are among the predicates. Where pairs are left, there is one, they rise, and their
/// slots are those of the methods.
#[tactic(auto, using(crate::proofs::ReductionLemmas::reduces, crate::proofs::ReducedPairLemmas::reduced_rises, crate::proofs::ReducedPairLemmas::reduced_fits))]
pub fn law_of_reductions()
    ensures reduces { (f : Tree) (p : List Predicate) (v : ℕ) (q : List Predicate) (w : ℕ) →
        InFragment f → AreListed f p q → Reduces f p v q w (reduce_of f p v q w) }
    ensures rising { (f : Tree) (p : List Predicate) (v : ℕ) (q : List Predicate) (w : ℕ) →
        AreRising (reduce_of f p v q w) }
    ensures fits { (f : Tree) (p : List Predicate) (v : ℕ) (q : List Predicate) (w : ℕ)
        (m n : ℕ) (pairs : List (ℕ × ℕ)) → Fits f m n → reduce_of f p v q w ≡ Pairs pairs →
        All (λ pair. (pair.0 < m) × (pair.1 < n)) pairs }
{}
