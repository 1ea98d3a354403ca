//! Formulas of one method's calls, put on a side.
ghost use Rattle.std.specs.Prelude.{◌≡◌, ℕ, false, List, None, IfOk};
ghost use Rattle.rd_base.specs.declared.values.Value.{Value};
ghost use Rattle.rd_ecl.specs.declared.formulas.Side.{Side};
ghost use Rattle.rd_ecl.specs.declared.formulas.Side.TheVariants.{First, Second};
ghost use Rattle.rd_ecl.specs.Formulas.{AreValues, Fits, InFragment, IsSided, Tree, atom, both, crosses_sides, either, first_offence, has_slots, holds, levels, negation, nodes, post_order, slots_of, tree_of};
ghost use Rattle.rd_ecl.specs.Sides.{holds_of, on_side};

use crate::formulas::{Formula, Rel, Side, Term};
use rd_base::NoMemory;
use std::alloc::Global;

fn copy_term(alloc: Global, term: &Term) -> Result<Term, NoMemory>
    ensures { IfOk result (λ copy. copy ≡ term.now) }
{
    Ok(match term {
        Term::Slot(slot) => Term::Slot(*slot),
        Term::Const(value) => Term::Const(value.copy(alloc)?),
    })
}

// A relation of one side, on this one.
#[inline(never)]
fn relation_on(
    alloc: Global,
    side: Side,
    rel: Rel,
    left: &Term,
    right: &Term,
) -> Result<Box<Formula>, NoMemory>
    ensures { IfOk result
        (λ formula. tree_of formula.value ≡ atom side rel left.now right.now) }
{
    let left = copy_term(alloc, left)?;
    let right = copy_term(alloc, right)?;
    Ok(Box::new(
        alloc,
        Formula::Atom {
            side,
            rel,
            left,
            right,
        },
    )?)
}

#[inline(never)]
fn leaf(alloc: Global, formula: Formula) -> Result<Box<Formula>, NoMemory>
    ensures { IfOk result (λ boxed. tree_of boxed.value ≡ tree_of formula) }
{
    Ok(Box::new(alloc, formula)?)
}

#[inline(never)]
fn negated(alloc: Global, inner: Box<Formula>) -> Result<Box<Formula>, NoMemory>
    ensures { IfOk result (λ formula. tree_of formula.value ≡ negation (tree_of inner.value)) }
{
    Ok(Box::new(alloc, Formula::Not(inner))?)
}

#[inline(never)]
fn both(alloc: Global, left: Box<Formula>, right: Box<Formula>) -> Result<Box<Formula>, NoMemory>
    ensures { IfOk result
        (λ formula. tree_of formula.value ≡ both (tree_of left.value) (tree_of right.value)) }
{
    Ok(Box::new(alloc, Formula::And(left, right))?)
}

#[inline(never)]
fn either(alloc: Global, left: Box<Formula>, right: Box<Formula>) -> Result<Box<Formula>, NoMemory>
    ensures { IfOk result
        (λ formula. tree_of formula.value ≡ either (tree_of left.value) (tree_of right.value)) }
{
    Ok(Box::new(alloc, Formula::Or(left, right))?)
}

// The formula on this side. What makes each part is kept out of line, so the recursion takes little stack.
fn boxed_on_side(alloc: Global, formula: &Formula, side: Side) -> Result<Box<Formula>, NoMemory>
    ensures { IfOk result (λ boxed. tree_of boxed.value ≡ on_side side (tree_of formula.now)) }
{
    match formula {
        Formula::True => leaf(alloc, Formula::True),
        Formula::False => leaf(alloc, Formula::False),
        Formula::Atom {
            rel,
            left,
            right,
            ..
        } => relation_on(alloc, side, *rel, left, right),
        Formula::Cross { first, second } => leaf(
            alloc,
            Formula::Cross {
                first: *first,
                second: *second,
            },
        ),
        Formula::Mixed {
            rel,
            flipped,
            first,
            second,
        } => leaf(
            alloc,
            Formula::Mixed {
                rel: *rel,
                flipped: *flipped,
                first: *first,
                second: *second,
            },
        ),
        Formula::Not(inner) => {
            let inner = boxed_on_side(alloc, inner, side)?;
            negated(alloc, inner)
        }
        Formula::And(left, right) => {
            let left = boxed_on_side(alloc, left, side)?;
            let right = boxed_on_side(alloc, right, side)?;
            both(alloc, left, right)
        }
        Formula::Or(left, right) => {
            let left = boxed_on_side(alloc, left, side)?;
            let right = boxed_on_side(alloc, right, side)?;
            either(alloc, left, right)
        }
    }
}

impl Formula {
    /// The formula with each relation on this side. It has none between the sides.
    pub fn on_side(&self, alloc: Global, side: Side) -> Result<Formula, NoMemory>
        requires { crosses_sides (tree_of self.now) ≡ false }
        ensures { IfOk result (λ sided. tree_of sided ≡ on_side side (tree_of self.now)) }
    {
        let boxed = boxed_on_side(alloc, self, side)?;
        Ok(Box::into_inner(boxed))
    }
}

/// The law of sides: a formula of the calls of one method, put on a side, says of two calls what it says of the call of that side. It is
/// as large as before, in the fragment, and speaks of the slots of that side alone.
#[tactic(auto, using(crate::proofs::SideLemmas::holds_there, crate::proofs::SideLemmas::as_many, crate::proofs::SideLemmas::as_deep, crate::proofs::SideLemmas::sided_there, crate::proofs::SideLemmas::inside_there, crate::proofs::SideLemmas::none_there, crate::proofs::SideLemmas::crosses_there, crate::proofs::SideLemmas::slots_there, crate::proofs::SideLemmas::values_there))]
pub fn law_of_sides()
    ensures holds { (side : Side) (f : Tree) (a b : List Value) → crosses_sides f ≡ false →
        holds (on_side side f) a b ≡ holds_of f (slots_of side a b) }
    ensures nodes { (side : Side) (f : Tree) → nodes (on_side side f) ≡ nodes f }
    ensures levels { (side : Side) (f : Tree) → levels (on_side side f) ≡ levels f }
    ensures crosses { (side : Side) (f : Tree) → crosses_sides (on_side side f) ≡ crosses_sides f }
    ensures sided { (side : Side) (f : Tree) → crosses_sides f ≡ false → IsSided (on_side side f) }
    ensures fragment { (side : Side) (f : Tree) → crosses_sides f ≡ false → InFragment (on_side side f) }
    ensures offends { (side : Side) (f : Tree) → crosses_sides f ≡ false →
        first_offence 0 (post_order (on_side side f)) ≡ None }
    ensures fits { (f : Tree) (m n : ℕ) → crosses_sides f ≡ false → Fits f m m →
        Fits (on_side First f) m n × Fits (on_side Second f) n m }
    ensures slots { (side : Side) (f : Tree) → has_slots (on_side side f) ≡ has_slots f }
    ensures values { (side : Side) (f : Tree) → AreValues f → AreValues (on_side side f) }
{}
