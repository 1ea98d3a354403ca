//! The formula of what was read, and the tokens of its nodes.
ghost use Rattle.std.specs.Prelude.{◌≡◌, ◌<◌, ◌≤◌, ◌^◌, ℕ, length, IfOk, IfSome, IfNone, Some, None, slice_get};
ghost use Rattle.rd_ecl.specs.Formulas.{both, either, negation, tree_of, truth};
ghost use Rattle.rd_formulas.specs.Meaning.{node_tokens};
ghost use Rattle.rd_formulas.specs.Scope.{HasTerms, IsReady, IsScope, Outlines};
ghost use Rattle.rd_grammar.specs.Grammar.{relation, parsed_tree};
ghost use Rattle.rd_grammar.specs.Numbers.{named_by};

use crate::scope::Scope;
use crate::terms::{meaning, related};
use rd_base::{MOST_TOKENS, NoMemory};
use rd_ecl::Formula;
use rd_grammar::{Leaf, Parsed, Sign};
use std::alloc::Global;

// A relation of two terms, by their tokens' numbers.
#[tactic(auto, using(crate::proofs::BuildingLemmas::related_some))]
fn relation(
    alloc: Global,
    scope: &Scope,
    left: u32,
    sign: Sign,
    token: u32,
    right: u32,
) -> Result<Formula, NoMemory>
    requires { IsScope scope.now × HasTerms scope.now (relation left sign token right)
        × IsReady scope.now (relation left sign token right) }
    ensures { IfOk result
        (λ formula. Outlines scope.now (relation left sign token right)
        (tree_of formula)) }
{
    let left = meaning(alloc, scope, left)?;
    let right = meaning(alloc, scope, right)?;
    related(alloc, sign, left, right)
}

// The parts of a formula in memory of their own. None of these stands inside `boxed`, so that its frame stays small: it recurses.

#[inline(never)]
fn truth(alloc: Global, value: bool) -> Result<Box<Formula>, NoMemory>
    ensures { IfOk result (λ formula. tree_of formula.value ≡ truth value) }
{
    let formula = if value { Formula::True } else { Formula::False };
    Ok(Box::new(alloc, formula)?)
}

#[inline(never)]
fn boxed_relation(
    alloc: Global,
    scope: &Scope,
    left: u32,
    sign: Sign,
    token: u32,
    right: u32,
) -> Result<Box<Formula>, NoMemory>
    requires { IsScope scope.now × HasTerms scope.now (relation left sign token right)
        × IsReady scope.now (relation left sign token right) }
    ensures { IfOk result
        (λ formula. Outlines scope.now (relation left sign token right)
        (tree_of formula.value)) }
{
    let formula = relation(alloc, scope, left, sign, token, right)?;
    Ok(Box::new(alloc, formula)?)
}

#[inline(never)]
pub(crate) fn negated(alloc: Global, inner: Box<Formula>) -> Result<Box<Formula>, NoMemory>
    ensures { IfOk result (λ formula. tree_of formula.value ≡ negation (tree_of inner.value)) }
{
    Ok(Box::new(alloc, Formula::Not(inner))?)
}

#[inline(never)]
pub(crate) fn both(
    alloc: Global,
    left: Box<Formula>,
    right: Box<Formula>,
) -> Result<Box<Formula>, NoMemory>
    ensures { IfOk result
        (λ formula. tree_of formula.value ≡ both (tree_of left.value) (tree_of right.value)) }
{
    Ok(Box::new(alloc, Formula::And(left, right))?)
}

#[inline(never)]
pub(crate) fn either(
    alloc: Global,
    left: Box<Formula>,
    right: Box<Formula>,
) -> Result<Box<Formula>, NoMemory>
    ensures { IfOk result
        (λ formula. tree_of formula.value ≡ either (tree_of left.value) (tree_of right.value)) }
{
    Ok(Box::new(alloc, Formula::Or(left, right))?)
}

// The formula of what was read, in memory of its own, with `true` where a name is used.
fn boxed(alloc: Global, scope: &Scope, parsed: &Parsed) -> Result<Box<Formula>, NoMemory>
    requires ready { IsScope scope.now × HasTerms scope.now (parsed_tree parsed.now)
        × IsReady scope.now (parsed_tree parsed.now) }
    requires few { length (named_by (parsed_tree parsed.now)) ≤ MOST_TOKENS }
    ensures { IfOk result
        (λ formula. Outlines scope.now (parsed_tree parsed.now) (tree_of formula.value)) }
{
    match parsed {
        Parsed::Leaf { leaf, .. } => match leaf {
            Leaf::Truth(value) => truth(alloc, *value),
            Leaf::Name => truth(alloc, true),
        },
        Parsed::Relation {
            left,
            sign,
            token,
            right,
        } => boxed_relation(alloc, scope, *left, *sign, *token, *right),
        Parsed::Not { inner, .. } => {
            let inner = boxed(alloc, scope, inner)?;
            negated(alloc, inner)
        }
        Parsed::And { left, right, .. } => {
            let left = boxed(alloc, scope, left)?;
            let right = boxed(alloc, scope, right)?;
            both(alloc, left, right)
        }
        Parsed::Or { left, right, .. } => {
            let left = boxed(alloc, scope, left)?;
            let right = boxed(alloc, scope, right)?;
            either(alloc, left, right)
        }
    }
}

/// The formula of what was read, of at most 512 tokens, with `true` where a name is used.
pub fn build(alloc: Global, scope: &Scope, parsed: &Parsed) -> Result<Formula, NoMemory>
    requires ready { IsScope scope.now × HasTerms scope.now (parsed_tree parsed.now)
        × IsReady scope.now (parsed_tree parsed.now) }
    requires few { length (named_by (parsed_tree parsed.now)) ≤ MOST_TOKENS }
    ensures { IfOk result
        (λ formula. Outlines scope.now (parsed_tree parsed.now) (tree_of formula)) }
{
    let formula = boxed(alloc, scope, parsed)?;
    Ok(Box::into_inner(formula))
}
