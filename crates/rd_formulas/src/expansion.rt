//! The size of a formula with its names expanded, and the expansion.
ghost use Rattle.std.specs.Prelude.{◌≡◌, ◌≤◌, ◌<◌, ◌+◌, ◌*◌, ◌^◌, length, max, IfOk};
ghost use Rattle.rd_base.specs.declared.limits.TheConstants.{MOST_NODES};
ghost use Rattle.rd_ecl.specs.Formulas.{Tree, levels, nodes, tree_of};
ghost use Rattle.rd_formulas.specs.Scope.{HasTerms, IsNameAt, IsReady, IsScope, IsUnknownName, Outlines, SaysTree, NameStandsFor};
ghost use Rattle.rd_grammar.specs.Grammar.{leaf as leaf_tree, parsed_tree};
ghost use Rattle.rd_grammar.specs.Numbers.{named_by};

use crate::building::{both, either, negated};
use crate::scope::Scope;
use rd_base::{MOST_TOKENS, NoMemory};
use rd_ecl::Formula;
use rd_grammar::{Leaf, Parsed};
use rd_tokens::Dialect;
use std::alloc::Global;

/// How large a formula is.
#[derive(Clone, Copy, PartialEq, Eq)]
pub struct Size {
    /// its nodes
    pub nodes: u32,
    /// the nodes on its longest way down
    pub levels: u32,
}

// The size of a part that has no parts of its own in what was read.
fn size_of_leaf(scope: &Scope, leaf: Leaf, token: u32) -> Size
    requires { IsScope scope.now × HasTerms scope.now (leaf_tree leaf token) × IsReady scope.now (leaf_tree leaf token) }
    ensures size { (f : Tree) → SaysTree scope.now (leaf_tree leaf token) f →
        (nodes f ≡ result.nodes) × (levels f ≡ result.levels) }
    ensures few { (result.nodes ≤ MOST_NODES) × (result.levels ≤ MOST_NODES) }
{
    match leaf {
        Leaf::Truth(_) => Size {
            nodes: 1,
            levels: 1,
        },
        Leaf::Name => {
            let (_, formula) = scope.named(token).unwrap();
            Size {
                nodes: formula.nodes(),
                levels: formula.levels(),
            }
        }
    }
}

// The size of a `not` over a part.
fn size_over(part: Size) -> Size
    requires { (part.nodes < 2 ^ 31) × (part.levels < 2 ^ 31) }
    ensures { result ≡ record { nodes = part.nodes + 1; levels = part.levels + 1 } }
{
    Size {
        nodes: part.nodes + 1,
        levels: part.levels + 1,
    }
}

// The size of an `and` or an `or` of two parts.
fn size_of_two(left: Size, right: Size) -> Size
    requires { (left.nodes < 2 ^ 30) × (right.nodes < 2 ^ 30) × (left.levels < 2 ^ 31) × (right.levels < 2 ^ 31) }
    ensures { result ≡ record { nodes = left.nodes + right.nodes + 1; levels = max left.levels right.levels + 1 } }
{
    Size {
        nodes: left.nodes + right.nodes + 1,
        levels: left.levels.max(right.levels) + 1,
    }
}

/// How large a formula is once its names are expanded; nothing is expanded. The outline is the formula with `true` where a name is
/// used. It takes no memory.
pub fn expanded_size(scope: &Scope, parsed: &Parsed, outline: &Formula) -> Size
    requires ready { IsScope scope.now × HasTerms scope.now (parsed_tree parsed.now)
        × IsReady scope.now (parsed_tree parsed.now) }
    requires few { length (named_by (parsed_tree parsed.now)) ≤ MOST_TOKENS }
    requires outlines { Outlines scope.now (parsed_tree parsed.now) (tree_of outline.now) }
    ensures size { (f : Tree) → SaysTree scope.now (parsed_tree parsed.now) f →
        (nodes f ≡ result.nodes) × (levels f ≡ result.levels) }
    ensures few { (result.nodes ≤ MOST_NODES * length (named_by (parsed_tree parsed.now)))
        × (result.levels ≤ MOST_NODES * length (named_by (parsed_tree parsed.now))) }
{
    match parsed {
        Parsed::Leaf { leaf, token } => size_of_leaf(scope, *leaf, *token),
        Parsed::Relation { .. } => Size {
            nodes: outline.nodes(),
            levels: outline.levels(),
        },
        Parsed::Not { inner, .. } => match outline {
            Formula::Not(part) => size_over(expanded_size(scope, inner, part)),
            _ => unreachable!(),
        },
        Parsed::And { left, right, .. } => match outline {
            Formula::And(first, second) => size_of_two(
                expanded_size(scope, left, first),
                expanded_size(scope, right, second),
            ),
            _ => unreachable!(),
        },
        Parsed::Or { left, right, .. } => match outline {
            Formula::Or(first, second) => size_of_two(
                expanded_size(scope, left, first),
                expanded_size(scope, right, second),
            ),
            _ => unreachable!(),
        },
    }
}

// The formula that a used name stands for, in memory of its own.
#[inline(never)]
fn named(alloc: Global, scope: &Scope, token: u32) -> Result<Box<Formula>, NoMemory>
    requires { IsScope scope.now × IsNameAt scope.now token × (¬ (IsUnknownName scope.now token)) }
    ensures { IfOk result (λ formula. NameStandsFor scope.now token (tree_of formula.value)) }
{
    let (side, formula) = scope.named(token).unwrap();
    let formula = formula.on_side(alloc, side)?;
    Ok(Box::new(alloc, formula)?)
}

// The formula with its names expanded, by its outline, in memory of its own.
fn expanded(
    alloc: Global,
    scope: &Scope,
    parsed: &Parsed,
    outline: Box<Formula>,
) -> Result<Box<Formula>, NoMemory>
    requires ready { IsScope scope.now × HasTerms scope.now (parsed_tree parsed.now)
        × IsReady scope.now (parsed_tree parsed.now) }
    requires few { length (named_by (parsed_tree parsed.now)) ≤ MOST_TOKENS }
    requires outlines { Outlines scope.now (parsed_tree parsed.now) (tree_of outline.value) }
    ensures { IfOk result (λ formula. SaysTree scope.now (parsed_tree parsed.now) (tree_of formula.value)) }
{
    match parsed {
        Parsed::Leaf { leaf, token } => match leaf {
            Leaf::Truth(_) => Ok(outline),
            Leaf::Name => named(alloc, scope, *token),
        },
        Parsed::Relation { .. } => Ok(outline),
        Parsed::Not { inner, .. } => match Box::into_inner(outline) {
            Formula::Not(part) => {
                let part = expanded(alloc, scope, inner, part)?;
                negated(alloc, part)
            }
            _ => unreachable!(),
        },
        Parsed::And { left, right, .. } => match Box::into_inner(outline) {
            Formula::And(first, second) => {
                let first = expanded(alloc, scope, left, first)?;
                let second = expanded(alloc, scope, right, second)?;
                both(alloc, first, second)
            }
            _ => unreachable!(),
        },
        Parsed::Or { left, right, .. } => match Box::into_inner(outline) {
            Formula::Or(first, second) => {
                let first = expanded(alloc, scope, left, first)?;
                let second = expanded(alloc, scope, right, second)?;
                either(alloc, first, second)
            }
            _ => unreachable!(),
        },
    }
}

/// The formula with its names expanded, of at most 64 nodes then, by its outline: the formula with `true` where a name is used.
pub fn expand(
    alloc: Global,
    scope: &Scope,
    parsed: &Parsed,
    outline: Formula,
) -> Result<Formula, NoMemory>
    requires ready { IsScope scope.now × HasTerms scope.now (parsed_tree parsed.now)
        × IsReady scope.now (parsed_tree parsed.now) }
    requires few { length (named_by (parsed_tree parsed.now)) ≤ MOST_TOKENS }
    requires outlines { Outlines scope.now (parsed_tree parsed.now) (tree_of outline) }
    requires small { (f : Tree) → SaysTree scope.now (parsed_tree parsed.now) f → nodes f ≤ MOST_NODES }
    ensures says { IfOk result (λ formula. SaysTree scope.now (parsed_tree parsed.now) (tree_of formula)) }
{
    if scope.dialect != Dialect::Named {
        return Ok(outline);
    }
    let outline = Box::new(alloc, outline)?;
    let formula = expanded(alloc, scope, parsed, outline)?;
    Ok(Box::into_inner(formula))
}
