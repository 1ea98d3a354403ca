//! The formula of a line: what is wrong with it alone, and its size with the names expanded.
ghost use Rattle.std.specs.Prelude.{◌≡◌, ◌≢◌, ◌≤◌, ◌<◌, ◌-◌, ◌^◌, ℕ, length, IfOk, IfErr, IfSome, IfNone};
ghost use Rattle.rd_ecl.specs.Formulas.{tree_of};
ghost use Rattle.rd_formulas.specs.declared.reading.FormulaRefused.TheVariants.{Syntax};
ghost use Rattle.rd_formulas.specs.Reading.{IsFormula, IsTroubled};
ghost use Rattle.rd_formulas.specs.Scope.{HasTerms, IsReady, IsScope, Outlines, SaysTree};
ghost use Rattle.rd_grammar.specs.Grammar.{parsed_tree};
ghost use Rattle.rd_grammar.specs.Numbers.{named_by};
ghost use Rattle.rd_pairs.specs.PairJudging.{IsFirstLarge, NoneLarge, IsRefusedLarge, refusal_of};

use crate::{Fault, SpecCause, SpecLineRefused, place_at};
use rd_base::{LimitName, MOST_LEVELS, MOST_NODES, MOST_TOKENS};
use rd_ecl::Formula;
use rd_formulas::{FormulaRefused, Scope, expand, expanded_size};
use rd_grammar::Parsed;
use rd_tokens::Token;
use std::alloc::Global;

// The refusal of a formula as one of its line. What stands behind `when` is right by the grammar.
pub(crate) fn refusal_of(refused: FormulaRefused) -> SpecLineRefused
    requires { (place : ℕ) → refused ≢ Syntax place }
    ensures { result ≡ refusal_of refused }
{
    let (place, cause) = match refused {
        FormulaRefused::Syntax { .. } => unreachable!(),
        FormulaRefused::UnknownVariable { place } => (place, SpecCause::UnknownVariable),
        FormulaRefused::NoVariable { place } => (place, SpecCause::NoVariable),
        FormulaRefused::OutsideFragment { place, reason } => {
            (place, SpecCause::OutsideFragment(reason))
        }
        FormulaRefused::NoMemory => return SpecLineRefused::NoMemory,
    };
    SpecLineRefused::Fault(Fault { place, cause })
}

// The first limit that the formula passes once its names are expanded. It is judged by its outline, and nothing is expanded.
fn too_large(scope: &Scope, parsed: &Parsed, outline: &Formula) -> Option<SpecCause>
    requires ready { IsScope scope.now × HasTerms scope.now (parsed_tree parsed.now)
        × IsReady scope.now (parsed_tree parsed.now) }
    requires few { length (named_by (parsed_tree parsed.now)) ≤ MOST_TOKENS }
    requires outlines { Outlines scope.now (parsed_tree parsed.now) (tree_of outline.now) }
    ensures first { IfSome result (IsFirstLarge scope.now (parsed_tree parsed.now)) }
    ensures none { IfNone result (NoneLarge scope.now (parsed_tree parsed.now)) }
{
    let size = expanded_size(scope, parsed, outline);
    if size.nodes > MOST_NODES {
        return Some(SpecCause::Limit(LimitName::Nodes, MOST_NODES));
    }
    if size.levels > MOST_LEVELS {
        return Some(SpecCause::Limit(LimitName::FormulaDepth, MOST_LEVELS));
    }
    None
}

// The formula with its names expanded, by its outline, or the first limit that it passes.
pub(crate) fn expanded(
    alloc: Global,
    scope: &Scope,
    line: &[u8],
    tokens: &[Token],
    parsed: &Parsed,
    outline: Formula,
) -> Result<Formula, SpecLineRefused>
    requires short { length line.now < 2 ^ 32 - 1 }
    requires ready { IsScope scope.now × HasTerms scope.now (parsed_tree parsed.now)
        × IsReady scope.now (parsed_tree parsed.now) }
    requires few { length (named_by (parsed_tree parsed.now)) ≤ MOST_TOKENS }
    requires outlines { Outlines scope.now (parsed_tree parsed.now) (tree_of outline) }
    ensures says { IfOk result (λ formula. SaysTree scope.now (parsed_tree parsed.now) (tree_of formula)) }
    ensures within { IfOk result (λ formula. NoneLarge scope.now (parsed_tree parsed.now)) }
    ensures refused { IfErr result
        (IsRefusedLarge scope.now line.now tokens.now (parsed_tree parsed.now)) }
{
    match too_large(scope, parsed, &outline) {
        Some(cause) => Err(SpecLineRefused::Fault(Fault {
            place: place_at(line, tokens, 3),
            cause,
        })),
        None => Ok(expand(alloc, scope, parsed, outline)?),
    }
}
