//! Reading a formula.
ghost use Rattle.std.specs.Prelude.{◌≡◌, ◌≢◌, ◌≤◌, ◌<◌, ◌-◌, ◌^◌, ℕ, length, IfOk, IfErr, Some};
ghost use Rattle.rd_ecl.specs.Formulas.{first_offence, post_order, tree_of};
ghost use Rattle.rd_formulas.specs.declared.reading.FormulaRefused.TheVariants.{NoMemory as MemoryRefused};
ghost use Rattle.rd_formulas.specs.Reading.{IsFormula, IsFormulaRefused, IsTroubled, OutlinesFormula, SaysFormula};
ghost use Rattle.rd_formulas.specs.Scope.{HasTerms, IsReady, IsScope, Outlines};
ghost use Rattle.rd_grammar.specs.Grammar.{parsed_tree};
ghost use Rattle.rd_tokens.specs.declared.words.dialects.Dialect.TheVariants.{Named};
ghost use Rattle.rd_grammar.specs.Numbers.{named_by};

use crate::building::build;
use crate::finding::{first_bare, first_unknown};
use crate::places::token_of_node;
use crate::scope::Scope;
use rd_base::{MOST_TOKENS, NoMemory};
use rd_ecl::{Formula, Outside, Reason};
use rd_grammar::{MarksRefused, Parsed, parse_formula};
use rd_tokens::marks;
use std::alloc::Global;
use thiserror::Error;

/// Why tokens say no formula. Places are numbers of bytes in the line, from 1.
#[derive(Clone, Copy, Debug, PartialEq, Eq, Error)]
pub enum FormulaRefused {
    /// the first wrong token; behind the line, where it ends too early
    #[error("wrong at byte {place}")]
    Syntax { place: u32 },
    /// the first variable that isn't one of its side's method, or used name that isn't a definition of it
    #[error("unknown variable at byte {place}")]
    UnknownVariable { place: u32 },
    /// the sign of the first relation that has no variable
    #[error("no variable beside the sign at byte {place}")]
    NoVariable { place: u32 },
    /// the token of the first node that isn't in the fragment, and why
    #[error("outside the fragment at byte {place}")]
    OutsideFragment { place: u32, reason: Reason },
    /// memory ran out
    #[error("out of memory")]
    NoMemory,
}

impl From<NoMemory> for FormulaRefused {
    ghost from_gives = { λ _ e. e ≡ MemoryRefused };

    fn from(_error: NoMemory) -> FormulaRefused {
        FormulaRefused::NoMemory
    }
}

// The refusal of a formula outside the fragment.
fn refused_outside(
    scope: &Scope,
    parsed: &Parsed,
    formula: &Formula,
    outside: Outside,
) -> FormulaRefused
    requires scope { IsScope scope.now × (length scope.now.line.now < 2 ^ 32 - 1) }
    requires ready { HasTerms scope.now (parsed_tree parsed.now)
        × IsReady scope.now (parsed_tree parsed.now) }
    requires few { length (named_by (parsed_tree parsed.now)) ≤ MOST_TOKENS }
    requires outside { first_offence 0 (post_order (tree_of formula.now)) ≡ Some outside }
    requires outlines { Outlines scope.now (parsed_tree parsed.now) (tree_of formula.now) }
    ensures { IsTroubled scope.now (parsed_tree parsed.now) result }
{
    let number = token_of_node(parsed, formula, outside.node).unwrap();
    FormulaRefused::OutsideFragment {
        place: scope.place(number),
        reason: outside.reason,
    }
}

// The formula of what was read whose terms and names all have a meaning, with `true` where a name is used.
fn built(alloc: Global, scope: &Scope, parsed: &Parsed) -> Result<Formula, FormulaRefused>
    requires scope { IsScope scope.now × (length scope.now.line.now < 2 ^ 32 - 1) }
    requires ready { HasTerms scope.now (parsed_tree parsed.now)
        × IsReady scope.now (parsed_tree parsed.now) }
    requires few { length (named_by (parsed_tree parsed.now)) ≤ MOST_TOKENS }
    ensures outlines { IfOk result
        (λ formula. Outlines scope.now (parsed_tree parsed.now) (tree_of formula)) }
    ensures formula { IfOk result (λ formula. IsFormula scope.now (tree_of formula)) }
    ensures refused { IfErr result (IsTroubled scope.now (parsed_tree parsed.now)) }
{
    let formula = build(alloc, scope, parsed)?;
    match formula.place_outside() {
        Some(outside) => Err(refused_outside(scope, parsed, &formula, outside)),
        None => Ok(formula),
    }
}

/// The formula of what was read, with `true` where a name is used, or the first thing that is wrong with what was read.
pub fn resolve(alloc: Global, scope: &Scope, parsed: &Parsed) -> Result<Formula, FormulaRefused>
    requires scope { IsScope scope.now × (length scope.now.line.now < 2 ^ 32 - 1) }
    requires terms { HasTerms scope.now (parsed_tree parsed.now) }
    requires few { length (named_by (parsed_tree parsed.now)) ≤ MOST_TOKENS }
    ensures outlines { IfOk result
        (λ formula. Outlines scope.now (parsed_tree parsed.now) (tree_of formula)) }
    ensures formula { IfOk result (λ formula. IsFormula scope.now (tree_of formula)) }
    ensures ready { IfOk result (λ formula. IsReady scope.now (parsed_tree parsed.now)) }
    ensures refused { IfErr result (IsTroubled scope.now (parsed_tree parsed.now)) }
{
    if let Some(number) = first_unknown(scope, parsed) {
        return Err(FormulaRefused::UnknownVariable {
            place: scope.place(number),
        });
    }
    if let Some(number) = first_bare(scope, parsed) {
        return Err(FormulaRefused::NoVariable {
            place: scope.place(number),
        });
    }
    built(alloc, scope, parsed)
}

/// The formula that tokens say, at most 512 of them, with `true` where a name is used; else the first thing that is wrong with them.
pub fn read_formula(alloc: Global, scope: &Scope) -> Result<Formula, FormulaRefused>
    requires scope { IsScope scope.now × (length scope.now.line.now < 2 ^ 32 - 1) }
    requires few { length scope.now.tokens.now ≤ MOST_TOKENS }
    ensures outlines { IfOk result (λ formula. OutlinesFormula scope.now (tree_of formula)) }
    ensures says { IfOk result
        (λ formula. scope.now.dialect ≢ Named → SaysFormula scope.now (tree_of formula)) }
    ensures formula { IfOk result (λ formula. IsFormula scope.now (tree_of formula)) }
    ensures refused { IfErr result (IsFormulaRefused scope.now) }
{
    let marks = marks(alloc, scope.dialect, scope.line, scope.tokens)?;
    match parse_formula(alloc, marks.items()) {
        Ok(parsed) => resolve(alloc, scope, &parsed),
        Err(MarksRefused::Syntax(number)) => Err(FormulaRefused::Syntax {
            place: scope.place(number),
        }),
        Err(MarksRefused::NoMemory) => Err(FormulaRefused::NoMemory),
    }
}
