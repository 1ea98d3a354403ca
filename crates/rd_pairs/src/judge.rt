//! Judging the line of a pair, and that of a definition.
ghost use Rattle.std.specs.Prelude.{◌≡◌, ◌<◌, ◌-◌, ◌^◌, length, All, IfOk, IfErr, None};
ghost use Rattle.rd_definitions.specs.Definitions.{IsDefined, formula_of};
ghost use Rattle.rd_ecl.specs.Formulas.{tree_of};
ghost use Rattle.rd_ecl.specs.Specified.{MayPair, names_of, slots_at};
ghost use Rattle.rd_grammar.specs.Grammar.{parsed_tree};
ghost use Rattle.rd_lines.specs.declared.forms.Stage.{Stage};
ghost use Rattle.rd_lines.specs.declared.forms.Version.{Version};
ghost use Rattle.rd_lines.specs.Lines.{HasFewWords, IsCommuteLine, IsDefineLine, words_of};
ghost use Rattle.rd_open_kind.specs.Opened.{definitions_at};
ghost use Rattle.rd_pairs.specs.Causes.{HasNone, IsSpecLineRefused};
ghost use Rattle.rd_pairs.specs.PairCauses.{DefinitionHas, PairHas, SaysDefinition, SaysPair};
ghost use Rattle.rd_tokens.specs.Tokens.{IsTokenOf, LiesIn};

use crate::formulas::{expanded, refusal_of};
use crate::limits::{has_room, is_set};
use crate::methods::numbers_of;
use crate::numbers::number_of;
use crate::scopes::{definition_scope, is_defined, pair_scope};
use crate::{Fault, SpecCause, SpecLineRefused, place_at};
use rd_base::{LimitName, MOST_PREDICATES, Name};
use rd_definitions::Definitions;
use rd_ecl::Formula;
use rd_formulas::resolve;
use rd_grammar::Parsed;
use rd_lines::Version;
use rd_open_kind::OpenKind;
use rd_tokens::Token;
use std::alloc::Global;

/// A pair of methods, by their numbers, with its formula.
#[derive(Drop)]
pub struct Pair {
    pub first: u8,
    pub second: u8,
    pub formula: Formula,
}

/// What a name stands for: a formula of the method with this number.
#[derive(Drop)]
pub struct Defined {
    pub method: u8,
    pub formula: Formula,
}

/// The pair that a line of these two methods and this formula says of a kind, ready for `OpenKind::pair`; else the first thing that is
/// wrong with the line. It is right by its form, with at most 512 tokens behind `when`. Only the formula takes memory.
pub fn judge_pair(
    alloc: Global,
    version: Version,
    opened: &OpenKind,
    line: &[u8],
    tokens: &[Token],
    names: (&Name, &Name),
    parsed: &Parsed,
) -> Result<Pair, SpecLineRefused>
    requires within { All (LiesIn line.now) tokens.now }
    requires sorts { All (IsTokenOf line.now) tokens.now }
    requires short { length line.now < 2 ^ 32 - 1 }
    requires few { HasFewWords version (words_of line.now tokens.now) }
    requires right { (stage : Stage)
        × IsCommuteLine version stage (names_of opened.now.kind.methods)
        (words_of line.now tokens.now) names.0.now names.1.now (parsed_tree parsed.now) }

    // the pair is clean, is what the line says and may stand, or it is refused
    ensures clean { IfOk result
        (λ pair. HasNone
        (PairHas version opened.now line.now tokens.now names.entry.0.now names.entry.1.now (parsed_tree parsed.now))) }
    ensures says { IfOk result
        (λ pair. SaysPair version opened.now line.now tokens.now names.entry.0.now names.entry.1.now
        (parsed_tree parsed.now) pair.first pair.second (tree_of pair.formula)) }
    ensures may { IfOk result
        (λ pair. MayPair opened.now.kind pair.first pair.second (tree_of pair.formula)) }
    ensures refused { IfErr result
        (IsSpecLineRefused (PairHas version opened.now line.now tokens.now names.entry.0.now names.entry.1.now
        (parsed_tree parsed.now))) }
{
    let kind = opened.draft();
    let (one, other) = match numbers_of(kind.methods(), line, tokens, names.0, names.1) {
        Ok(numbers) => numbers,
        Err(fault) => return Err(SpecLineRefused::Fault(fault)),
    };
    let scope = pair_scope(version, opened, line, tokens, one, other);
    let outline = match resolve(alloc, &scope, parsed) {
        Ok(outline) => outline,
        Err(refused) => return Err(refusal_of(refused)),
    };
    if is_set(kind, one, other) {
        return Err(SpecLineRefused::Fault(Fault {
            place: place_at(line, tokens, 1),
            cause: SpecCause::Duplicate,
        }));
    }
    let formula = expanded(alloc, &scope, line, tokens, parsed, outline)?;
    if !has_room(kind, one, other, &formula) {
        return Err(SpecLineRefused::Fault(Fault {
            place: place_at(line, tokens, 3),
            cause: SpecCause::Limit(LimitName::Predicates, MOST_PREDICATES as u32),
        }));
    }
    Ok(Pair {
        first: one,
        second: other,
        formula,
    })
}

/// What the line of a definition of a method, with this name and this formula, says of a kind, ready for `OpenKind::define`; else the
/// first thing that is wrong with the line. It is right by its form, with at most 512 tokens behind `when`. Only the formula takes
/// memory.
pub fn judge_definition(
    alloc: Global,
    opened: &OpenKind,
    line: &[u8],
    tokens: &[Token],
    names: (&Name, &Name),
    parsed: &Parsed,
) -> Result<Defined, SpecLineRefused>
    requires within { All (LiesIn line.now) tokens.now }
    requires sorts { All (IsTokenOf line.now) tokens.now }
    requires short { length line.now < 2 ^ 32 - 1 }
    requires right { (version : Version) × (stage : Stage) × HasFewWords version (words_of line.now tokens.now)
        × IsDefineLine version stage
        (words_of line.now tokens.now) names.0.now names.1.now (parsed_tree parsed.now) }

    // the definition is clean, is what the line says and may stand, or it is refused
    ensures clean { IfOk result
        (λ defined. HasNone
        (DefinitionHas opened.now line.now tokens.now names.entry.0.now names.entry.1.now (parsed_tree parsed.now))) }
    ensures says { IfOk result
        (λ defined. SaysDefinition opened.now.kind line.now tokens.now names.entry.0.now
        (parsed_tree parsed.now) defined.method (tree_of defined.formula)) }
    ensures known { IfOk result (λ defined. defined.method < length opened.now.kind.methods) }
    ensures unknown { IfOk result
        (λ defined. formula_of (definitions_at opened.now.defined defined.method) names.entry.1.now ≡ None) }
    ensures may { IfOk result
        (λ defined. IsDefined (slots_at opened.now.kind.methods defined.method)
        (record { name = names.entry.1.now; formula = tree_of defined.formula })) }
    ensures refused { IfErr result
        (IsSpecLineRefused (DefinitionHas opened.now line.now tokens.now names.entry.0.now names.entry.1.now
        (parsed_tree parsed.now))) }
{
    let Some(method) = number_of(opened.draft().methods(), names.0) else {
        return Err(SpecLineRefused::Fault(Fault {
            place: place_at(line, tokens, 1),
            cause: SpecCause::UnknownMethod,
        }));
    };
    let none = Definitions::new(alloc);
    let scope = definition_scope(opened, &none, line, tokens, method);
    let outline = match resolve(alloc, &scope, parsed) {
        Ok(outline) => outline,
        Err(refused) => return Err(refusal_of(refused)),
    };
    if is_defined(opened, method, names.1) {
        return Err(SpecLineRefused::Fault(Fault {
            place: place_at(line, tokens, 2),
            cause: SpecCause::Duplicate,
        }));
    }
    let formula = expanded(alloc, &scope, line, tokens, parsed, outline)?;
    Ok(Defined { method, formula })
}
