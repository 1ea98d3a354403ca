//! Writing the words of a formula.
ghost use Rattle.std.specs.Prelude.{◌≡◌, ◌++◌, [], ◌∷◌, IfOk, IfSome, IfNone, OnOk, false, length};
ghost use Rattle.rd_ecl.specs.Formulas.{Fits, atom, tree_of, AreValues};
ghost use Rattle.rd_ecl.specs.declared.formulas.Rel.TheVariants.{Eq};
ghost use Rattle.rd_print.specs.Canonical.{has_two_parts, is_or, canonical_words, part_words};
ghost use Rattle.rd_print.specs.WordWriting.{IsPlainNot, before_part, behind_part, has_part};

use crate::canonical::relations::{
    Variables, relation_sign, write_across, write_mixed, write_sided, write_word,
};
use crate::canonical::word_list::Words;
use rd_base::{Name, NoMemory};
use rd_ecl::{Formula, Rel, Side, Term};
use rd_grammar::Sign;
use rd_tokens::Sort;
use std::alloc::Global;

// Is it of two formulas with `or` between them?
fn is_or(formula: &Formula) -> bool
    ensures { result ≡ is_or (tree_of formula.now) }
{
    match formula {
        Formula::Or(_, _) => true,
        _ => false,
    }
}

// Is it of two formulas, with `and` or `or` between them?
fn is_of_two(formula: &Formula) -> bool
    ensures { result ≡ has_two_parts (tree_of formula.now) }
{
    match formula {
        Formula::And(_, _) | Formula::Or(_, _) => true,
        _ => false,
    }
}

// The side and the terms of a relation with `=` on one side.
fn equality(formula: &Formula) -> Option<(Side, &Term, &Term)>
    ensures some { IfSome result
        (λ found. tree_of formula.now ≡ atom found.0 Eq found.1.now found.2.now) }
    ensures none { IfNone result (IsPlainNot (tree_of formula.now)) }
{
    match formula {
        Formula::Atom {
            side,
            rel: Rel::Eq,
            left,
            right,
        } => Some((*side, left, right)),
        _ => None,
    }
}

// Puts `(` last where a part needs parentheses.
fn open_part(alloc: Global, words: &mut Words, needs: bool) -> Result<(), NoMemory>
    ensures { OnOk result (words.new ≡ words.old ++ before_part needs) }
{
    if needs {
        write_word(alloc, words, Sort::Open, b"(")
    } else {
        Ok(())
    }
}

// Puts `)` last where a part needs parentheses.
fn close_part(alloc: Global, words: &mut Words, needs: bool) -> Result<(), NoMemory>
    ensures { OnOk result (words.new ≡ words.old ++ behind_part needs) }
{
    if needs {
        write_word(alloc, words, Sort::Close, b")")
    } else {
        Ok(())
    }
}

// Puts the words of a formula last that has no part.
fn write_leaf(
    alloc: Global,
    words: &mut Words,
    variables: &Variables,
    formula: &Formula,
) -> Result<(), NoMemory>
    requires fits { Fits (tree_of formula.now) (length variables.now.first.now)
        (length variables.now.second.now) }
    requires leaf { has_part (tree_of formula.now) ≡ false }
    ensures words { OnOk result
        (words.new ≡ words.old ++ canonical_words variables.now.first.now variables.now.second.now
        (tree_of formula.now)) }
    ensures values { OnOk result (AreValues (tree_of formula.now)) }
{
    match formula {
        Formula::True => write_word(alloc, words, Sort::Word, b"true"),
        Formula::False => write_word(alloc, words, Sort::Word, b"false"),
        Formula::Atom {
            side,
            rel,
            left,
            right,
        } => write_sided(
            alloc,
            words,
            variables,
            *side,
            relation_sign(*rel),
            left,
            right,
        ),
        Formula::Cross { first, second } => {
            write_across(alloc, words, variables, *first, Sign::Different, *second)
        }
        Formula::Mixed {
            rel,
            flipped,
            first,
            second,
        } => write_mixed(alloc, words, variables, *rel, *flipped, *first, *second),
        _ => unreachable!(),
    }
}

// Puts the words of a part last, in parentheses where it needs them.
#[cycle(write)]
fn write_part(
    alloc: Global,
    words: &mut Words,
    variables: &Variables,
    formula: &Formula,
    needs: bool,
) -> Result<(), NoMemory>
    requires { Fits (tree_of formula.now) (length variables.now.first.now)
        (length variables.now.second.now) }
    ensures words { OnOk result
        (words.new ≡ words.old ++ part_words needs
        (canonical_words variables.now.first.now variables.now.second.now (tree_of formula.now))) }
    ensures values { OnOk result (AreValues (tree_of formula.now)) }
{
    open_part(alloc, words, needs)?;
    write(alloc, words, variables, formula)?;
    close_part(alloc, words, needs)
}

// Puts the words of a formula last.
#[cycle(write)]
fn write(
    alloc: Global,
    words: &mut Words,
    variables: &Variables,
    formula: &Formula,
) -> Result<(), NoMemory>
    requires { Fits (tree_of formula.now) (length variables.now.first.now)
        (length variables.now.second.now) }
    ensures words { OnOk result
        (words.new ≡ words.old ++ canonical_words variables.now.first.now variables.now.second.now
        (tree_of formula.now)) }
    ensures values { OnOk result (AreValues (tree_of formula.now)) }
{
    match formula {
        Formula::Not(inner) => match equality(inner) {
            Some((side, left, right)) => {
                write_sided(alloc, words, variables, side, Sign::Different, left, right)
            }
            None => {
                write_word(alloc, words, Sort::Word, b"not")?;
                write_part(alloc, words, variables, inner, is_of_two(inner))
            }
        },
        Formula::And(left, right) => {
            write_part(alloc, words, variables, left, is_or(left))?;
            write_word(alloc, words, Sort::Word, b"and")?;
            write_part(alloc, words, variables, right, is_of_two(right))
        }
        Formula::Or(left, right) => {
            write(alloc, words, variables, left)?;
            write_word(alloc, words, Sort::Word, b"or")?;
            write_part(alloc, words, variables, right, is_or(right))
        }
        leaf => write_leaf(alloc, words, variables, leaf),
    }
}

/// The canonical words of a formula, where these are the variables of side 1 and of side 2.
pub fn words(
    alloc: Global,
    formula: &Formula,
    first: &[Name],
    second: &[Name],
) -> Result<Words, NoMemory>
    requires { Fits (tree_of formula.now) (length first.now) (length second.now) }
    ensures words { IfOk result
        (λ words. words ≡ canonical_words first.now second.now (tree_of formula.now)) }
    ensures values { IfOk result (λ _. AreValues (tree_of formula.now)) }
{
    let mut words = Words::new(alloc);
    write(alloc, &mut words, &Variables { first, second }, formula)?;
    Ok(words)
}
