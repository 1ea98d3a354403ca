//! Terms: variables with their sides, and values.
ghost use Rattle.std.specs.Prelude.{◌≡◌, ℕ, List, Some, None, IfOk, OnErr, IfSome, IfNone, IsTrue, is_some};
ghost use Rattle.std.specs.List.{list_all};
ghost use Rattle.std.specs.Str.{bytes_eq};
ghost use Rattle.rd_ecl.specs.Variables.{is_letter, is_variable_byte, is_variable, is_one_of, kept_words};
ghost use Rattle.rd_ecl.specs.declared.formulas.Side.{Side};
ghost use Rattle.rd_tokens.specs.Tokens.{SpellsText};
ghost use Rattle.rd_tokens.specs.declared.words.terms.Said.{Said};
ghost use Rattle.rd_tokens.specs.declared.words.terms.Said.TheVariants.{Variable};
ghost use Rattle.rd_tokens.specs.ReadingWords.{side_of, variable_of, term_of, unsided_term_of};
ghost use Rattle.rd_tokens.specs.Words.{SaysTerm, SaysTermIn, SaysUnsided};

use crate::words::dialects::Dialect;
use rd_base::{MOST_NAME_BYTES, Name, NoMemory, Value, ValueRefused, is_value, read_value};
use rd_ecl::Side;
use std::alloc::Global;

/// What a term says.
#[derive(Drop, PartialEq, Eq)]
pub enum Said {
    /// the variable of this name, of this side
    Variable { side: Side, name: Name },
    Value(Value),
}

// Are the bytes those of the word?
pub(crate) fn bytes_are(bytes: &[u8], word: &str) -> bool
    ensures { result ≡ bytes_eq bytes.now word.now }
{
    bytes == word.as_bytes()
}

fn is_letter(byte: u8) -> bool
    ensures { result ≡ is_letter byte }
{
    byte.is_ascii_alphabetic()
}

fn is_variable_byte(byte: u8) -> bool
    ensures { result ≡ is_variable_byte byte }
{
    byte.is_ascii_alphanumeric() || byte == b'_'
}

// Has a variable each of these bytes?
fn are_variable_bytes(bytes: &[u8]) -> bool
    ensures { result ≡ list_all is_variable_byte bytes.now }
{
    bytes.iter().all(|byte| is_variable_byte(*byte))
}

// Are the bytes a word of formulas, which names no variable?
fn is_kept(bytes: &[u8]) -> bool
    ensures { result ≡ is_one_of bytes.now kept_words }
{
    bytes_are(bytes, "true")
        || bytes_are(bytes, "false")
        || bytes_are(bytes, "nil")
        || bytes_are(bytes, "not")
        || bytes_are(bytes, "and")
        || bytes_are(bytes, "or")
        || bytes_are(bytes, "when")
}

/// Are the bytes those of a variable: 1 to 64 letters, digits and `_`, a letter first, and none of the words of formulas? It
/// takes no memory.
pub fn is_variable(bytes: &[u8]) -> bool
    ensures { result ≡ is_variable bytes.now }
{
    if bytes.is_empty() || bytes.len() > MOST_NAME_BYTES {
        return false;
    }
    is_letter(bytes[0]) && are_variable_bytes(bytes) && !is_kept(bytes)
}

// The side that is written so behind a name.
#[tactic(auto, unfolding(crate::specs::ReadingWords::side_of))]
fn side(mark: &[u8]) -> Option<Side>
    ensures { result ≡ side_of mark.now }
{
    if bytes_are(mark, "@1") {
        return Some(Side::First);
    }
    if bytes_are(mark, "@2") {
        return Some(Side::Second);
    }
    None
}

// The variable that the bytes are with their last two, and its side.
#[tactic(auto, unfolding(crate::specs::ReadingWords::variable_of))]
fn variable(bytes: &[u8]) -> Option<(Side, &[u8])>
    ensures some { IfSome result
        (λ found. variable_of bytes.now ≡ Some (Variable found.0 found.1.now)) }
    ensures none { IfNone result (variable_of bytes.now ≡ None) }
    ensures name { IfSome result (λ found. IsTrue (is_variable found.1.now)) }
{
    let (name, mark) = bytes.split_at(bytes.len().saturating_sub(2));
    if !is_variable(name) {
        return None;
    }
    let Some(side) = side(mark) else {
        return None;
    };
    Some((side, name))
}

// The variable that the bytes are, with its side.
#[tactic(auto, using(crate::proofs::TermLemmas::variable_says, crate::proofs::TermLemmas::no_variable))]
fn sided_variable(bytes: &[u8]) -> Option<(Side, &[u8])>
    ensures some { IfSome result (λ found. SaysTerm bytes.now (Variable found.0 found.1.now)) }
    ensures none { IfNone result
        ((side : Side) (name : List ℕ) → ¬ (SaysTerm bytes.now (Variable side name))) }
{
    variable(bytes)
}

// The variable that the bytes are without a side.
#[tactic(auto, using(crate::proofs::TermLemmas::bare_of_test, crate::proofs::TermLemmas::no_bare))]
fn unsided_variable(bytes: &[u8]) -> Option<(Side, &[u8])>
    ensures some { IfSome result (λ found. SaysUnsided bytes.now (Variable found.0 found.1.now)) }
    ensures none { IfNone result
        ((side : Side) (name : List ℕ) → ¬ (SaysUnsided bytes.now (Variable side name))) }
{
    if !is_variable(bytes) {
        return None;
    }
    Some((Side::First, bytes))
}

/// The variable that the bytes are, with its side; None where they are none. A variable without a side is of side 1. It takes
/// no memory.
pub fn read_variable(dialect: Dialect, bytes: &[u8]) -> Option<(Side, &[u8])>
    ensures some { IfSome result (λ found. SaysTermIn dialect bytes.now (Variable found.0 found.1.now)) }
    ensures none { IfNone result
        ((side : Side) (name : List ℕ) → ¬ (SaysTermIn dialect bytes.now (Variable side name))) }
{
    match dialect {
        Dialect::Sided | Dialect::Named => sided_variable(bytes),
        Dialect::Unsided => unsided_variable(bytes),
    }
}

// Are the bytes a variable with its side?
pub(crate) fn is_sided_variable(bytes: &[u8]) -> bool
    ensures { result ≡ is_some (variable_of bytes.now) }
{
    variable(bytes).is_some()
}

// Do the bytes say a term?
#[tactic(auto, unfolding(crate::specs::ReadingWords::term_of))]
pub(crate) fn is_term(bytes: &[u8]) -> bool
    ensures { result ≡ is_some (term_of bytes.now) }
{
    if variable(bytes).is_some() {
        return true;
    }
    is_value(bytes)
}

// The name with these bytes, which are those of a variable.
#[tactic(auto, using(crate::proofs::TermLemmas::variable_named))]
fn variable_name(bytes: &[u8]) -> Name
    requires { IsTrue (is_variable bytes.now) }
    ensures { result ≡ bytes.now }
{
    let Ok(name) = Name::from_bytes(bytes) else {
        unreachable!();
    };
    name
}

// The term that the bytes say.
#[tactic(auto, using(crate::proofs::TermLemmas::text_spelled), unfolding(crate::specs::ReadingWords::term_of))]
fn term(alloc: Global, bytes: &[u8]) -> Result<Option<Said>, NoMemory>
    ensures found { IfOk result (λ found. found ≡ term_of bytes.now) }
    ensures memory { OnErr result (SpellsText bytes.now) }
{
    if let Some((side, name)) = variable(bytes) {
        return Ok(Some(Said::Variable {
            side,
            name: variable_name(name),
        }));
    }
    match read_value(alloc, bytes) {
        Ok(value) => Ok(Some(Said::Value(value))),
        Err(ValueRefused::NotAValue) => Ok(None),
        Err(ValueRefused::NoMemory) => Err(NoMemory),
    }
}

// The term that the bytes say where variables have no side.
#[tactic(auto, using(crate::proofs::TermLemmas::text_spelled), unfolding(crate::specs::ReadingWords::unsided_term_of))]
fn unsided_term(alloc: Global, bytes: &[u8]) -> Result<Option<Said>, NoMemory>
    ensures found { IfOk result (λ found. found ≡ unsided_term_of bytes.now) }
    ensures memory { OnErr result (SpellsText bytes.now) }
{
    if is_variable(bytes) {
        return Ok(Some(Said::Variable {
            side: Side::First,
            name: variable_name(bytes),
        }));
    }
    match read_value(alloc, bytes) {
        Ok(value) => Ok(Some(Said::Value(value))),
        Err(ValueRefused::NotAValue) => Ok(None),
        Err(ValueRefused::NoMemory) => Err(NoMemory),
    }
}

/// What a term says; None where the bytes are no term. Only a text takes memory.
pub fn read_term(alloc: Global, dialect: Dialect, bytes: &[u8]) -> Result<Option<Said>, NoMemory>
    ensures some { IfOk result (λ found. IfSome found (SaysTermIn dialect bytes.now)) }
    ensures none { IfOk result
        (λ found. IfNone found ((said : Said) → ¬ (SaysTermIn dialect bytes.now said))) }
    ensures memory { OnErr result (SpellsText bytes.now) }
{
    match dialect {
        Dialect::Sided | Dialect::Named => term(alloc, bytes),
        Dialect::Unsided => unsided_term(alloc, bytes),
    }
}
