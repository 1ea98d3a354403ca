//! The words of relations.
ghost use Rattle.std.specs.Prelude.{◌≡◌, [], ◌∷◌, ◌++◌, ◌<◌, OnOk, length};
ghost use Rattle.rd_ecl.specs.Formulas.{FitsTerm, mixed, IsConstant};
ghost use Rattle.rd_ecl.specs.declared.formulas.Side.TheVariants.{First, Second};
ghost use Rattle.rd_tokens.specs.Words.{sign_word};
ghost use Rattle.rd_print.specs.Canonical.{side_variables, relation_words, sided_words, relation_sign, slot_word, canonical_words};

use crate::canonical::terms::{slot_word, term_word};
use crate::canonical::word_list::{PrintedWord, Words};
use rd_base::{Bytes, Name, NoMemory};
use rd_ecl::{Rel, Side, Term};
use rd_grammar::Sign;
use rd_tokens::Sort;
use std::alloc::Global;

// The variables of both sides.
#[derive(Drop)]
pub(crate) struct Variables<'a> {
    pub(crate) first: &'a [Name],
    pub(crate) second: &'a [Name],
}

impl<'a> Variables<'a> {
    // The variables of a side.
    fn of(&self, side: Side) -> &'a [Name]
        ensures { result.now ≡ side_variables self.now.first.now self.now.second.now side }
    {
        match side {
            Side::First => self.first,
            Side::Second => self.second,
        }
    }
}

/// How a sign is written.
pub fn sign_word(sign: Sign) -> &'static [u8]
    ensures { result.now ≡ sign_word sign }
{
    match sign {
        Sign::Equal => b"=",
        Sign::Different => b"!=",
        Sign::Less => b"<",
        Sign::AtMost => b"<=",
    }
}

/// The sign of a relation.
pub fn relation_sign(rel: Rel) -> Sign
    ensures { result ≡ relation_sign rel }
{
    match rel {
        Rel::Eq => Sign::Equal,
        Rel::Lt => Sign::Less,
        Rel::Le => Sign::AtMost,
    }
}

// Puts a word last that is no text.
pub(crate) fn write_word(
    alloc: Global,
    words: &mut Words,
    sort: Sort,
    bytes: &[u8],
) -> Result<(), NoMemory>
    ensures { OnOk result
        (words.new ≡ words.old ++ record { sort = sort; bytes = bytes.now } ∷ []) }
{
    let mut word = Bytes::new(alloc);
    word.append(bytes)?;
    words.push(PrintedWord { sort, bytes: word })
}

// Puts a relation last.
fn write_relation(
    alloc: Global,
    words: &mut Words,
    left: PrintedWord,
    sign: Sign,
    right: PrintedWord,
) -> Result<(), NoMemory>
    ensures { OnOk result (words.new ≡ words.old ++ relation_words left sign right) }
{
    words.push(left)?;
    write_word(alloc, words, Sort::Word, sign_word(sign))?;
    words.push(right)
}

// Puts a relation on one side last.
pub(crate) fn write_sided(
    alloc: Global,
    words: &mut Words,
    variables: &Variables,
    side: Side,
    sign: Sign,
    left: &Term,
    right: &Term,
) -> Result<(), NoMemory>
    requires left { FitsTerm left.now
        (length (side_variables variables.now.first.now variables.now.second.now side)) }
    requires right { FitsTerm right.now
        (length (side_variables variables.now.first.now variables.now.second.now side)) }
    ensures words { OnOk result
        (words.new ≡ words.old ++ sided_words variables.now.first.now variables.now.second.now side sign left.now right.now) }
    ensures values { OnOk result (IsConstant left.now × IsConstant right.now) }
{
    let names = variables.of(side);
    let left = term_word(alloc, side, names, left)?;
    let right = term_word(alloc, side, names, right)?;
    write_relation(alloc, words, left, sign, right)
}

// Puts a relation last of a slot of side 1 and a slot of side 2, in this order.
pub(crate) fn write_across(
    alloc: Global,
    words: &mut Words,
    variables: &Variables,
    first: u8,
    sign: Sign,
    second: u8,
) -> Result<(), NoMemory>
    requires first { first < length variables.now.first.now }
    requires second { second < length variables.now.second.now }
    ensures { OnOk result
        (words.new ≡ words.old ++ relation_words
        (slot_word First variables.now.first.now first) sign
        (slot_word Second variables.now.second.now second)) }
{
    let left = slot_word(alloc, Side::First, variables.first, first)?;
    let right = slot_word(alloc, Side::Second, variables.second, second)?;
    write_relation(alloc, words, left, sign, right)
}

// Puts a relation last of a slot of side 1 and a slot of side 2, in the other order.
fn write_flipped(
    alloc: Global,
    words: &mut Words,
    variables: &Variables,
    first: u8,
    sign: Sign,
    second: u8,
) -> Result<(), NoMemory>
    requires first { first < length variables.now.first.now }
    requires second { second < length variables.now.second.now }
    ensures { OnOk result
        (words.new ≡ words.old ++ relation_words
        (slot_word Second variables.now.second.now second) sign
        (slot_word First variables.now.first.now first)) }
{
    let left = slot_word(alloc, Side::Second, variables.second, second)?;
    let right = slot_word(alloc, Side::First, variables.first, first)?;
    write_relation(alloc, words, left, sign, right)
}

// Puts another relation between the sides last.
pub(crate) fn write_mixed(
    alloc: Global,
    words: &mut Words,
    variables: &Variables,
    rel: Rel,
    flipped: bool,
    first: u8,
    second: u8,
) -> Result<(), NoMemory>
    requires first { first < length variables.now.first.now }
    requires second { second < length variables.now.second.now }
    ensures { OnOk result
        (words.new ≡ words.old ++ canonical_words variables.now.first.now variables.now.second.now
        (mixed rel flipped first second)) }
{
    if flipped {
        write_flipped(alloc, words, variables, first, relation_sign(rel), second)
    } else {
        write_across(alloc, words, variables, first, relation_sign(rel), second)
    }
}
