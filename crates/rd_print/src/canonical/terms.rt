//! The words of terms.
ghost use Rattle.std.specs.Prelude.{◌≡◌, ◌<◌, IfOk, length};
ghost use Rattle.rd_base.specs.Spelling.{IsValue};
ghost use Rattle.rd_ecl.specs.Formulas.{FitsTerm, IsConstant};
ghost use Rattle.rd_tokens.specs.Words.{side_mark};
ghost use Rattle.rd_print.specs.Canonical.{slot_word, sort_of_value, term_word, value_word};

use crate::canonical::word_list::PrintedWord;
use rd_base::{Bytes, Name, NoMemory, Value, append_value};
use rd_ecl::{Side, Term};
use rd_tokens::Sort;
use std::alloc::Global;

// How a variable's side is written, behind its name.
fn side_mark(side: Side) -> &'static [u8]
    ensures { result.now ≡ side_mark side }
{
    match side {
        Side::First => b"@1",
        Side::Second => b"@2",
    }
}

// A slot of a side, whose variables are these.
pub(crate) fn slot_word(
    alloc: Global,
    side: Side,
    names: &[Name],
    slot: u8,
) -> Result<PrintedWord, NoMemory>
    requires { slot < length names.now }
    ensures { IfOk result (λ word. word ≡ slot_word side names.now slot) }
{
    let mut bytes = Bytes::new(alloc);
    bytes.append(names[usize::from(slot)].items())?;
    bytes.append(side_mark(side))?;
    Ok(PrintedWord {
        sort: Sort::Word,
        bytes,
    })
}

// The sort of a value's word.
fn sort_of_value(value: &Value) -> Sort
    ensures { result ≡ sort_of_value value.now }
{
    match value {
        Value::Text(_) => Sort::Text,
        _ => Sort::Word,
    }
}

// A value.
fn value_word(alloc: Global, value: &Value) -> Result<PrintedWord, NoMemory>
    ensures word { IfOk result (λ word. word ≡ value_word value.now) }
    ensures range { IsValue value.now }
{
    let mut bytes = Bytes::new(alloc);
    append_value(&mut bytes, value)?;
    Ok(PrintedWord {
        sort: sort_of_value(value),
        bytes,
    })
}

// A term of a side, whose variables are these.
pub(crate) fn term_word(
    alloc: Global,
    side: Side,
    names: &[Name],
    term: &Term,
) -> Result<PrintedWord, NoMemory>
    requires { FitsTerm term.now (length names.now) }
    ensures word { IfOk result (λ word. word ≡ term_word side names.now term.now) }
    ensures range { IsConstant term.now }
{
    match term {
        Term::Slot(slot) => slot_word(alloc, side, names, *slot),
        Term::Const(value) => value_word(alloc, value),
    }
}
