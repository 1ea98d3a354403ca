//! The lines of a kind's pairs, and the part of such a line behind `commute`.
ghost use Rattle.std.specs.Prelude.{◌≡◌, ◌≤◌, ◌<◌, ◌++◌, IfOk, OnOk, Some, length, slice_get};
ghost use Rattle.rd_print.specs.Printed.{commute_words, printed_line, pair_text};
ghost use Rattle.rd_print.specs.Writing.{pairs_text, row_text};

use crate::{append_text, words};
use rd_base::{Bytes, MOST_METHODS, NoMemory};
use rd_ecl::{KindSpec, Method};
use std::alloc::Global;

// The method with this number.
fn method_at(kind: &KindSpec, number: u8) -> &Method
    requires { number < length kind.now.methods }
    ensures { slice_get kind.now.methods number ≡ Some result.now }
{
    &kind.methods()[usize::from(number)]
}

// How many methods a kind has.
fn count(kind: &KindSpec) -> u8
    ensures value { result ≡ length kind.now.methods }
    ensures bound { result ≤ MOST_METHODS }
{
    kind.methods().len() as u8
}

// Puts a pair last: what stands in its line behind `commute`.
fn append_pair(
    alloc: Global,
    text: &mut Bytes,
    kind: &KindSpec,
    first: u8,
    second: u8,
) -> Result<(), NoMemory>
    requires { (first ≤ second) × (second < length kind.now.methods) }
    ensures { OnOk result (text.new ≡ text.old ++ pair_text kind.now first second) }
{
    let left = method_at(kind, first);
    let right = method_at(kind, second);
    let formula = kind.formula(first, second);
    let found = words(
        alloc,
        formula,
        left.variables.items(),
        right.variables.items(),
    )?;
    text.append(left.name.items())?;
    text.push(b' ')?;
    text.append(right.name.items())?;
    text.append(b" when ")?;
    append_text(text, found.items())
}

// Puts the line of a pair last.
fn append_commute(
    alloc: Global,
    text: &mut Bytes,
    kind: &KindSpec,
    first: u8,
    second: u8,
) -> Result<(), NoMemory>
    requires { (first ≤ second) × (second < length kind.now.methods) }
    ensures { OnOk result
        (text.new ≡ text.old ++ printed_line (commute_words kind.now (first, second))) }
{
    text.append(b"commute ")?;
    append_pair(alloc, text, kind, first, second)?;
    text.push(b'\n')
}

// Puts the lines of the pairs last whose first method has this number.
fn append_row(alloc: Global, text: &mut Bytes, kind: &KindSpec, first: u8) -> Result<(), NoMemory>
    requires { first < length kind.now.methods }
    ensures { OnOk result (text.new ≡ text.old ++ row_text kind.now first) }
{
    for second in first..count(kind) {
        append_commute(alloc, text, kind, first, second)?;
    }
    Ok(())
}

// Puts the lines of a kind's pairs last.
pub(crate) fn append_pairs(alloc: Global, text: &mut Bytes, kind: &KindSpec) -> Result<(), NoMemory>
    ensures { OnOk result (text.new ≡ text.old ++ pairs_text kind.now) }
{
    for first in 0..count(kind) {
        append_row(alloc, text, kind, first)?;
    }
    Ok(())
}

/// `FIRST SECOND when FORMULA`: the part of the canonical text that stands behind `commute`, for two methods or for one with
/// itself, by their numbers: `first` is at most `second`.
pub fn formula_text(
    alloc: Global,
    kind: &KindSpec,
    first: u8,
    second: u8,
) -> Result<Bytes, NoMemory>
    requires { (first ≤ second) × (second < length kind.now.methods) }
    ensures { IfOk result (λ text. text ≡ pair_text kind.now first second) }
{
    let mut text = Bytes::new(alloc);
    append_pair(alloc, &mut text, kind, first, second)?;
    Ok(text)
}
