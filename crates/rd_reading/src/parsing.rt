//! Reading the text of a specification.
ghost use Rattle.std.specs.Prelude.{◌≡◌, ◌≤◌, length, IfOk, IfErr, OnOk};
ghost use Rattle.rd_reading.specs.Known.{nothing};
ghost use Rattle.rd_reading.specs.Reading.{IsRead, Stops, TakesLine, at_line};
ghost use Rattle.rd_reading.specs.Texts.{IsParseRefused, SpecSays};
ghost use Rattle.rd_reading.specs.declared.parsing.ParseRefused.TheVariants.{NoMemory as MemoryRefused};

use crate::cutting::{cut_line, is_skipped};
use crate::{Known, SpecCause, SpecLineRefused, finish, read_line};
use rd_base::{LimitName, MOST_SPEC_BYTES, Name, NoMemory};
use rd_ecl::Spec as Specification;
use std::alloc::Global;
use thiserror::Error;

/// The first line of a text that is refused, and why.
#[derive(Debug, Drop, PartialEq, Eq)]
pub struct SpecRefused {
    /// its number, from 1; the number of lines and one where the end is refused; 0 where the text is too long
    pub line: u32,
    /// the number of a byte in the line, from 1; 0 where the cause has no place
    pub place: u32,
    pub cause: SpecCause,
}

/// Why a text says no specification.
#[derive(Debug, Drop, PartialEq, Eq, Error)]
pub enum ParseRefused {
    /// the text is refused
    #[error("refused at line {}, byte {}", .0.line, .0.place)]
    Spec(SpecRefused),
    /// memory ran out
    #[error("out of memory")]
    NoMemory,
}

impl From<NoMemory> for ParseRefused {
    ghost from_gives = { λ _ e. e ≡ MemoryRefused };

    fn from(_error: NoMemory) -> ParseRefused {
        ParseRefused::NoMemory
    }
}

// The refusal of the line with this number.
fn refused_at(number: u32, refused: SpecLineRefused) -> ParseRefused
    ensures { result ≡ at_line number refused }
{
    match refused {
        SpecLineRefused::Fault(fault) => ParseRefused::Spec(SpecRefused {
            line: number,
            place: fault.place,
            cause: fault.cause,
        }),
        SpecLineRefused::NoMemory => ParseRefused::NoMemory,
    }
}

// Reads a line behind what is known, unless it says nothing.
fn take_line(
    alloc: Global,
    taken: &[Name],
    known: &mut Known,
    line: &[u8],
) -> Result<(), SpecLineRefused>
    requires { length line.now ≤ MOST_SPEC_BYTES }
    ensures ok { OnOk result (TakesLine taken.now known.old line.now known.new) }
    ensures refused { IfErr result (Stops taken.now known.old line.now) }
{
    if is_skipped(line) {
        return Ok(());
    }
    read_line(alloc, taken, known, line)
}

// Reads the lines of a text that isn't too long, and counts them.
fn read_lines(
    alloc: Global,
    text: &[u8],
    taken: &[Name],
    known: &mut Known,
) -> Result<u32, ParseRefused>
    requires short { length text.now ≤ MOST_SPEC_BYTES }
    requires fresh { known.old ≡ nothing }
    ensures ok { IfOk result (λ number. IsRead taken.now text.now number known.new) }
    ensures few { IfOk result (λ number. number ≤ MOST_SPEC_BYTES) }
    ensures refused { IfErr result (IsParseRefused text.now taken.now) }
{
    let mut number = 0;
    let mut rest = text;
    while !rest.is_empty() {
        let (line, behind) = cut_line(rest);
        if let Err(refused) = take_line(alloc, taken, known, line) {
            return Err(refused_at(number + 1, refused));
        }
        number += 1;
        rest = behind;
    }
    Ok(number)
}

/// The kinds that a text says, where these names of kinds are taken; else the first line that is wrong, with the first of its
/// causes, in the order of `SpecCause` and of the limits, and the place of the leftmost token that has it. Of the limits, that on
/// the text is asked before all else, and that on tokens before the form of a line.
pub fn parse(alloc: Global, text: &[u8], taken: &[Name]) -> Result<Specification, ParseRefused>
    ensures ok { IfOk result (SpecSays text.now taken.now) }
    ensures refused { IfErr result (IsParseRefused text.now taken.now) }
{
    if text.len() > MOST_SPEC_BYTES as usize {
        return Err(ParseRefused::Spec(SpecRefused {
            line: 0,
            place: 0,
            cause: SpecCause::Limit(LimitName::SpecText, MOST_SPEC_BYTES),
        }));
    }
    let mut known = Known::new(alloc);
    let number = read_lines(alloc, text, taken, &mut known)?;
    match finish(known) {
        Ok(spec) => Ok(spec),
        Err(refused) => Err(refused_at(number + 1, refused)),
    }
}
