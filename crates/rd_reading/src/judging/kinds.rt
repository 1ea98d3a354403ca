//! Judging the line of a kind.
ghost use Rattle.std.specs.Prelude.{◌≡◌, ◌<◌, ◌-◌, ◌^◌, IfNone, length};
ghost use Rattle.rd_reading.specs.Causes.{KindHas};
ghost use Rattle.rd_pairs.specs.Causes.{Judged};
ghost use Rattle.rd_reading.specs.Known.{kinds_so_far, open_kinds, opened_in, specified_kind_names};
ghost use Rattle.rd_ecl.specs.Specified.{IsWhole};
ghost use Rattle.rd_open_kind.specs.Opened.{filled};
ghost use Rattle.rd_ecl.specs.Variables.{is_one_of};

use crate::judging::missing::missing_in;
use crate::{Fault, Known, SpecCause};
use rd_base::{LimitName, MOST_KINDS, Name};
use rd_ecl::KindSpec;
use rd_pairs::place_at;
use rd_tokens::Token;

// Is one of the kinds of this name?
fn names_kind(kinds: &[KindSpec], name: &Name) -> bool
    ensures { result ≡ is_one_of name.now (specified_kind_names kinds.now) }
{
    for kind in kinds {
        if name.items() == kind.name().items() {
            return true;
        }
    }
    false
}

// Is the name one of these?
fn is_taken(taken: &[Name], name: &Name) -> bool
    ensures { result ≡ is_one_of name.now taken.now }
{
    for other in taken {
        if name.items() == other.items() {
            return true;
        }
    }
    false
}

// Is the kind that is open of this name?
fn names_open(known: &Known, name: &Name) -> bool
    ensures { result ≡ is_one_of name.now (specified_kind_names (open_kinds known.now.block)) }
{
    match &known.block {
        Some(block) => name.items() == block.opened.draft().name().items(),
        None => false,
    }
}

// Is one of the kinds so far of this name?
fn is_known(known: &Known, name: &Name) -> bool
    ensures { result ≡ is_one_of name.now (specified_kind_names (kinds_so_far known.now)) }
{
    names_open(known, name) || names_kind(known.closed.kinds(), name)
}

// How many kinds there are so far.
fn kind_count(known: &Known) -> usize
    ensures { result ≡ length (kinds_so_far known.now) }
{
    let closed = known.closed.kinds().len();
    match known.block {
        Some(_) => closed + 1,
        None => closed,
    }
}

// What is wrong with the line of a kind of this name that is right by its form.
pub(crate) fn judge_kind(
    taken: &[Name],
    known: &Known,
    line: &[u8],
    tokens: &[Token],
    name: &Name,
) -> Option<Fault>
    requires { length line.now < 2 ^ 32 - 1 }
    ensures judged { Judged (KindHas taken.now known.now line.now tokens.now name.now) result }
    ensures whole { IfNone result (IsWhole (filled (opened_in known.now.block))) }
{
    let place = place_at(line, tokens, 1);
    if is_known(known, name) {
        return Some(Fault {
            place,
            cause: SpecCause::Duplicate,
        });
    }
    if let Some(cause) = missing_in(known) {
        return Some(Fault { place: 0, cause });
    }
    if is_taken(taken, name) {
        return Some(Fault {
            place,
            cause: SpecCause::KindTaken,
        });
    }
    if kind_count(known) >= MOST_KINDS {
        return Some(Fault {
            place,
            cause: SpecCause::Limit(LimitName::Kinds, MOST_KINDS as u32),
        });
    }
    None
}
