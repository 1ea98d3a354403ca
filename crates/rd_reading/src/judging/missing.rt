//! The pair of a kind that is missing.
ghost use Rattle.std.specs.Prelude.{◌≡◌, ◌<◌, ◌≤◌, ℕ, IfSome, IfNone, IsSome, length, None};
ghost use Rattle.rd_reading.specs.Causes.{IsFirstMissing};
ghost use Rattle.rd_open_kind.specs.Opened.{filled};
ghost use Rattle.rd_reading.specs.Known.{opened_in};
ghost use Rattle.rd_ecl.specs.Specified.{IsWhole, formula_at};
ghost use Rattle.rd_reading.specs.Parts.{IsMissing};

use crate::{Known, SpecCause};
use rd_ecl::KindDraft;
use rd_open_kind::OpenKind;

// The first method, from the same one on, whose pair with this method is missing.
fn missing_with(kind: &KindDraft, first: u8) -> Option<u8>
    requires { first < length kind.now.methods }
    ensures some { IfSome result
        (λ second. (first ≤ second) × (second < length kind.now.methods)
        × (formula_at kind.now first second ≡ None)) }
    ensures before { IfSome result
        (λ second. (n : ℕ) → first ≤ n → n < second → IsSome (formula_at kind.now first n)) }
    ensures none { IfNone result
        ((n : ℕ) → first ≤ n → n < length kind.now.methods → IsSome (formula_at kind.now first n)) }
{
    let count = kind.methods().len() as u8;
    for second in first..count {
        if kind.formula(first, second).is_none() {
            return Some(second);
        }
    }
    None
}

// The first pair that is missing, by the numbers of its methods.
fn first_missing(kind: &KindDraft) -> Option<(u8, u8)>
    ensures some { IfSome result (λ pair. IsFirstMissing kind.now pair.0 pair.1) }
    ensures none { IfNone result (IsWhole kind.now) }
{
    let count = kind.methods().len() as u8;
    for first in 0..count {
        if let Some(second) = missing_with(kind, first) {
            return Some((first, second));
        }
    }
    None
}

// The cause to refuse the end of a kind: the pair that is missing first.
fn missing_pair(kind: &KindDraft) -> Option<SpecCause>
    ensures some { IfSome result (IsMissing kind.now) }
    ensures none { IfNone result (IsWhole kind.now) }
{
    match first_missing(kind) {
        Some((first, second)) => {
            let methods = kind.methods();
            Some(SpecCause::MissingPair(
                methods[usize::from(first)].name.copy(),
                methods[usize::from(second)].name.copy(),
            ))
        }
        None => None,
    }
}

// The cause to refuse the end of a kind with its default: without one, the pair that is missing first.
fn missing_of(opened: &OpenKind) -> Option<SpecCause>
    ensures some { IfSome result (IsMissing (filled opened.now)) }
    ensures none { IfNone result (IsWhole (filled opened.now)) }
{
    let kind = opened.draft();
    match opened.default() {
        Some(_) => None,
        None => missing_pair(kind),
    }
}

// The cause to refuse the end of the kind that is open.
pub(crate) fn missing_in(known: &Known) -> Option<SpecCause>
    ensures some { IfSome result (IsMissing (filled (opened_in known.now.block))) }
    ensures none { IfNone result (IsWhole (filled (opened_in known.now.block))) }
{
    match &known.block {
        Some(block) => missing_of(&block.opened),
        None => None,
    }
}
