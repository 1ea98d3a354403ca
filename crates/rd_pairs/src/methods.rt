//! The methods of a pair.
ghost use Rattle.std.specs.Prelude.{◌≡◌, ◌<◌, ◌≤◌, ◌-◌, ◌^◌, length, IfOk, IfErr, Some, slice_get};
ghost use Rattle.rd_ecl.specs.Specified.{names_of};
ghost use Rattle.rd_pairs.specs.PairJudging.{IsUnknownFault};

use crate::numbers::number_of;
use crate::{Fault, SpecCause, place_at};
use rd_base::{MOST_METHODS, Name};
use rd_ecl::Method;
use rd_tokens::Token;

// The numbers of two methods by their names, or the first that is unknown.
pub(crate) fn numbers_of(
    methods: &[Method],
    line: &[u8],
    tokens: &[Token],
    first: &Name,
    second: &Name,
) -> Result<(u8, u8), Fault>
    requires few { length methods.now ≤ MOST_METHODS }
    requires short { length line.now < 2 ^ 32 - 1 }
    ensures first { IfOk result
        (λ numbers. slice_get (names_of methods.now) numbers.0 ≡ Some first.now) }
    ensures second { IfOk result
        (λ numbers. slice_get (names_of methods.now) numbers.1 ≡ Some second.now) }
    ensures unknown { IfErr result
        (IsUnknownFault methods.now first.now second.now line.now tokens.now) }
{
    let Some(one) = number_of(methods, first) else {
        return Err(Fault {
            place: place_at(line, tokens, 1),
            cause: SpecCause::UnknownMethod,
        });
    };
    let Some(other) = number_of(methods, second) else {
        return Err(Fault {
            place: place_at(line, tokens, 2),
            cause: SpecCause::UnknownMethod,
        });
    };
    Ok((one, other))
}
