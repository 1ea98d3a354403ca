//! Judging the line of a method.
ghost use Rattle.std.specs.Prelude.{◌≡◌, ◌≢◌, ◌++◌, ◌∷◌, [], ◌<◌, ◌≤◌, ◌-◌, ◌^◌, AllPairs, IfNone, IfOk, IfSome, false, length};
ghost use Rattle.rd_reading.specs.Causes.{MethodHas, variable_token};
ghost use Rattle.rd_pairs.specs.Causes.{Judged, place_at};
ghost use Rattle.rd_ecl.specs.Specified.{names_of};
ghost use Rattle.rd_ecl.specs.Variables.{is_one_of};
ghost use Rattle.rd_reading.specs.Parts.{IsPassed};

use crate::judging::repeated::first_repeated;
use crate::{Fault, SpecCause};
use rd_base::{LimitName, MOST_ARGUMENTS, MOST_METHODS, Name, NoMemory};
use rd_ecl::{KindDraft, Method};
use rd_pairs::place_at;
use rd_tokens::Token;
use std::alloc::Global;

// Is one of the methods of this name?
fn is_known(methods: &[Method], name: &Name) -> bool
    ensures { result ≡ is_one_of name.now (names_of methods.now) }
{
    for method in methods {
        if name.items() == method.name.items() {
            return true;
        }
    }
    false
}

// The number of a variable's token, where `->` stands behind so many arguments.
fn variable_token(count: usize, number: usize) -> usize
    requires within { number ≤ count }
    requires few { count < 2 ^ 32 }
    ensures { result ≡ variable_token count number }
{
    if number == count {
        number + 3
    } else {
        number + 2
    }
}

// The limit that the line passes, and where it does so.
fn passed(kind: &KindDraft, line: &[u8], tokens: &[Token], arguments: &[Name]) -> Option<Fault>
    requires { length line.now < 2 ^ 32 - 1 }
    ensures some { IfSome result (IsPassed kind.now line.now tokens.now arguments.now) }
    ensures none { IfNone result ((length kind.now.methods < MOST_METHODS) × (length arguments.now ≤ MOST_ARGUMENTS)) }
{
    if kind.methods().len() >= MOST_METHODS {
        return Some(Fault {
            place: place_at(line, tokens, 1),
            cause: SpecCause::Limit(LimitName::Methods, MOST_METHODS as u32),
        });
    }
    if arguments.len() > MOST_ARGUMENTS {
        return Some(Fault {
            place: place_at(line, tokens, 8),
            cause: SpecCause::Limit(LimitName::Arguments, MOST_ARGUMENTS as u32),
        });
    }
    None
}

// What is wrong with the line of a method that is right by its form and says these names.
pub(crate) fn judge_method(
    alloc: Global,
    kind: &KindDraft,
    line: &[u8],
    tokens: &[Token],
    name: &Name,
    arguments: &[Name],
    value: &Name,
) -> Result<Option<Fault>, NoMemory>
    requires short { length line.now < 2 ^ 32 - 1 }
    requires few { length arguments.now < 2 ^ 32 }
    ensures judged { IfOk result
        (Judged (MethodHas kind.now line.now tokens.now name.now arguments.now value.now)) }
    ensures room { IfOk result
        (λ found. IfNone found ((length kind.now.methods < MOST_METHODS) × (length arguments.now ≤ MOST_ARGUMENTS))) }
    ensures fresh { IfOk result
        (λ found. IfNone found (is_one_of name.now (names_of kind.now.methods) ≡ false)) }
    ensures different { IfOk result
        (λ found. IfNone found (AllPairs (λ x y. x ≢ y) (arguments.now ++ value.now ∷ []))) }
{
    if is_known(kind.methods(), name) {
        return Ok(Some(Fault {
            place: place_at(line, tokens, 1),
            cause: SpecCause::Duplicate,
        }));
    }
    if let Some(number) = first_repeated(alloc, arguments, value)? {
        return Ok(Some(Fault {
            place: place_at(line, tokens, variable_token(arguments.len(), number)),
            cause: SpecCause::Duplicate,
        }));
    }
    Ok(passed(kind, line, tokens, arguments))
}
