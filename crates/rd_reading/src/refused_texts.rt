//! The line that tells where and why a specification is refused.
ghost use Rattle.std.specs.Prelude.{◌≡◌, ◌++◌, codes, IfOk, OnOk};
ghost use Rattle.rd_reading.specs.RefusedTexts.{reason_text, spec_cause_text, spec_refused_line};

use crate::{SpecCause, SpecRefused};
use rd_base::{Bytes, Name, NoMemory, append_limit, append_number};
use rd_ecl::Reason;
use std::alloc::Global;

#[tactic(auto, unfolding(crate::specs::RefusedTexts::reason_text))]
fn reason_text(reason: Reason) -> &'static [u8]
    ensures { result.now ≡ reason_text reason }
{
    match reason {
        Reason::CrossRelation => b"cross-relation",
        Reason::NotOverCross => b"not-over-cross",
        Reason::OrOfCross => b"or-of-cross",
    }
}

fn append_outside(text: &mut Bytes, reason: Reason) -> Result<(), NoMemory>
    ensures { OnOk result (text.new ≡ text.old ++ codes "outside-fragment " ++ reason_text reason) }
{
    text.append(b"outside-fragment ")?;
    text.append(reason_text(reason))
}

fn append_missing(text: &mut Bytes, first: &Name, second: &Name) -> Result<(), NoMemory>
    ensures { OnOk result
        (text.new ≡ text.old ++ codes "missing-pair " ++ first.now ++ codes " " ++ second.now) }
{
    text.append(b"missing-pair ")?;
    text.append(first.items())?;
    text.append(b" ")?;
    text.append(second.items())
}

#[tactic(auto, unfolding(crate::specs::RefusedTexts::spec_cause_text))]
fn append_cause(text: &mut Bytes, cause: &SpecCause) -> Result<(), NoMemory>
    ensures { OnOk result (text.new ≡ text.old ++ spec_cause_text cause.now) }
{
    match cause {
        SpecCause::Header => text.append(b"header"),
        SpecCause::Syntax => text.append(b"syntax"),
        SpecCause::UnknownMethod => text.append(b"unknown-method"),
        SpecCause::UnknownVariable => text.append(b"unknown-variable"),
        SpecCause::NoVariable => text.append(b"no-variable"),
        SpecCause::OutsideFragment(reason) => append_outside(text, *reason),
        SpecCause::Duplicate => text.append(b"duplicate"),
        SpecCause::MissingPair(first, second) => append_missing(text, first, second),
        SpecCause::KindTaken => text.append(b"kind-taken"),
        SpecCause::Limit(name, number) => append_limit(text, *name, u64::from(*number)),
    }
}

/// The line that tells where and why a specification is refused.
pub fn spec_refused_line(alloc: Global, refused: &SpecRefused) -> Result<Bytes, NoMemory>
    ensures { IfOk result (λ text. text ≡ spec_refused_line refused.now) }
{
    let mut text = Bytes::new(alloc);
    text.append(b"refused spec line ")?;
    append_number(&mut text, u64::from(refused.line))?;
    text.append(b" place ")?;
    append_number(&mut text, u64::from(refused.place))?;
    text.append(b" ")?;
    append_cause(&mut text, &refused.cause)?;
    text.append(b"\n")?;
    Ok(text)
}
