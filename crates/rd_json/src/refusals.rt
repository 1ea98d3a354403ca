//! A refused specification as JSON.
ghost use Rattle.std.specs.Prelude.{◌≡◌, codes, IfOk};
ghost use Rattle.rd_json.specs.Json.{alone_json, spec_refused_json, spec_refused_words};
ghost use Rattle.rd_reading.specs.RefusedTexts.{spec_cause_text};
ghost use Rattle.rd_report.specs.Writing.{ArePlain};

use crate::objects::{append_object, inside};
use crate::values::alone_value;
use rd_base::{Bytes, NoMemory};
use rd_reading::{SpecCause, SpecRefused, spec_refused_line};
use std::alloc::Global;

// What is told where a trace is not opened.
fn alone_json(alloc: Global, ending: &[u8]) -> Result<Bytes, NoMemory>
    requires { ArePlain ending.now }
    ensures { IfOk result (λ text. text ≡ alone_json ending.now) }
{
    let object = alone_value(alloc, ending)?;
    let mut text = Bytes::new(alloc);
    append_object(&mut text, alloc, &object)?;
    Ok(text)
}

// The text of a cause is plain.
fn plain_cause(cause: &SpecCause)
    ensures { ArePlain (spec_cause_text cause.now) }
{
    // their clauses say what is known of names, and the range of a number
    match cause {
        SpecCause::MissingPair(first, second) => {
            let _first = first.items();
            let _second = second.items();
        }
        SpecCause::Limit(_, number) => {
            let _number = u64::from(*number);
        }
        _ => {}
    }
}

// And so is that of a refusal.
fn plain_refusal(refused: &SpecRefused)
    ensures { ArePlain (spec_refused_words refused.now) }
{
    plain_cause(&refused.cause);
    let _line = u64::from(refused.line);
    let _place = u64::from(refused.place);
}

/// Where and why a specification is refused, as a line with one JSON object: `{"ending":"refused spec line L place P CAUSE"}`.
pub fn spec_refused_json(alloc: Global, refused: &SpecRefused) -> Result<Bytes, NoMemory>
    ensures { IfOk result (λ text. text ≡ spec_refused_json refused.now) }
{
    plain_refusal(refused);
    let line = spec_refused_line(alloc, refused)?;
    alone_json(alloc, inside(line.items(), 0))
}
