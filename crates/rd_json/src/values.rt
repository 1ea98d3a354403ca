//! The objects of a report.
ghost use Rattle.std.specs.Prelude.{◌≡◌, IfOk};
ghost use Rattle.serde_json.specs.View.{view};
ghost use Rattle.rd_json.specs.Values.{alone_value, call_value, cut_value, end_value, race_value};
ghost use Rattle.rd_report.specs.Writing.{ArePlain};

use crate::objects::plain_str;
use serde_json::{Value, json};
use std::alloc::{AllocError, Global};

// What is told of a call.
pub(crate) fn call_value(
    alloc: Global,
    call: &[u8],
    clock: &[u8],
    line: u64,
) -> Result<Value, AllocError>
    requires plain { ArePlain call.now × ArePlain clock.now }
    ensures { IfOk result (λ value. view value ≡ call_value call.now clock.now line) }
{
    let call = plain_str(call);
    let clock = plain_str(clock);
    json!(in alloc; {"call": call, "clock": clock, "line": line})
}

// A race, by what is told of its calls.
pub(crate) fn race_value(
    alloc: Global,
    earlier: Value,
    formula: &[u8],
    later: Value,
) -> Result<Value, AllocError>
    requires { ArePlain formula.now }
    ensures { IfOk result
        (λ value. view value ≡ race_value (view earlier) formula.now (view later)) }
{
    let formula = plain_str(formula);
    json!(in alloc; {"earlier": earlier, "formula": formula, "later": later})
}

// The end of a trace, how many calls are reported, how the replay ended, and what is shown.
pub(crate) fn end_value(
    alloc: Global,
    races: u64,
    replay: &[u8],
    verdict: &[u8],
) -> Result<Value, AllocError>
    requires { ArePlain replay.now × ArePlain verdict.now }
    ensures { IfOk result (λ value. view value ≡ end_value races replay.now verdict.now) }
{
    let replay = plain_str(replay);
    let verdict = plain_str(verdict);
    json!(in alloc; {"ending": "end", "races": races, "replay": replay, "verdict": verdict})
}

// Why a trace was not read to its end, and how many calls are reported.
pub(crate) fn cut_value(alloc: Global, races: u64, ending: &[u8]) -> Result<Value, AllocError>
    requires { ArePlain ending.now }
    ensures { IfOk result (λ value. view value ≡ cut_value races ending.now) }
{
    let ending = plain_str(ending);
    json!(in alloc; {"ending": ending, "races": races})
}

// Why a trace was not opened.
pub(crate) fn alone_value(alloc: Global, ending: &[u8]) -> Result<Value, AllocError>
    requires { ArePlain ending.now }
    ensures { IfOk result (λ value. view value ≡ alone_value ending.now) }
{
    let ending = plain_str(ending);
    json!(in alloc; {"ending": ending})
}
