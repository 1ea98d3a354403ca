//! An ending as JSON.
ghost use Rattle.std.specs.Prelude.{◌≡◌, codes, IfOk};
ghost use Rattle.serde_json.specs.View.{view};
ghost use Rattle.rd_json.specs.Json.{cut_json, end_json, ending_json};
ghost use Rattle.rd_report.specs.Texts.{refused_words, replay_words};
ghost use Rattle.rd_report.specs.Writing.{ArePlain};
ghost use Rattle.rd_wf.specs.Roster.{names_in};

use crate::objects::append_object;
use crate::values::{cut_value, end_value};
use rd_base::{Bytes, NoMemory};
use rd_report::{Ending, refused_words, replay_words, verdict_words};
use rd_wf::Roster;
use std::alloc::Global;

// The end of a trace, behind which so many calls are reported, whose replay ended so, and of which this is shown.
fn end_json(alloc: Global, races: u64, replay: &[u8], verdict: &[u8]) -> Result<Bytes, NoMemory>
    requires { ArePlain replay.now × ArePlain verdict.now }
    ensures { IfOk result (λ text. text ≡ end_json races replay.now verdict.now) }
{
    let object = end_value(alloc, races, replay, verdict)?;
    let mut text = Bytes::new(alloc);
    append_object(&mut text, alloc, &object)?;
    Ok(text)
}

// A trace that was not read to its end, behind which so many calls are reported.
fn cut_json(alloc: Global, races: u64, ending: &[u8]) -> Result<Bytes, NoMemory>
    requires { ArePlain ending.now }
    ensures { IfOk result (λ text. text ≡ cut_json races ending.now) }
{
    let object = cut_value(alloc, races, ending)?;
    let mut text = Bytes::new(alloc);
    append_object(&mut text, alloc, &object)?;
    Ok(text)
}

/// How the lines of a trace end, as a line with one JSON object: `{"ending":"end","races":N,"replay":REPLAY,"verdict":VERDICT}`,
/// `{"ending":"refused line N CAUSE","races":N}` or `{"ending":"fault input","races":N}`. The roster has the names of the threads.
#[tactic(auto, using(crate::proofs::PlainLemmas::fault_plain))]
pub fn ending_json(
    alloc: Global,
    races: u64,
    ending: &Ending,
    names: &Roster,
) -> Result<Bytes, NoMemory>
    ensures { IfOk result (λ text. text ≡ ending_json (names_in names.now) races ending.now) }
{
    match ending {
        Ending::End { replay, shown } => end_json(
            alloc,
            races,
            replay_words(alloc, replay)?.items(),
            verdict_words(*shown),
        ),
        Ending::Refused { line, cause } => cut_json(
            alloc,
            races,
            refused_words(alloc, *line, *cause, names)?.items(),
        ),
        Ending::Fault => cut_json(alloc, races, b"fault input"),
    }
}
