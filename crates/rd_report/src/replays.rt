//! How a replay ends, in words.
ghost use Rattle.std.specs.Prelude.{◌≡◌, ◌++◌, codes, decimal, IfOk, OnOk};
ghost use Rattle.rd_report.specs.Texts.{expected_text, replay_line, replay_words};
ghost use Rattle.rd_report.specs.Writing.{ArePlain};

use crate::numbers::append_decimal;
use rd_base::{Bytes, NoMemory, append_value};
use rd_object::{Expected, ReplayEnd};
use std::alloc::Global;

// Puts behind the text what a machine gives in place of what was recorded.
#[tactic(auto, unfolding(crate::specs::Texts::expected_text))]
fn append_expected(text: &mut Bytes, expected: &Expected) -> Result<(), NoMemory>
    ensures text { OnOk result (text.new ≡ text.old ++ expected_text expected.now) }
    ensures plain { OnOk result (ArePlain (expected_text expected.now)) }
{
    match expected {
        Expected::Value(value) => {
            text.append(b"expected ")?;
            append_value(text, value)
        }
        Expected::BadArgument(argument) => {
            text.append(b"argument ")?;
            append_decimal(text, u64::from(*argument) + 1)
        }
    }
}

// Puts behind the text which line of a trace gave something else, and what a machine gives there.
fn append_differs(text: &mut Bytes, number: u64, expected: &Expected) -> Result<(), NoMemory>
    ensures text { OnOk result
        (text.new ≡ text.old ++ (codes "differs line " ++ decimal number ++ codes " " ++ expected_text expected.now)) }
    ensures plain { OnOk result
        (ArePlain (codes "differs line " ++ decimal number ++ codes " " ++ expected_text expected.now)) }
{
    text.append(b"differs line ")?;
    append_decimal(text, number)?;
    text.append(b" ")?;
    append_expected(text, expected)
}

// Puts behind the text how a replay ended.
#[tactic(auto, unfolding(crate::specs::Texts::replay_words))]
fn append_replay_words(text: &mut Bytes, end: &ReplayEnd) -> Result<(), NoMemory>
    ensures text { OnOk result (text.new ≡ text.old ++ replay_words end.now) }
    ensures plain { OnOk result (ArePlain (replay_words end.now)) }
{
    match end {
        ReplayEnd::Exact => text.append(b"exact"),
        ReplayEnd::Differs { line, expected } => append_differs(text, *line, expected),
        ReplayEnd::NotShipped => text.append(b"not shipped"),
    }
}

/// Puts the line behind the text that tells how a replay ended: `replay exact`, `replay differs line N expected VALUE`, `replay differs
/// line N argument K`, where arguments are counted from 1, or `replay not shipped`. After want of memory the text may have a front of it.
pub fn append_replay(text: &mut Bytes, end: &ReplayEnd) -> Result<(), NoMemory>
    ensures { OnOk result (text.new ≡ text.old ++ replay_line end.now) }
{
    text.append(b"replay ")?;
    append_replay_words(text, end)?;
    text.append(b"\n")
}

/// How a replay ended: its line without the first word and the line feed. Its bytes are plain.
pub fn replay_words(alloc: Global, end: &ReplayEnd) -> Result<Bytes, NoMemory>
    ensures text { IfOk result (λ text. text ≡ replay_words end.now) }
    ensures plain { IfOk result ArePlain }
{
    let mut text = Bytes::new(alloc);
    append_replay_words(&mut text, end)?;
    Ok(text)
}

/// The line that tells how a replay ended.
pub fn replay_text(alloc: Global, end: &ReplayEnd) -> Result<Bytes, NoMemory>
    ensures { IfOk result (λ text. text ≡ replay_line end.now) }
{
    let mut text = Bytes::new(alloc);
    append_replay(&mut text, end)?;
    Ok(text)
}
