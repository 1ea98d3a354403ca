//! How a trace ends, in words.
ghost use Rattle.std.specs.Prelude.{◌≡◌, ◌++◌, codes, decimal, IfOk, OnOk};
ghost use Rattle.rd_report.specs.Texts.{cause_text, wf_text, races_line, refused_line, refused_words, ending_text, name_of};
ghost use Rattle.rd_report.specs.Writing.{ArePlain};
ghost use Rattle.rd_wf.specs.Roster.{names_in};

use crate::endings::Ending;
use crate::numbers::{append_decimal, append_passed};
use crate::replays::append_replay;
use crate::verdicts::append_verdict;
use rd_base::{Bytes, NoMemory, append_number};
use rd_wf::{Roster, TraceCause, WfCause};
use std::alloc::Global;

// Puts the name of a thread behind the text, and nothing where no thread has the number.
#[tactic(auto, using(crate::proofs::PlainLemmas::none_plain))]
fn append_thread(text: &mut Bytes, names: &Roster, thread: u32) -> Result<(), NoMemory>
    ensures text { OnOk result (text.new ≡ text.old ++ name_of (names_in names.now) thread) }
    ensures plain { OnOk result (ArePlain (name_of (names_in names.now) thread)) }
{
    if names.threads() <= thread {
        return Ok(());
    }
    text.append(names.thread_name(thread).items())
}

#[tactic(auto, unfolding(crate::specs::Texts::wf_text))]
fn append_wf(text: &mut Bytes, names: &Roster, cause: WfCause) -> Result<(), NoMemory>
    ensures text { OnOk result (text.new ≡ text.old ++ wf_text (names_in names.now) cause) }
    ensures plain { OnOk result (ArePlain (wf_text (names_in names.now) cause)) }
{
    match cause {
        WfCause::HeaderFirst => text.append(b"header-first"),
        WfCause::LateRoot => text.append(b"late-root"),
        WfCause::NameTaken => text.append(b"name-taken"),
        WfCause::UnknownThread => text.append(b"unknown-thread"),
        WfCause::ThreadEnded => text.append(b"thread-ended"),
        WfCause::OwnThread => text.append(b"own-thread"),
        WfCause::UnknownKind => text.append(b"unknown-kind"),
        WfCause::UnknownObject => text.append(b"unknown-object"),
        WfCause::UnknownMethod => text.append(b"unknown-method"),
        WfCause::WrongCount => text.append(b"wrong-count"),
        WfCause::LockHeld(holder) => {
            text.append(b"lock-held ")?;
            append_thread(text, names, holder)
        }
        WfCause::NotHeld => text.append(b"not-held"),
        WfCause::Limit(name, number) => append_passed(text, name, u64::from(number)),
    }
}

#[tactic(auto, unfolding(crate::specs::Texts::cause_text))]
fn append_cause(text: &mut Bytes, names: &Roster, cause: TraceCause) -> Result<(), NoMemory>
    ensures text { OnOk result (text.new ≡ text.old ++ cause_text (names_in names.now) cause) }
    ensures plain { OnOk result (ArePlain (cause_text (names_in names.now) cause)) }
{
    match cause {
        TraceCause::BadLine => text.append(b"bad-line"),
        TraceCause::NoFinalNewline => text.append(b"no-final-newline"),
        TraceCause::Wf(broken) => append_wf(text, names, broken),
        TraceCause::Limit(name, number) => append_passed(text, name, number),
    }
}

// Puts the line behind the text that tells how many calls are reported.
fn append_races(text: &mut Bytes, races: u64) -> Result<(), NoMemory>
    ensures { OnOk result (text.new ≡ text.old ++ races_line races) }
{
    text.append(b"races ")?;
    append_number(text, races)?;
    text.append(b"\n")
}

// Puts behind the text which line of a trace is refused, and why.
fn append_refused_words(
    text: &mut Bytes,
    names: &Roster,
    number: u64,
    cause: TraceCause,
) -> Result<(), NoMemory>
    ensures text { OnOk result
        (text.new ≡ text.old ++ refused_words (names_in names.now) number cause) }
    ensures plain { OnOk result (ArePlain (refused_words (names_in names.now) number cause)) }
{
    text.append(b"refused line ")?;
    append_decimal(text, number)?;
    text.append(b" ")?;
    append_cause(text, names, cause)
}

// Puts the line behind the text that tells which line of a trace is refused, and why.
fn append_refused(
    text: &mut Bytes,
    names: &Roster,
    number: u64,
    cause: TraceCause,
) -> Result<(), NoMemory>
    ensures { OnOk result (text.new ≡ text.old ++ refused_line (names_in names.now) number cause) }
{
    append_refused_words(text, names, number, cause)?;
    text.append(b"\n")
}

/// The line of a refusal without its line feed. The roster has the names of the threads. Its bytes are plain.
pub fn refused_words(
    alloc: Global,
    line: u64,
    cause: TraceCause,
    names: &Roster,
) -> Result<Bytes, NoMemory>
    ensures text { IfOk result (λ text. text ≡ refused_words (names_in names.now) line cause) }
    ensures plain { IfOk result ArePlain }
{
    let mut text = Bytes::new(alloc);
    append_refused_words(&mut text, names, line, cause)?;
    Ok(text)
}

/// The line of a refusal: which line of a trace is refused, and why. The roster has the names of the threads.
pub fn refused_text(
    alloc: Global,
    line: u64,
    cause: TraceCause,
    names: &Roster,
) -> Result<Bytes, NoMemory>
    ensures { IfOk result (λ text. text ≡ refused_line (names_in names.now) line cause) }
{
    let mut text = Bytes::new(alloc);
    append_refused(&mut text, names, line, cause)?;
    Ok(text)
}

// Puts the text behind the races behind this one.
fn append_ending(
    text: &mut Bytes,
    races: u64,
    ending: &Ending,
    names: &Roster,
) -> Result<(), NoMemory>
    ensures { OnOk result (text.new ≡ text.old ++ ending_text (names_in names.now) races ending.now) }
{
    append_races(text, races)?;
    match ending {
        Ending::End { replay, shown } => {
            append_replay(text, replay)?;
            append_verdict(text, *shown)
        }
        Ending::Refused { line, cause } => append_refused(text, names, *line, *cause),
        Ending::Fault => text.append(b"fault input\n"),
    }
}

/// The text behind the races: how many calls are reported, and how the replay ended and what is shown, or where and why the trace was
/// refused, or that it could not be read on. The roster has the names of the threads.
pub fn ending_text(
    alloc: Global,
    races: u64,
    ending: &Ending,
    names: &Roster,
) -> Result<Bytes, NoMemory>
    ensures { IfOk result (λ text. text ≡ ending_text (names_in names.now) races ending.now) }
{
    let mut text = Bytes::new(alloc);
    append_ending(&mut text, races, ending, names)?;
    Ok(text)
}
