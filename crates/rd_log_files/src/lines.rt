//! Reading the lines of one log.
ghost use Rattle.std.specs.Prelude.{◌≡◌, ◌≢◌, ◌+◌, ◌<◌, ◌++◌, ℕ, List, [], Ok, Err, IfErr, OnOk};
ghost use Rattle.rd_base.specs.Limits.{AreUsable};
ghost use Rattle.rd_io.specs.Inputs.{Goes, Takes, Rose};
ghost use Rattle.rd_io.specs.LineReader.{fresh};
ghost use Rattle.rd_io.specs.Lines.{Reading};
ghost use Rattle.rd_io.specs.Lines.Reading.{line as then_line};
ghost use Rattle.rd_walk.specs.Progress.{with_feed};
ghost use Rattle.rd_log_files.specs.Gathered.{counted_lines, counted_log, ended_log};
ghost use Rattle.rd_log_files.specs.LogFiles.{TakesLines, ending_by};
ghost use Rattle.rd_log_files.specs.declared.unread.LogLimit.{LogLimit as Passed};

use crate::unread::{LogLimit, LogsUnread};
use rd_base::{Bytes, LimitName, Limits, NoMemory};
use rd_event::is_skipped;
use rd_io::{Inputs, LineReader, Next, ReadEnd};

// Counts a line of a log, if it isn't skipped; or says which limit it passes.
#[tactic(auto, using(crate::proofs::GatheredLemmas::counted_skipped, crate::proofs::GatheredLemmas::counted_one, crate::proofs::GatheredLemmas::counted_past))]
fn count_line(
    limits: &Limits,
    log: u64,
    number: u64,
    line: &[u8],
    events: &mut u32,
) -> Result<(), LogLimit>
    ensures counted { OnOk result ((more : Reading) →
        counted_lines limits.now log events.old number (then_line line.now more)
        ≡ counted_lines limits.now log events.new (number + 1) more) }
    ensures limit { IfErr result (λ passed. (more : Reading) →
        counted_lines limits.now log events.old number (then_line line.now more) ≡ Err passed) }
{
    if is_skipped(line) {
        return Ok(());
    }
    if *events >= limits.events {
        return Err(LogLimit {
            log,
            line: number,
            name: LimitName::Events,
            number: u64::from(limits.events),
        });
    }
    *events += 1;
    Ok(())
}

// Puts a line with its line feed behind the others.
fn keep_line(line: &[u8], text: &mut Bytes) -> Result<(), NoMemory>
    ensures { OnOk result (text.new ≡ text.old ++ with_feed line.now) }
{
    text.append(line)?;
    text.push(b'\n')
}

// Ends a log where the reader refused the line with this number: a limit is passed, a read failed, or the log ends by this rest, which is kept.
fn end_log(
    limits: &Limits,
    log: u64,
    number: u64,
    refused: ReadEnd,
    rest: &[u8],
    text: &mut Bytes,
) -> Result<(), LogsUnread>
    ensures kept { OnOk result ((refused ≡ ReadEnd.NoFinalNewline) × (text.new ≡ text.old ++ rest.now)) }
    ensures limit { IfErr result (λ unread. (passed : Passed) → unread ≡ LogsUnread.Limit passed → (refused ≢ ReadEnd.ReadFault)
        × ((events : ℕ) → ended_log limits.now log events number (ending_by refused) ≡ Err passed)) }
    ensures fault { result ≡ Err LogsUnread.Fault → refused ≡ ReadEnd.ReadFault }
    ensures calm { result ≢ Err LogsUnread.Fault → refused ≢ ReadEnd.ReadFault }
{
    let (name, most) = match refused {
        ReadEnd::ReadFault => return Err(LogsUnread::Fault),
        ReadEnd::LineTooLong => (LimitName::Line, u64::from(limits.line)),
        ReadEnd::BytesLimit => (LimitName::Bytes, limits.bytes),
        ReadEnd::NoFinalNewline => {
            text.append(rest)?;
            return Ok(());
        }
    };
    Err(LogsUnread::Limit(LogLimit {
        log,
        line: number,
        name,
        number: most,
    }))
}

/// Reads the lines of the current input, which was just opened, as those of the log with this number, where so many lines that aren't
/// skipped came before it. The text becomes the input's bytes.
pub(crate) fn read_lines<I: Inputs>(
    limits: &Limits,
    log: u64,
    reader: &mut LineReader,
    inputs: &mut I,
    events: &mut u32,
    text: &mut Bytes,
) -> Result<(), LogsUnread>
    requires usable { AreUsable limits.now }
    requires fresh { reader.old ≡ fresh limits.now }
    requires none { text.old ≡ [] }

    // all bytes were taken, and no limit is passed
    ensures read { OnOk result ((counted_log limits.now log events.old text.new ≡ Ok events.new)
        × Goes (I.told inputs.old) (I.told inputs.new) (λ old new. Takes old new text.new × (new.held ≡ []))) }

    // or a limit is passed
    ensures limit { IfErr result (λ unread. (passed : Passed) → unread ≡ LogsUnread.Limit passed →
        Goes (I.told inputs.old) (I.told inputs.new) (λ old new. counted_log limits.now log events.old old.held ≡ Err passed)) }

    // what was taken
    ensures taken { (taken : List ℕ) × TakesLines limits.now log events.old taken
        × Goes (I.told inputs.old) (I.told inputs.new) (λ old new. Takes old new taken) }

    // a read failed in this call exactly where the answer says so
    ensures calm { result ≢ Err LogsUnread.Fault → I.faults inputs.new ≡ I.faults inputs.old }
    ensures fault { result ≡ Err LogsUnread.Fault → Rose (I.faults inputs.old) (I.faults inputs.new) }
{
    'lines: loop {
        match reader.next(inputs) {
            Ok(Next::Line) => {}
            Ok(Next::End) => return Ok(()),
            Err(refused) => {
                return end_log(limits, log, reader.number(), refused, reader.line(), text);
            }
        }
        let number = reader.number();
        if let Err(passed) = count_line(limits, log, number, reader.line(), events) {
            return Err(LogsUnread::Limit(passed));
        }
        keep_line(reader.line(), text)?;
    }
}
