//! The lines of refusals.
ghost use Rattle.std.specs.Prelude.{◌≡◌, ◌++◌, decimal, flat_map, IfOk, OnOk};
ghost use Rattle.rd_weave_command.specs.Outcomes.{bad_log_line, log_limit_line, placed_text, refused_at, stuck_line};

use rd_base::{Bytes, NoMemory, append_limit, append_number};
use rd_log_files::LogLimit;
use std::alloc::Global;

// Puts a number behind the text, behind these bytes.
fn append_numbered(text: &mut Bytes, front: &[u8], number: u64) -> Result<(), NoMemory>
    ensures { OnOk result (text.new ≡ text.old ++ (front.now ++ decimal number)) }
{
    text.append(front)?;
    append_number(text, number)
}

// Puts behind it that a line of a log is refused.
fn append_refused(text: &mut Bytes, log: u64, line: u64) -> Result<(), NoMemory>
    ensures { OnOk result (text.new ≡ text.old ++ refused_at log line) }
{
    append_numbered(text, b"refused log ", log)?;
    append_numbered(text, b" line ", line)
}

/// That a line is bad. Both numbers are from 1.
pub(crate) fn bad_log_text(alloc: Global, log: u64, line: u64) -> Result<Bytes, NoMemory>
    ensures { IfOk result (λ text. text ≡ bad_log_line log line) }
{
    let mut text = Bytes::new(alloc);
    append_refused(&mut text, log, line)?;
    text.append(b" bad-log\n")?;
    Ok(text)
}

/// That a limit is passed.
pub(crate) fn log_limit_text(alloc: Global, passed: &LogLimit) -> Result<Bytes, NoMemory>
    ensures { IfOk result (λ text. text ≡ log_limit_line passed.now) }
{
    let mut text = Bytes::new(alloc);
    append_refused(&mut text, passed.log, passed.line)?;
    text.append(b" ")?;
    append_limit(&mut text, passed.name, passed.number)?;
    text.push(b'\n')?;
    Ok(text)
}

// Puts numbers behind the text, each behind a blank.
fn append_counts(text: &mut Bytes, counts: &[u32]) -> Result<(), NoMemory>
    ensures { OnOk result (text.new ≡ text.old ++ flat_map placed_text counts.now) }
{
    for count in counts {
        append_numbered(text, b" ", u64::from(*count))?;
    }
    Ok(())
}

/// How many events of each log were placed.
pub(crate) fn stuck_text(alloc: Global, counts: &[u32]) -> Result<Bytes, NoMemory>
    ensures { IfOk result (λ text. text ≡ stuck_line counts.now) }
{
    let mut text = Bytes::new(alloc);
    text.append(b"refused logs stuck")?;
    append_counts(&mut text, counts)?;
    text.push(b'\n')?;
    Ok(text)
}
