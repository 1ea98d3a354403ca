//! Reading a whole log.
ghost use Rattle.std.specs.Prelude.{◌≡◌, ◌+◌, ◌<◌, ◌≤◌, ◌^◌, ℕ, Ok, Err, IfNone, IfOk, IfErr, IfSome, OnOk, length};
ghost use Rattle.rd_io.specs.Lines.{part, parts_of, rest as rest_of};
ghost use Rattle.rd_logs.specs.WholeLogs.{added, log_lines_from, log_of, of_thread, record_of, said_by, said_in};

use crate::lines::{LogEvent, LogLine, LogObject};
use crate::reading::{read_log_header, read_log_line};
use memchr::memchr;
use rd_base::{Bytes, Name, NoMemory};
use rd_event::{LineEvent, LineRefused, is_skipped};
use std::alloc::Global;

/// The text of a log, with the line feeds of its lines.
#[derive(Drop)]
pub struct Log {
    pub bytes: Bytes,
}

/// A log that was read: whose it is, the objects that it declares, and its events, each in the order of their lines.
#[derive(Drop)]
pub struct ReadLog {
    pub thread: Name,
    pub objects: Vec<LogObject>,
    pub events: Vec<LogEvent>,
}

// What lines behind the header say.
#[derive(Drop)]
struct Said {
    objects: Vec<LogObject>,
    events: Vec<LogEvent>,
}

/// Why a log isn't read.
#[derive(Clone, Copy, PartialEq, Eq)]
pub enum LogRefused {
    /// the line with this number, from 1, says nothing, has no line feed, or should be the header and isn't; where the bytes end before a header, the number
    /// of their lines and one
    BadLine(u64),
    /// memory ran out
    NoMemory,
}

impl From<NoMemory> for LogRefused {
    ghost use Rattle.std.specs.Prelude.{◌≡◌};
    ghost use Rattle.rd_logs.specs.declared.whole.LogRefused.TheVariants.{NoMemory as MemoryRanOut};

    ghost from_gives = { λ _ refused. refused ≡ MemoryRanOut };

    fn from(_error: NoMemory) -> LogRefused {
        LogRefused::NoMemory
    }
}

// What stands behind a log's header.
#[derive(Drop)]
struct Begun<'a> {
    thread: Name,
    number: u64,
    rest: &'a [u8],
}

// The first line, and what stands behind its line feed; nothing where there is none.
fn cut_line(text: &[u8]) -> Option<(&[u8], &[u8])>
    ensures some { IfSome result (λ parts. parts_of text.now ≡ part parts.0.now (parts_of parts.1.now)) }
    ensures less { IfSome result (λ parts. length parts.1.now < length text.now) }
    ensures none { IfNone result (parts_of text.now ≡ rest_of text.now) }
{
    let at = memchr(b'\n', text)?;
    Some((&text[..at], &text[at + 1..]))
}

// Finds the header, which is the first line that isn't skipped; or the number of the line that should be it.
fn find_header(bytes: &[u8]) -> Result<Begun, u64>
    ensures ok { IfOk result (λ begun. log_of bytes.now ≡ of_thread begun.thread (log_lines_from begun.thread begun.number (parts_of begun.rest.now))) }
    ensures few { IfOk result (λ begun. begun.number + length begun.rest.now ≤ length bytes.now + 1) }
    ensures err { IfErr result (λ number. log_of bytes.now ≡ Err number) }
{
    let mut rest = bytes;
    let mut number = 1;
    while !rest.is_empty() {
        let Some((line, behind)) = cut_line(rest) else {
            return Err(number);
        };
        if !is_skipped(line) {
            let Some(thread) = read_log_header(line) else {
                return Err(number);
            };
            return Ok(Begun {
                thread,
                number: number + 1,
                rest: behind,
            });
        }
        number += 1;
        rest = behind;
    }
    Err(number)
}

// Keeps what a line says, if it isn't skipped.
fn keep(thread: &Name, said: &mut Said, line: LogLine) -> Result<(), NoMemory>
    ensures { OnOk result (said_in said.new ≡ added (said_in said.old) (said_by thread.now line)) }
{
    match line {
        LogLine::Skip => Ok(()),
        LogLine::Object { name, kind } => {
            said.objects.push(LogObject { name, kind })?;
            Ok(())
        }
        LogLine::Event(event) => {
            said.events.push(LogEvent { event, number: 0 })?;
            Ok(())
        }
        LogLine::Acquire { lock, number } => {
            let thread = thread.copy();
            let event = LineEvent::Acquire { thread, lock };
            said.events.push(LogEvent { event, number })?;
            Ok(())
        }
    }
}

// Reads the lines behind the header, of which the first has this number.
fn read_lines(alloc: Global, thread: &Name, first: u64, bytes: &[u8]) -> Result<Said, LogRefused>
    requires { first + length bytes.now < 2 ^ 64 }
    ensures ok { IfOk result (λ said. log_lines_from thread.now first (parts_of bytes.now) ≡ Ok (said_in said)) }
    ensures bad { IfErr result (λ e. (number : ℕ) → e ≡ LogRefused.BadLine number → log_lines_from thread.now first (parts_of bytes.now) ≡ Err number) }
{
    let mut said = Said {
        objects: Vec::new(alloc),
        events: Vec::new(alloc),
    };
    let mut rest = bytes;
    let mut number = first;
    while !rest.is_empty() {
        let Some((line, behind)) = cut_line(rest) else {
            return Err(LogRefused::BadLine(number));
        };
        let line = match read_log_line(alloc, thread, line) {
            Ok(line) => line,
            Err(LineRefused::BadLine) => return Err(LogRefused::BadLine(number)),
            Err(LineRefused::NoMemory) => return Err(LogRefused::NoMemory),
        };
        keep(thread, &mut said, line)?;
        number += 1;
        rest = behind;
    }
    Ok(said)
}

/// Reads a log: `log_of` says whose it is and what its lines say, or which line is the first bad one.
pub fn read_log(alloc: Global, bytes: &[u8]) -> Result<ReadLog, LogRefused>
    ensures ok { IfOk result (λ log. log_of bytes.now ≡ Ok (record_of log)) }
    ensures bad { IfErr result (λ e. (number : ℕ) → e ≡ LogRefused.BadLine number → log_of bytes.now ≡ Err number) }
{
    let begun = match find_header(bytes) {
        Ok(begun) => begun,
        Err(number) => return Err(LogRefused::BadLine(number)),
    };
    let said = read_lines(alloc, &begun.thread, begun.number, begun.rest)?;
    Ok(ReadLog {
        thread: begun.thread,
        objects: said.objects,
        events: said.events,
    })
}
