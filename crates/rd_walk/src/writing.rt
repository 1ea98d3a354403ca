//! Writing lines.
ghost use Rattle.std.specs.Prelude.{◌≡◌, ◌≢◌, ◌<◌, [], ◌++◌, length, OnOk, OnErr, IfErr};
ghost use Rattle.rd_io.specs.Sinks.{Appends};
ghost use Rattle.rd_walk.specs.Analysis.{TellsFault, WritesFront};
ghost use Rattle.rd_walk.specs.Output.{halted_with};

use crate::analysis::Halt;
use crate::status::Status;
use memchr::memchr;
use rd_io::{Sink, write_all};

/// Hands a line to the output.
pub fn write_line<S: Sink>(out: &mut S, line: &[u8]) -> Result<(), Halt>
    ensures ok { OnOk result (Appends (S.written out.old) (S.written out.new) line.now) }
    ensures front { OnErr result (WritesFront (S.written out.old) (S.written out.new) [] line.now) }
    ensures fault { TellsFault (S.faults out.old) (S.faults out.new) (S.at_fault out.new)
        (S.written out.new) result }
    ensures only { IfErr result (λ halt. halt ≡ Halt.OutputFault) }
{
    match write_all(out, line) {
        Ok(()) => Ok(()),
        Err(_) => Err(Halt::OutputFault),
    }
}

// The first line of a text that isn't empty, with its line feed, and what stands behind it.
fn cut_line(text: &[u8]) -> (&[u8], &[u8])
    requires { text.now ≢ [] }
    ensures parts { text.now ≡ result.0.now ++ result.1.now }
    ensures less { length result.1.now < length text.now }
{
    match memchr(b'\n', text) {
        Some(at) => (&text[..at + 1], &text[at + 1..]),
        None => (text, &text[text.len()..]),
    }
}

/// Hands the lines of a text to the output, each by itself. Nothing is written behind one that could not be.
pub fn write_lines<S: Sink>(out: &mut S, text: &[u8]) -> Result<(), Halt>
    ensures ok { OnOk result (Appends (S.written out.old) (S.written out.new) text.now) }
    ensures front { OnErr result (WritesFront (S.written out.old) (S.written out.new) [] text.now) }
    ensures fault { TellsFault (S.faults out.old) (S.faults out.new) (S.at_fault out.new)
        (S.written out.new) result }
    ensures only { IfErr result (λ halt. halt ≡ Halt.OutputFault) }
{
    let mut rest = text;
    while !rest.is_empty() {
        let (line, behind) = cut_line(rest);
        write_line(out, line)?;
        rest = behind;
    }
    Ok(())
}

/// The status of a run that was cut short.
pub fn status_of(halt: Halt) -> Status
    ensures { result ≡ halted_with halt }
{
    match halt {
        Halt::OutputFault => Status::OutputFault,
        Halt::NoMemory => Status::NoMemory,
    }
}
