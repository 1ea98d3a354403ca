//! Writing the lines of a trace.
ghost use Rattle.std.specs.Prelude.{◌≡◌, [], All, IfOk, OnOk, OnErr};
ghost use Rattle.rd_event.specs.Items.{IsSpellable, line_text, lines_text};
ghost use Rattle.rd_io.specs.Sinks.{Appends};
ghost use Rattle.rd_walk.specs.Analysis.{TellsFault, WritesFront};

use rd_base::{Bytes, NoMemory};
use rd_event::{Line, spell_line};
use rd_io::Sink;
use rd_walk::{Halt, write_line};
use std::alloc::Global;

// Writes a line with its line feed, by way of the text.
fn write_one<S: Sink>(text: &mut Bytes, line: &Line, out: &mut S) -> Result<(), Halt>
    requires { IsSpellable line.now }
    ensures ok { OnOk result (Appends (S.written out.old) (S.written out.new) (line_text line.now)) }
    ensures front { OnErr result (WritesFront (S.written out.old) (S.written out.new) [] (line_text line.now)) }
    ensures fault { TellsFault (S.faults out.old) (S.faults out.new) (S.at_fault out.new)
        (S.written out.new) result }
{
    spell_line(text, line)?;
    write_line(out, text.items())
}

/// Writes lines, each by itself with its line feed.
pub(crate) fn write_trace<S: Sink>(alloc: Global, lines: &[Line], out: &mut S) -> Result<(), Halt>
    requires { All IsSpellable lines.now }
    ensures ok { OnOk result (Appends (S.written out.old) (S.written out.new) (lines_text lines.now)) }
    ensures front { OnErr result (WritesFront (S.written out.old) (S.written out.new) [] (lines_text lines.now)) }
    ensures fault { TellsFault (S.faults out.old) (S.faults out.new) (S.at_fault out.new)
        (S.written out.new) result }
{
    let mut text = Bytes::new(alloc);
    for line in lines {
        write_one(&mut text, line, out)?;
    }
    Ok(())
}
