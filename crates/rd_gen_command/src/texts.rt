//! The text of a generated trace.
ghost use Rattle.std.specs.Prelude.{◌≡◌, ◌≤◌, ℕ, List, [], IfOk, OnOk, OnErr};
ghost use Rattle.rd_event.specs.Items.{IsSpellable, line_text, lines_text};
ghost use Rattle.rd_gen_command.specs.GeneratedTexts.{gen_text_outcome};
ghost use Rattle.rd_gen.specs.declared.counts.TheConstants.{MOST_CALLS};
ghost use Rattle.rd_io.specs.Sinks.{Appends};
ghost use Rattle.rd_walk.specs.Analysis.{TellsFault, WritesFront};
ghost use Rattle.rd_walk.specs.Output.{IsOutput, ended_status};

use rd_base::{Bytes, NoMemory};
use rd_event::{Line, spell_line};
use rd_gen::Generator;
use rd_io::Sink;
use rd_walk::{Ended, Halt, write_line};
use std::alloc::Global;

// Writes a line with its line feed, by way of the text.
fn write_spelled<S: Sink>(text: &mut Bytes, line: &Line, out: &mut S) -> Result<(), Halt>
    requires { IsSpellable line.now }
    ensures ok { OnOk result (Appends (S.written out.old) (S.written out.new)
        (line_text line.now)) }
    ensures front { OnErr result (WritesFront (S.written out.old) (S.written out.new) []
        (line_text line.now)) }
    ensures fault { TellsFault (S.faults out.old) (S.faults out.new) (S.at_fault out.new)
        (S.written out.new) result }
{
    spell_line(text, line)?;
    write_line(out, text.items())
}

// Writes the lines that a generator has still to give, each by itself.
fn write_rest<S: Sink>(alloc: Global, generator: &mut Generator, out: &mut S) -> Result<(), Halt>
    ensures ok { OnOk result (Appends (S.written out.old) (S.written out.new)
        (lines_text generator.old.lines)) }
    ensures front { OnErr result (WritesFront (S.written out.old) (S.written out.new) []
        (lines_text generator.old.lines)) }
    ensures fault { TellsFault (S.faults out.old) (S.faults out.new) (S.at_fault out.new)
        (S.written out.new) result }
{
    let mut text = Bytes::new(alloc);
    let mut line = Line::Skip;
    while generator.next_into(&mut line)? {
        write_spelled(&mut text, &line, out)?;
    }
    Ok(())
}

/// Writes the lines of the trace of this number with so many calls, each handed to the output by itself.
pub(crate) fn write_text<S: Sink>(
    alloc: Global,
    number: u64,
    count: u32,
    out: &mut S,
) -> Result<Ended, Halt>
    requires { count ≤ MOST_CALLS }

    // the whole is written, or a front of it where writing failed or memory ran out; and a failed write is told as one
    ensures output { (part : List ℕ) × Appends (S.written out.old) (S.written out.new) part
        × IsOutput (ended_status result) part (gen_text_outcome number count) }
    ensures clean { IfOk result (λ end. end ≡ Ended.Clean) }
    ensures fault { TellsFault (S.faults out.old) (S.faults out.new) (S.at_fault out.new)
        (S.written out.new) result }
{
    let mut generator = Generator::new(alloc, number, count);
    write_rest(alloc, &mut generator, out)?;
    Ok(Ended::Clean)
}
