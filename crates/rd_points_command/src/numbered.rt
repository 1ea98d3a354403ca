//! Texts by their numbers, written one after another.
ghost use Rattle.std.specs.Prelude.{◌≡◌, ◌++◌, ◌<◌, ◌≤◌, ℕ, List, [], OnErr, OnOk};
ghost use Rattle.rd_io.specs.Sinks.{Appends};
ghost use Rattle.rd_points.specs.Classes.{joined};
ghost use Rattle.rd_walk.specs.Analysis.{TellsFault, WritesFront};

use rd_base::{Bytes, NoMemory};
use rd_io::Sink;
use rd_walk::{Halt, write_lines};

// Lines, some for each number.
pub(crate) trait Numbered {
    // those of a number
    ghost text_of: { Self → ℕ → List ℕ };

    // how many numbers there are
    ghost count: { Self → ℕ };

    // Puts those of a number behind the text.
    fn append(&self, text: &mut Bytes, number: u32) -> Result<(), NoMemory>
        requires { number < count self.now }
        ensures { OnOk result (text.new ≡ text.old ++ text_of self.now number) };
}

// Writes the lines of a number. The text is kept for its memory.
fn write_one<N: Numbered, S: Sink>(
    text: &mut Bytes,
    numbered: &N,
    number: u32,
    out: &mut S,
) -> Result<(), Halt>
    requires { number < N.count numbered.now }
    ensures ok { OnOk result (Appends (S.written out.old) (S.written out.new)
        (N.text_of numbered.now number)) }
    ensures front { OnErr result (WritesFront (S.written out.old) (S.written out.new) []
        (N.text_of numbered.now number)) }
    ensures fault { TellsFault (S.faults out.old) (S.faults out.new) (S.at_fault out.new)
        (S.written out.new) result }
{
    text.clear();
    numbered.append(text, number)?;
    write_lines(out, text.items())
}

// Writes the lines of the numbers 0, 1, .. below this one. The text is kept for its memory.
pub(crate) fn write_numbered<N: Numbered, S: Sink>(
    text: &mut Bytes,
    numbered: &N,
    count: u32,
    out: &mut S,
) -> Result<(), Halt>
    requires { count ≤ N.count numbered.now }
    ensures ok { OnOk result (Appends (S.written out.old) (S.written out.new)
        (joined (N.text_of numbered.now) count)) }
    ensures front { OnErr result (WritesFront (S.written out.old) (S.written out.new) []
        (joined (N.text_of numbered.now) count)) }
    ensures fault { TellsFault (S.faults out.old) (S.faults out.new) (S.at_fault out.new)
        (S.written out.new) result }
{
    for number in 0..count {
        write_one(text, numbered, number, out)?;
    }
    Ok(())
}
