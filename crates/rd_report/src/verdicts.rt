//! What a report shows of the other orders of a run, in words.
ghost use Rattle.std.specs.Prelude.{◌≡◌, ◌++◌, OnOk};
ghost use Rattle.rd_report.specs.Texts.{verdict_line, verdict_words};
ghost use Rattle.rd_report.specs.Writing.{ArePlain};

use rd_base::{Bytes, NoMemory};

/// The verdict: its line without the first word and the line feed. It takes no memory, and its bytes are plain.
pub fn verdict_words(shown: bool) -> &'static [u8]
    ensures value { result.now ≡ verdict_words shown }
    ensures plain { ArePlain result.now }
{
    if shown {
        b"deterministic"
    } else {
        b"not shown"
    }
}

// Puts the line of the verdict behind the text.
pub(crate) fn append_verdict(text: &mut Bytes, shown: bool) -> Result<(), NoMemory>
    ensures { OnOk result (text.new ≡ text.old ++ verdict_line shown) }
{
    text.append(b"verdict ")?;
    text.append(verdict_words(shown))?;
    text.append(b"\n")
}
