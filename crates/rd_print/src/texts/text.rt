//! Writing words as a text.
ghost use Rattle.std.specs.Prelude.{◌≡◌, [], ◌++◌, codes, if◌then◌else◌, OnErr, OnOk};
ghost use Rattle.rd_base.specs.Bytes.{IsFront};
ghost use Rattle.rd_print.specs.Text.{gap, words_text};

use crate::PrintedWord;
use rd_base::{Bytes, NoMemory};
use rd_tokens::Sort;

// Does a space stand between two words of these sorts?
fn has_space(first: Sort, second: Sort) -> bool
    ensures { gap first second ≡ (if result then codes " " else []) }
{
    first != Sort::Open && second != Sort::Close
}

// Puts last what stands between two words of these sorts.
fn append_gap(text: &mut Bytes, first: Sort, second: Sort) -> Result<(), NoMemory>
    ensures ok { OnOk result (text.new ≡ text.old ++ gap first second) }
    ensures err { OnErr result (text.new ≡ text.old) }
{
    if has_space(first, second) {
        text.push(b' ')
    } else {
        Ok(())
    }
}

/// Puts the text of words last. After want of memory a front of what would stand there does.
pub fn append_text(text: &mut Bytes, words: &[PrintedWord]) -> Result<(), NoMemory>
    ensures ok { OnOk result (text.new ≡ text.old ++ words_text words.now) }
    ensures err { OnErr result (IsFront text.new (text.old ++ words_text words.now)) }
{
    // no space stands before the first word, as behind `(`
    let mut before = Sort::Open;
    for word in words {
        append_gap(text, before, word.sort)?;
        text.append(word.bytes.items())?;
        before = word.sort;
    }
    Ok(())
}
