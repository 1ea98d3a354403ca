//! The marks of a line.
ghost use Rattle.std.specs.Prelude.{◌≤◌, ◌^◌, length, All, IfOk};
ghost use Rattle.rd_tokens.specs.Tokens.{LiesIn};
ghost use Rattle.rd_tokens.specs.Words.{IsMark, AreMarks};

use crate::Token;
use crate::words::dialects::Dialect;
use crate::words::mark_list::Marks;
use crate::words::symbols::symbol;
use rd_base::NoMemory;
use rd_grammar::Mark;
use std::alloc::Global;

// The mark of a token of the line, with this number.
fn mark(dialect: Dialect, line: &[u8], number: u32, token: &Token) -> Mark
    requires { LiesIn line.now token.now }
    ensures { IsMark dialect line.now number token.now result }
{
    Mark {
        symbol: symbol(dialect, token.sort, token.bytes(line)),
        token: number,
    }
}

/// The marks of tokens of a line, each with its token's number from 0. Only the list takes memory.
pub fn marks(
    alloc: Global,
    dialect: Dialect,
    line: &[u8],
    tokens: &[Token],
) -> Result<Marks, NoMemory>
    requires within { All (LiesIn line.now) tokens.now }
    requires few { length tokens.now ≤ 2 ^ 32 }
    ensures { IfOk result (AreMarks dialect line.now tokens.now) }
{
    let mut marks = Marks::new(alloc);
    for (number, token) in tokens.iter().enumerate() {
        marks.push(mark(dialect, line, number as u32, token))?;
    }
    Ok(marks)
}
