//! What stands behind `when`.
ghost use Rattle.std.specs.Prelude.{◌≡◌, ◌≤◌, All, IfOk, IfErr, length};
ghost use Rattle.rd_tokens.specs.Tokens.{LiesIn};
ghost use Rattle.rd_grammar.specs.Grammar.{parsed_tree};
ghost use Rattle.rd_lines.specs.Lines.{words_of};
ghost use Rattle.rd_lines.specs.Reading.{IsRefusedBehindWhen, WordsSayFormula, behind_when, count_of};

use crate::forms::FormRefused;
use rd_base::MOST_TOKENS;
use rd_grammar::{MarksRefused, Parsed, parse_formula};
use rd_tokens::{Dialect, Token, marks};
use std::alloc::Global;

// The formula that the tokens say.
pub(crate) fn read_formula(
    alloc: Global,
    dialect: Dialect,
    line: &[u8],
    tokens: &[Token],
) -> Result<Parsed, MarksRefused>
    requires within { All (LiesIn line.now) tokens.now }
    requires few { length tokens.now ≤ MOST_TOKENS }
    ensures ok { IfOk result
        (λ parsed. WordsSayFormula dialect (words_of line.now tokens.now) (parsed_tree parsed)) }
    ensures refused { IfErr result (IsRefusedBehindWhen dialect (words_of line.now tokens.now)) }
    ensures bound { IfErr result (λ refused. count_of refused ≤ MOST_TOKENS) }
{
    let marks = marks(alloc, dialect, line, tokens)?;
    parse_formula(alloc, marks.items())
}

// The refusal of what stands behind `when`, as one of the line.
pub(crate) fn behind_when(refused: MarksRefused) -> FormRefused
    requires { count_of refused ≤ MOST_TOKENS }
    ensures { result ≡ behind_when refused }
{
    match refused {
        MarksRefused::Syntax(count) => FormRefused::Syntax(4 + count),
        MarksRefused::NoMemory => FormRefused::NoMemory,
    }
}
