//! The line of a method.
ghost use Rattle.std.specs.Prelude.{◌≡◌, ◌≤◌, ◌<◌, ◌+◌, ◌^◌, ◌∷◌, ℕ, List, All, IfOk, IfErr, codes, length};
ghost use Rattle.rd_tokens.specs.Tokens.{LiesIn};
ghost use Rattle.rd_lines.specs.declared.forms.Stage.TheVariants.{Methods};
ghost use Rattle.rd_lines.specs.declared.forms.Version.{Version};
ghost use Rattle.rd_lines.specs.Lines.{IsFormRefused, IsWrongBehind, RightLine, plain, said_of, words_of};
ghost use Rattle.rd_lines.specs.Reading.{AreInFront, SaysResult};

use crate::forms::{Form, FormRefused};
use crate::words::{token_is, token_name, variable_of};
use rd_base::{Name, NoMemory};
use rd_ecl::Names;
use rd_tokens::Token;
use std::alloc::Global;

// The variables in front, and the tokens behind them.
fn read_arguments<'a>(
    alloc: Global,
    line: &[u8],
    tokens: &'a [Token],
) -> Result<(Names, &'a [Token]), NoMemory>
    requires { All (LiesIn line.now) tokens.now }
    ensures front { IfOk result (λ read. AreInFront line.now tokens.now read.1.now read.0) }
    ensures within { IfOk result (λ read. All (LiesIn line.now) read.1.now) }
    ensures count { IfOk result (λ read. length read.0 + length read.1.now ≡ length tokens.now) }
{
    let mut names = Names::new(alloc);
    for (index, token) in tokens.iter().enumerate() {
        let Some(name) = variable_of(line, token) else {
            return Ok((names, &tokens[index..]));
        };
        names.push(name)?;
    }
    Ok((names, &tokens[tokens.len()..]))
}

// The result that is told behind the arguments, or the number of tokens before the first wrong one.
fn read_result(line: &[u8], tokens: &[Token]) -> Result<Name, u32>
    requires { All (LiesIn line.now) tokens.now }
    ensures ok { IfOk result (SaysResult (words_of line.now tokens.now)) }
    ensures refused { IfErr result (IsWrongBehind SaysResult (words_of line.now tokens.now)) }
    ensures bound { IfErr result (λ count. count ≤ length tokens.now) }
{
    let Some((first, behind)) = tokens.split_first() else {
        return Err(0);
    };
    if !token_is(line, first, "->") {
        return Err(0);
    }
    let Some((second, rest)) = behind.split_first() else {
        return Err(1);
    };
    let Some(name) = variable_of(line, second) else {
        return Err(1);
    };
    if !rest.is_empty() {
        return Err(2);
    }
    Ok(name)
}

// What a line with these tokens behind `method` says, which stands among methods.
pub(crate) fn read_method(alloc: Global, line: &[u8], tokens: &[Token]) -> Result<Form, FormRefused>
    requires within { All (LiesIn line.now) tokens.now }
    requires few { length tokens.now + 2 < 2 ^ 32 }
    ensures ok { IfOk result (λ form. (version : Version) (methods : List (List ℕ))
        → RightLine version Methods methods (plain (codes "method") ∷ words_of line.now tokens.now)
        (said_of form)) }
    ensures refused { IfErr result (λ refused. (version : Version) (methods : List (List ℕ))
        → IsFormRefused version Methods methods
        (plain (codes "method") ∷ words_of line.now tokens.now) refused) }
{
    let Some((second, rest)) = tokens.split_first() else {
        return Err(FormRefused::Syntax(1));
    };
    let Some(name) = token_name(line, second) else {
        return Err(FormRefused::Syntax(1));
    };
    let (arguments, behind) = read_arguments(alloc, line, rest)?;
    match read_result(line, behind) {
        Ok(result) => Ok(Form::Method {
            name,
            arguments,
            result,
        }),
        Err(count) => Err(FormRefused::Syntax(2 + arguments.items().len() as u32 + count)),
    }
}
