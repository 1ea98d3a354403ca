//! Reading a line.
ghost use Rattle.std.specs.Prelude.{◌≡◌, ◌≢◌, ◌<◌, ◌-◌, ◌^◌, codes, length, All, IfOk, IfErr, IfSome, IfNone};
ghost use Rattle.rd_ecl.specs.Specified.{names_of};
ghost use Rattle.rd_tokens.specs.Tokens.{LiesIn};
ghost use Rattle.rd_lines.specs.declared.forms.FormRefused.TheVariants.{NoMemory as MemoryRefused};
ghost use Rattle.rd_lines.specs.declared.forms.Version.TheVariants.{Two};
ghost use Rattle.rd_lines.specs.Lines.{BeginsKind, HasFewWords, IsFormRefused, RightLine, plain, said_of, word_at, words_of};
ghost use Rattle.rd_lines.specs.Reading.{BeginsLine, BeginsNothing, MayDefault, MayDefine};

use crate::definitions::{read_default, read_define};
use crate::forms::{Form, FormRefused, Stage, Version};
use crate::kinds::read_kind;
use crate::methods::read_method;
use crate::pairs::read_commute;
use crate::words::token_is;
use rd_ecl::Method;
use rd_tokens::Token;
use std::alloc::Global;

// What begins a line.
#[derive(Clone, Copy)]
enum Head {
    Kind,
    Method,
    Commute,
    Define,
    Default,
}

// What the token begins that version 2 alone has, where such a line may stand.
fn beginning_of_two(stage: Stage, line: &[u8], token: &Token) -> Option<Head>
    requires { LiesIn line.now token.now }
    ensures some { IfSome result (BeginsLine Two stage (word_at line.now token.now)) }
    ensures define { IfNone result
        (MayDefine Two stage → word_at line.now token.now ≢ plain (codes "define")) }
    ensures default { IfNone result
        (MayDefault Two stage → word_at line.now token.now ≢ plain (codes "default")) }
{
    if token_is(line, token, "define") {
        return match stage {
            Stage::Methods | Stage::Definitions => Some(Head::Define),
            Stage::Outside | Stage::Defaulted | Stage::Pairs => None,
        };
    }
    if token_is(line, token, "default") {
        return match stage {
            Stage::Methods | Stage::Definitions | Stage::Defaulted => Some(Head::Default),
            Stage::Outside | Stage::Pairs => None,
        };
    }
    None
}

// What the token begins, where such a line may stand.
fn beginning(version: Version, stage: Stage, line: &[u8], token: &Token) -> Option<Head>
    requires { LiesIn line.now token.now }
    ensures some { IfSome result (BeginsLine version stage (word_at line.now token.now)) }
    ensures none { IfNone result (BeginsNothing version stage (word_at line.now token.now)) }
{
    if token_is(line, token, "kind") {
        return Some(Head::Kind);
    }
    if token_is(line, token, "method") {
        return match stage {
            Stage::Methods => Some(Head::Method),
            Stage::Outside | Stage::Definitions | Stage::Defaulted | Stage::Pairs => None,
        };
    }
    if token_is(line, token, "commute") {
        return match stage {
            Stage::Outside => None,
            Stage::Methods | Stage::Definitions | Stage::Defaulted | Stage::Pairs => {
                Some(Head::Commute)
            }
        };
    }
    match version {
        Version::One => None,
        Version::Two => beginning_of_two(stage, line, token),
    }
}

/// What a line of this version says at a stage of the text, behind these methods of its kind; else its first wrong token. Of a
/// line with a formula at most 512 tokens stand behind `when`. A line that begins with `kind` takes no memory.
pub fn read_form(
    alloc: Global,
    version: Version,
    stage: Stage,
    methods: &[Method],
    line: &[u8],
    tokens: &[Token],
) -> Result<Form, FormRefused>
    requires within { All (LiesIn line.now) tokens.now }
    requires few { length tokens.now < 2 ^ 32 - 1 }
    requires short { HasFewWords version (words_of line.now tokens.now) }
    ensures ok { IfOk result
        (λ form. RightLine version stage (names_of methods.now) (words_of line.now tokens.now)
        (said_of form)) }
    ensures refused { IfErr result
        (IsFormRefused version stage (names_of methods.now) (words_of line.now tokens.now)) }
    ensures memory { IfErr result
        (λ refused. refused ≡ MemoryRefused → ¬ (BeginsKind (words_of line.now tokens.now))) }
{
    let Some((first, rest)) = tokens.split_first() else {
        return Err(FormRefused::Syntax(0));
    };
    let Some(head) = beginning(version, stage, line, first) else {
        return Err(FormRefused::Syntax(0));
    };
    match head {
        Head::Kind => read_kind(line, rest),
        Head::Method => read_method(alloc, line, rest),
        Head::Commute => read_commute(alloc, version, methods, line, rest),
        Head::Define => read_define(alloc, version, line, rest),
        Head::Default => read_default(line, rest),
    }
}
