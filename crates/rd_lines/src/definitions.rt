//! The lines of a definition and of a default.
ghost use Rattle.std.specs.Prelude.{◌≡◌, ◌≢◌, ◌∷◌, ℕ, Bool, List, All, IfOk, IfErr, IfSome, IfNone, codes};
ghost use Rattle.rd_tokens.specs.Tokens.{LiesIn};
ghost use Rattle.rd_tokens.specs.Words.{truth_word};
ghost use Rattle.rd_lines.specs.declared.forms.Stage.{Stage};
ghost use Rattle.rd_lines.specs.declared.forms.Version.{Version};
ghost use Rattle.rd_lines.specs.declared.forms.Version.TheVariants.{Two};
ghost use Rattle.rd_lines.specs.Lines.{HasFewWords, IsFormRefused, RightLine, plain, said_of, word_at, words_of};
ghost use Rattle.rd_lines.specs.Reading.{IsDefinitionInFront, MayDefault, MayDefine};

use crate::forms::{Form, FormRefused, Version};
use crate::formulas::{behind_when, read_formula};
use crate::words::{token_is, token_name, variable_of};
use rd_base::Name;
use rd_tokens::{Dialect, Token};
use std::alloc::Global;

// The names of the method and of the definition in front, and the tokens behind `when`.
fn read_names<'a>(
    line: &[u8],
    tokens: &'a [Token],
) -> Result<(Name, Name, &'a [Token]), FormRefused>
    requires { All (LiesIn line.now) tokens.now }
    ensures ok { IfOk result
        (λ read. IsDefinitionInFront line.now tokens.now read.2.now read.0 read.1) }
    ensures within { IfOk result (λ read. All (LiesIn line.now) read.2.now) }
    ensures refused { IfErr result (λ refused. (version : Version) (stage : Stage) (methods : List (List ℕ)) →
        MayDefine version stage → IsFormRefused version stage methods
        (plain (codes "define") ∷ words_of line.now tokens.now) refused) }
{
    let Some((second, behind)) = tokens.split_first() else {
        return Err(FormRefused::Syntax(1));
    };
    let Some(method) = token_name(line, second) else {
        return Err(FormRefused::Syntax(1));
    };
    let Some((third, rest)) = behind.split_first() else {
        return Err(FormRefused::Syntax(2));
    };
    let Some(name) = variable_of(line, third) else {
        return Err(FormRefused::Syntax(2));
    };
    let Some((fourth, formula)) = rest.split_first() else {
        return Err(FormRefused::Syntax(3));
    };
    if !token_is(line, fourth, "when") {
        return Err(FormRefused::Syntax(3));
    }
    Ok((method, name, formula))
}

// What a line with these tokens behind `define` says, which stands where a definition may.
pub(crate) fn read_define(
    alloc: Global,
    version: Version,
    line: &[u8],
    tokens: &[Token],
) -> Result<Form, FormRefused>
    requires within { All (LiesIn line.now) tokens.now }
    requires short { HasFewWords version (plain (codes "define") ∷ words_of line.now tokens.now) }
    requires second { version ≡ Two }
    ensures ok { IfOk result (λ form. (stage : Stage) (methods : List (List ℕ)) → MayDefine version stage →
        RightLine version stage methods (plain (codes "define") ∷ words_of line.now tokens.now) (said_of form)) }
    ensures refused { IfErr result (λ refused. (stage : Stage) (methods : List (List ℕ)) → MayDefine version stage →
        IsFormRefused version stage methods (plain (codes "define") ∷ words_of line.now tokens.now) refused) }
{
    let (method, name, behind) = read_names(line, tokens)?;
    match read_formula(alloc, Dialect::Unsided, line, behind) {
        Ok(formula) => Ok(Form::Define {
            method,
            name,
            formula,
        }),
        Err(refused) => Err(behind_when(refused)),
    }
}

// The truth value that the token is.
fn truth_value(line: &[u8], token: &Token) -> Option<bool>
    requires { LiesIn line.now token.now }
    ensures some { IfSome result (λ value. word_at line.now token.now ≡ plain (truth_word value)) }
    ensures none { IfNone result
        ((value : Bool) → word_at line.now token.now ≢ plain (truth_word value)) }
{
    if token_is(line, token, "true") {
        return Some(true);
    }
    if token_is(line, token, "false") {
        return Some(false);
    }
    None
}

// What a line with these tokens behind `default` says, which stands where a default may. It takes no memory.
pub(crate) fn read_default(line: &[u8], tokens: &[Token]) -> Result<Form, FormRefused>
    requires { All (LiesIn line.now) tokens.now }
    ensures ok { IfOk result (λ form. (version : Version) (stage : Stage) (methods : List (List ℕ)) →
        MayDefault version stage →
        RightLine version stage methods (plain (codes "default") ∷ words_of line.now tokens.now) (said_of form)) }
    ensures refused { IfErr result (λ refused. (version : Version) (stage : Stage) (methods : List (List ℕ)) →
        MayDefault version stage → IsFormRefused version stage methods
        (plain (codes "default") ∷ words_of line.now tokens.now) refused) }
{
    let Some((second, rest)) = tokens.split_first() else {
        return Err(FormRefused::Syntax(1));
    };
    let Some(value) = truth_value(line, second) else {
        return Err(FormRefused::Syntax(1));
    };
    if !rest.is_empty() {
        return Err(FormRefused::Syntax(2));
    }
    Ok(Form::Default(value))
}
