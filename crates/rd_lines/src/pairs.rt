//! The line of two methods that commute.
ghost use Rattle.std.specs.Prelude.{◌≡◌, ◌≢◌, ◌∷◌, List, All, IfOk, IfErr, codes};
ghost use Rattle.rd_ecl.specs.Specified.{names_of};
ghost use Rattle.rd_tokens.specs.Tokens.{LiesIn};
ghost use Rattle.rd_lines.specs.declared.forms.Stage.{Stage};
ghost use Rattle.rd_lines.specs.declared.forms.Stage.TheVariants.{Outside};
ghost use Rattle.rd_lines.specs.declared.forms.Version.{Version};
ghost use Rattle.rd_lines.specs.Lines.{HasFewWords, IsFormRefused, RightLine, dialect_of, plain, said_of, words_of};
ghost use Rattle.rd_lines.specs.Reading.{IsPairInFront};

use crate::forms::{Form, FormRefused, Version};
use crate::formulas::{behind_when, read_formula};
use crate::order::is_out_of_order;
use crate::words::{token_is, token_name};
use rd_base::Name;
use rd_ecl::Method;
use rd_tokens::{Dialect, Token};
use std::alloc::Global;

// The names of the two methods in front, and the tokens behind `when`.
fn read_pair<'a>(
    methods: &[Method],
    line: &[u8],
    tokens: &'a [Token],
) -> Result<(Name, Name, &'a [Token]), FormRefused>
    requires { All (LiesIn line.now) tokens.now }
    ensures ok { IfOk result
        (λ read. IsPairInFront
        (names_of methods.now) line.now tokens.now read.2.now read.0 read.1) }
    ensures within { IfOk result (λ read. All (LiesIn line.now) read.2.now) }
    ensures refused { IfErr result (λ refused. (version : Version) (stage : Stage) → stage ≢ Outside
        → IsFormRefused version stage (names_of methods.now)
        (plain (codes "commute") ∷ words_of line.now tokens.now) refused) }
{
    let Some((second, behind)) = tokens.split_first() else {
        return Err(FormRefused::Syntax(1));
    };
    let Some(one) = token_name(line, second) else {
        return Err(FormRefused::Syntax(1));
    };
    let Some((third, rest)) = behind.split_first() else {
        return Err(FormRefused::Syntax(2));
    };
    let Some(other) = token_name(line, third) else {
        return Err(FormRefused::Syntax(2));
    };
    if is_out_of_order(methods, &one, &other) {
        return Err(FormRefused::Syntax(2));
    }
    let Some((fourth, formula)) = rest.split_first() else {
        return Err(FormRefused::Syntax(3));
    };
    if !token_is(line, fourth, "when") {
        return Err(FormRefused::Syntax(3));
    }
    Ok((one, other, formula))
}

// What the formula of a pair may speak of.
fn dialect_of(version: Version) -> Dialect
    ensures { result ≡ dialect_of version }
{
    match version {
        Version::One => Dialect::Sided,
        Version::Two => Dialect::Named,
    }
}

// What a line with these tokens behind `commute` says, which stands in a kind with these methods.
pub(crate) fn read_commute(
    alloc: Global,
    version: Version,
    methods: &[Method],
    line: &[u8],
    tokens: &[Token],
) -> Result<Form, FormRefused>
    requires within { All (LiesIn line.now) tokens.now }
    requires short { HasFewWords version (plain (codes "commute") ∷ words_of line.now tokens.now) }
    ensures ok { IfOk result (λ form. (stage : Stage) → stage ≢ Outside
        → RightLine version stage (names_of methods.now)
        (plain (codes "commute") ∷ words_of line.now tokens.now) (said_of form)) }
    ensures refused { IfErr result (λ refused. (stage : Stage) → stage ≢ Outside
        → IsFormRefused version stage (names_of methods.now)
        (plain (codes "commute") ∷ words_of line.now tokens.now) refused) }
{
    let (first, second, behind) = read_pair(methods, line, tokens)?;
    match read_formula(alloc, dialect_of(version), line, behind) {
        Ok(formula) => Ok(Form::Commute {
            first,
            second,
            formula,
        }),
        Err(refused) => Err(behind_when(refused)),
    }
}
