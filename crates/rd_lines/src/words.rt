//! The words of a line.
ghost use Rattle.std.specs.Prelude.{◌≡◌, ◌≢◌, ◌↔◌, ℕ, List, IsTrue, IfSome, IfNone};
ghost use Rattle.rd_base.specs.Names.{IsName};
ghost use Rattle.rd_ecl.specs.Variables.{IsVariable};
ghost use Rattle.rd_tokens.specs.Tokens.{LiesIn};
ghost use Rattle.rd_lines.specs.Lines.{plain, word_at};

use rd_base::Name;
use rd_tokens::{Sort, Token, is_variable};

// The bytes of a token that is a run of visible bytes.
fn plain_bytes<'a>(line: &'a [u8], token: &Token) -> Option<&'a [u8]>
    requires { LiesIn line.now token.now }
    ensures some { IfSome result (λ bytes. word_at line.now token.now ≡ plain bytes.now) }
    ensures none { IfNone result ((bytes : List ℕ) → word_at line.now token.now ≢ plain bytes) }
{
    match token.sort {
        Sort::Word => Some(token.bytes(line)),
        Sort::Open | Sort::Close | Sort::Text | Sort::Wrong => None,
    }
}

/// Is the token this word?
pub fn token_is(line: &[u8], token: &Token, word: &str) -> bool
    requires { LiesIn line.now token.now }
    ensures { IsTrue result ↔ (word_at line.now token.now ≡ plain word.now) }
{
    let Some(bytes) = plain_bytes(line, token) else {
        return false;
    };
    bytes == word.as_bytes()
}

// The name that the token is.
pub(crate) fn token_name(line: &[u8], token: &Token) -> Option<Name>
    requires { LiesIn line.now token.now }
    ensures some { IfSome result (λ name. word_at line.now token.now ≡ plain name) }
    ensures named { IfSome result IsName }
    ensures none { IfNone result
        ((name : List ℕ) → IsName name → word_at line.now token.now ≢ plain name) }
{
    let Some(bytes) = plain_bytes(line, token) else {
        return None;
    };
    Name::from_bytes(bytes).ok()
}

// The variable with these bytes.
#[tactic(auto, using(crate::proofs::WordLemmas::variable_named, crate::proofs::WordLemmas::is_variable, crate::proofs::WordLemmas::no_variable))]
fn variable(bytes: &[u8]) -> Option<Name>
    ensures some { IfSome result (λ name. name ≡ bytes.now) }
    ensures variable { IfSome result IsVariable }
    ensures none { IfNone result (¬ (IsVariable bytes.now)) }
{
    if !is_variable(bytes) {
        return None;
    }
    let Ok(name) = Name::from_bytes(bytes) else {
        unreachable!();
    };
    Some(name)
}

// The variable that the token is.
pub(crate) fn variable_of(line: &[u8], token: &Token) -> Option<Name>
    requires { LiesIn line.now token.now }
    ensures some { IfSome result (λ name. word_at line.now token.now ≡ plain name) }
    ensures variable { IfSome result IsVariable }
    ensures none { IfNone result
        ((name : List ℕ) → IsVariable name → word_at line.now token.now ≢ plain name) }
{
    let Some(bytes) = plain_bytes(line, token) else {
        return None;
    };
    variable(bytes)
}
