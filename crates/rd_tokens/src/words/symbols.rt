//! What a token is for the grammar.
ghost use Rattle.std.specs.Prelude.{◌≡◌};
ghost use Rattle.rd_tokens.specs.ReadingWords.{named_word, other_word, unsided_word, word_of};
ghost use Rattle.rd_tokens.specs.Words.{IsSymbolIn};

use crate::Sort;
use crate::words::dialects::Dialect;
use crate::words::terms::{bytes_are, is_sided_variable, is_term, is_variable};
use rd_grammar::{Leaf, Sign, Symbol};

// The symbol of a word that is neither a keyword nor a sign.
#[tactic(auto, unfolding(crate::specs::ReadingWords::other_word))]
fn other_word(bytes: &[u8]) -> Symbol
    ensures { result ≡ other_word bytes.now }
{
    if is_term(bytes) {
        Symbol::Term
    } else {
        Symbol::Other
    }
}

// The symbol of a word.
#[tactic(auto, unfolding(crate::specs::ReadingWords::word_of))]
fn word(bytes: &[u8]) -> Symbol
    ensures { result ≡ word_of bytes.now }
{
    if bytes_are(bytes, "not") {
        return Symbol::Not;
    }
    if bytes_are(bytes, "and") {
        return Symbol::And;
    }
    if bytes_are(bytes, "or") {
        return Symbol::Or;
    }
    if bytes_are(bytes, "true") {
        return Symbol::Leaf(Leaf::Truth(true));
    }
    if bytes_are(bytes, "false") {
        return Symbol::Leaf(Leaf::Truth(false));
    }
    if bytes_are(bytes, "=") {
        return Symbol::Sign(Sign::Equal);
    }
    if bytes_are(bytes, "!=") {
        return Symbol::Sign(Sign::Different);
    }
    if bytes_are(bytes, "<") {
        return Symbol::Sign(Sign::Less);
    }
    if bytes_are(bytes, "<=") {
        return Symbol::Sign(Sign::AtMost);
    }
    other_word(bytes)
}

// The symbol of a word where names may be used.
#[tactic(auto, unfolding(crate::specs::ReadingWords::named_word))]
fn named_word(bytes: &[u8]) -> Symbol
    ensures { result ≡ named_word bytes.now }
{
    if is_sided_variable(bytes) {
        Symbol::Leaf(Leaf::Name)
    } else {
        word(bytes)
    }
}

// The symbol of a word where variables have no side.
#[tactic(auto, unfolding(crate::specs::ReadingWords::unsided_word))]
fn unsided_word(bytes: &[u8]) -> Symbol
    ensures { result ≡ unsided_word bytes.now }
{
    if is_variable(bytes) {
        Symbol::Term
    } else if is_sided_variable(bytes) {
        Symbol::Other
    } else {
        word(bytes)
    }
}

/// What a token with these bytes is for the grammar. It takes no memory.
pub fn symbol(dialect: Dialect, sort: Sort, bytes: &[u8]) -> Symbol
    ensures { IsSymbolIn dialect sort bytes.now result }
{
    match sort {
        Sort::Open => Symbol::Open,
        Sort::Close => Symbol::Close,
        Sort::Word => match dialect {
            Dialect::Sided => word(bytes),
            Dialect::Named => named_word(bytes),
            Dialect::Unsided => unsided_word(bytes),
        },
        Sort::Text => Symbol::Term,
        Sort::Wrong => Symbol::Other,
    }
}
