//! The marks that a formula is written with.

/// A sign of a relation.
#[derive(Clone, Copy, Debug, PartialEq, Eq)]
pub enum Sign {
    /// `=`
    Equal,
    /// `!=`
    Different,
    /// `<`
    Less,
    /// `<=`
    AtMost,
}

/// A word that is a formula where no sign stands beside it, and else a term.
#[derive(Clone, Copy, Debug, PartialEq, Eq)]
pub enum Leaf {
    /// `true` or `false`
    Truth(bool),
    /// a variable with its side, which may be the name of a definition
    Name,
}

/// What a token is for the grammar.
#[derive(Clone, Copy, Debug, PartialEq, Eq)]
pub enum Symbol {
    /// `(`
    Open,
    /// `)`
    Close,
    /// the word `not`
    Not,
    /// the word `and`
    And,
    /// the word `or`
    Or,
    /// a formula, or beside a sign a term
    Leaf(Leaf),
    /// a sign of a relation
    Sign(Sign),
    /// a term that is no formula: a variable, or a value other than `true` and `false`
    Term,
    /// nothing that a formula has
    Other,
}

/// A token of a formula: what it is, and its number among the tokens.
#[derive(Clone, Copy, PartialEq, Eq)]
pub struct Mark {
    pub symbol: Symbol,
    pub token: u32,
}
