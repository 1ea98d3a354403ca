//! What the words of a formula may speak of.

/// What the words of a formula may speak of.
#[derive(Clone, Copy, Debug, PartialEq, Eq)]
pub enum Dialect {
    /// variables with their sides: the line of a pair in version 1
    Sided,
    /// these, and names of definitions with their sides: the line of a pair in version 2
    Named,
    /// variables without a side, of one method: a definition
    Unsided,
}
