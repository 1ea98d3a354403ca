//! The canonical words of a formula, which are read again as that formula.
//!
//! A relation on one side is its terms with its sign between them. A `not` over a relation with `=` on one side is that
//! relation with `!=`; any other `not` is `not` and its formula, in parentheses where that is an `and` or an `or`. A slot of
//! side 1 that differs from one of side 2 is written with side 1 on the left, and another relation between the sides with
//! side 2 on the left where it is flipped. The right part of an `and` is in parentheses where it is an `and` or an `or`, its
//! left part where it is an `or`; the right part of an `or` is in parentheses where it is an `or`. No other part is.

mod laws;
mod relations;
mod terms;
mod word_list;
mod writing;

pub use laws::law_of_canonical_words;
pub use relations::{relation_sign, sign_word};
pub use word_list::{PrintedWord, Words};
pub use writing::words;
