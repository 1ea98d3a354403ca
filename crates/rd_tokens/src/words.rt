//! The words of a formula: what each token is for the grammar, and what a term says.
//!
//! `(` and `)` are the parentheses. The words `not`, `and`, `or`, `true` and `false` and the signs `=`, `!=`, `<` and `<=`
//! are what they are. A term is `NAME@1` or `NAME@2`, the variable of that name of side 1 or 2, or the one spelling of a
//! value: `nil`, an integer, or a quoted text; `true` and `false` are terms beside a sign. Every other token is nothing that
//! a formula has, and so is each token that is wrong where it stands: `a@1=1` is one such word, and `x`, `a@3`, `when@1`,
//! `07`, `-0`, `@1` and `a@@1` are others.
//!
//! In version 2 a variable with its side may also be a name that stands for a formula. In a definition a variable has no side.
//!
//! A variable has 1 to 64 letters, digits and `_`, begins with a letter, and is none of `true`, `false`, `nil`, `not`,
//! `and`, `or` and `when`.

mod dialects;
mod laws;
mod mark_list;
mod marking;
mod symbols;
mod terms;

pub use dialects::Dialect;
pub use laws::law_of_words;
pub use mark_list::Marks;
pub use marking::marks;
pub use symbols::symbol;
pub use terms::{Said, is_variable, read_term, read_variable};
