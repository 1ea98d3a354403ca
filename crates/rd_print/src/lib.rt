//! The canonical text of a specification, in lines with a line feed behind each.
//!
//! The first line is the header `rdspec 1`. For each kind there follow its line `kind K`, the line of each of its methods in
//! their order, `method M V V -> V`, and the line of each of their pairs by the first method, then by the second,
//! `commute M N when FORMULA`. Tokens stand one space apart, but none inside a parenthesis at its edges.
#![tactic(auto)]

mod canonical;
mod laws;
mod method_lines;
mod pairs;
mod printing;
mod texts;

pub use canonical::{PrintedWord, Words, law_of_canonical_words, relation_sign, sign_word, words};
pub use laws::law_of_printed_texts;
pub use pairs::formula_text;
pub use printing::{print, print_kind};
pub use texts::{append_text, law_of_texts};
