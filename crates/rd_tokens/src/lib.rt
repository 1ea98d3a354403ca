//! The tokens of a line of a specification's text.
//!
//! A line is bytes without a line feed. Spaces are passed over. `(` and `)` are tokens of one byte. What
//! begins with `"` goes to the next `"` that isn't escaped: escapes are read in pairs from the left, a `\`
//! takes the next byte with it. Every other token is a longest run of bytes from 0x21 to 0x7E other than
//! `(`, `)` and `"`.
//!
//! Three tokens are wrong where they stand: each other byte, which is a token of its own; what goes from a
//! `"` to the end of the line, for want of a `"` that ends it; and what is quoted and isn't the spelling of
//! a text, which has at most 255 bytes, each spelled in the one way that values are written.
#![tactic(auto)]

mod cutting;
mod sorts;
mod words;

pub use cutting::{law_of_tokens, tokens};
pub use sorts::{Sort, Token, Tokens};
pub use words::{
    Dialect, Marks, Said, is_variable, law_of_words, marks, read_term, read_variable, symbol,
};
