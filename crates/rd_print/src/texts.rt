//! The text of words, whose tokens are these words again.
//!
//! Words stand one space apart, but none stands behind `(` and none before `)`: `not (a@1 = 1 or b@1 = 2)`. Where each word
//! alone is a token, and no wrong one, the tokens of the text are the words, and no other such words have this text. The
//! canonical words of a formula are such words, so that their text says the formula again.

mod laws;
mod text;

pub use laws::law_of_texts;
pub use text::append_text;
