//! The reader of a formula's marks: exactly by the grammar, to the first wrong mark.
#![tactic(auto)]

mod laws;
mod marks;
mod parsed;
mod reader;

pub use laws::{law_of_grammar, law_of_numbers};
pub use marks::{Leaf, Mark, Sign, Symbol};
pub use parsed::{MarksRefused, Parsed};
pub use reader::parse_formula;
