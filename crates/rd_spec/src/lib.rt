//! The text of a specification, read and written: the law that its canonical text says the same again.
#![tactic(auto)]

mod laws;

pub use laws::law_of_specifications;
pub use rd_print::{formula_text, print};
pub use rd_reading::{ParseRefused, SpecCause, SpecRefused, parse};
