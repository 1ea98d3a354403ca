//! A kind of a specification's text whose lines are read: its methods and pairs so far, what is defined of each method, and what
//! a pair without a line gets.
#![tactic(auto)]

mod filling;
mod open_kind;

pub use filling::law_of_filling;
pub use open_kind::OpenKind;
