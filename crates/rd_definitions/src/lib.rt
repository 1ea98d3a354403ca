//! The definitions of one method: names for formulas of its calls.
#![tactic(auto)]

mod definitions;
mod laws;

pub use definitions::Definitions;
pub use laws::law_of_definitions;
