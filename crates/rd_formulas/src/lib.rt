//! The text of a formula: what its tokens say of two calls, or the first thing that is wrong with them.
#![tactic(auto)]

mod building;
mod expansion;
mod finding;
mod places;
mod reading;
mod scope;
mod terms;

pub use building::build;
pub use expansion::{Size, expand, expanded_size};
pub use finding::{first_bare, first_unknown};
pub use places::token_of_node;
pub use reading::{FormulaRefused, read_formula, resolve};
pub use scope::Scope;
pub use terms::Meant;
