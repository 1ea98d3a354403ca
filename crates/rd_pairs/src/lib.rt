//! The lines of a pair and of a definition in a specification's text: what each says of the methods of a kind, or the first thing that
//! is wrong with it beside its form; and the causes to refuse a line, with their places.
#![tactic(auto)]

mod formulas;
mod judge;
mod limits;
mod methods;
mod numbers;
mod places;
mod refused;
mod scopes;
mod spec_causes;

pub use judge::{Defined, Pair, judge_definition, judge_pair};
pub use places::place_at;
pub use refused::SpecLineRefused;
pub use spec_causes::{Fault, SpecCause};
