//! Specifications of kinds of objects: their methods, and formulas that say when two calls commute.
#![tactic(auto)]

mod formulas;
mod kinds;
mod names;
mod predicates;
mod reduction;
mod relations;
mod sides;
mod slot_pairs;
mod specifications;

pub use formulas::{
    Formula, Outside, Predicate, Reason, Rel, Side, Term, law_of_formulas, law_of_fragment,
};
pub use kinds::{
    KindDraft, KindSpec, Method, law_of_commuting, law_of_equal_kinds, law_of_pairs,
    law_of_predicates, law_of_variables,
};
pub use names::Names;
pub use predicates::Predicates;
pub use reduction::{Reduced, Valuation, law_of_reductions, reduce};
pub use sides::law_of_sides;
pub use slot_pairs::SlotPairs;
pub use specifications::{AppendRefused, Spec};
