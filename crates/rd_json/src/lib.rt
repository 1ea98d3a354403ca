//! Reports as JSON, and the forms in which a report is written.
#![tactic(auto)]

mod endings;
mod forms;
mod formulas;
mod objects;
mod races;
mod refusals;
mod strings;
mod values;

pub use endings::ending_json;
pub use forms::{Form, append_race, ending_in, fault_in, refused_in};
pub use formulas::{Formulas, formula_in};
pub use races::{append_race_json, race_json, tell_object};
pub use refusals::spec_refused_json;
