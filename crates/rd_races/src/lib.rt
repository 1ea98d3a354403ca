//! Races and commuting: which calls commute by the formulas of their kinds, and which calls race.
#![tactic(auto)]

mod laws;

pub use laws::{law_of_commuting, law_of_races};
