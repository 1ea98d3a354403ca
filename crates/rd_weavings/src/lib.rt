//! Weaving: one trace from logs that were kept per thread, or the proof that there is none.
#![tactic(auto)]

mod laws;
mod spots;

pub use laws::{
    examples_of_weaving, law_of_alike_logs, law_of_ends, law_of_first_turns, law_of_placing,
    law_of_turns, law_of_weavings,
};
pub use spots::Spot;
