//! Access points in which classes that are alike are one.
#![tactic(auto)]

mod laws;
mod merging;

pub use laws::law_of_merging;
pub use merging::{merge, merged_table};
