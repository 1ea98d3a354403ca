//! Four more kinds of objects that are built in: `bag`, `peak`, `queue` and `tally`.
#![tactic(auto)]

mod kinds;
mod laws;
mod objects;

pub use kinds::{make_bag, make_peak, make_queue, make_tally};
pub use laws::law_of_more_machines;
pub use objects::{Bag, Peak, Queue, Tally};
