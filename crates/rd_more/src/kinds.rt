//! The kinds with their formulas.
mod bag;
mod peak;
mod queue;
mod tally;

pub use bag::make_bag;
pub use peak::make_peak;
pub use queue::make_queue;
pub use tally::make_tally;
