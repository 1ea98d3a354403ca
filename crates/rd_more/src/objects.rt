//! Objects of the kinds, which run calls.
mod bag;
mod counted;
mod peak;
mod queue;
mod tally;

pub use bag::Bag;
pub use peak::Peak;
pub use queue::Queue;
pub use tally::Tally;
