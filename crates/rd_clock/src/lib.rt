//! Vector clocks and stamps.
#![tactic(auto)]

mod clock;

pub use clock::{Clock, Stamp, StampRef};
