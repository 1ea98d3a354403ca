//! The rules on which line of a trace may follow the accepted lines, and the events of accepted lines by numbers.
#![tactic(auto)]

mod broken;
mod causes;
mod laws;

pub use broken::{Broken, UNBROKEN};
pub use causes::{Accepted, BytesRefused, TraceCause, WfCause, WfRefused};
pub use laws::{law_of_events, law_of_following};
