//! Numbers as the words of a command line spell them.
#![tactic(auto)]

mod laws;
mod reading;

pub use laws::law_of_decimals;
pub use reading::read_number;
