//! Other orders of the events of a trace.
#![tactic(auto)]

mod lanes;
mod laws;
mod linear;
mod links;
mod waits;

pub use lanes::reorder;
pub use laws::{
    law_of_determinism, law_of_exchanges, law_of_linear_orders, law_of_orders, law_of_waits,
};
pub use linear::is_linear;
