//! The tables of a roster: the methods of kinds by name, what is held of locks, and where a name is looked for first.
#![tactic(auto)]

mod found;
mod locks;
mod methods;
mod names;
mod near;
mod sharers;
mod shares;

pub use found::{Declared, FoundLock, FoundObject, FoundThread, Pair};
pub use locks::{FREE, Lock};
pub use methods::{FoundMethod, Methods};
pub use names::NameBytes;
pub use near::{NEAR_LENGTH, cut_at_space, cut_name, near_bytes};
pub use sharers::lesser;
pub use shares::Shares;
