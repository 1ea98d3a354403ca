//! Reading a specification from a file, the commands that write a text of its kinds, and the command `kind`.
#![tactic(auto)]

mod kinds;
mod specifications;

pub use kinds::kind;
pub use specifications::{SpecReport, Unread, read_spec, refuse_unread, report_spec, spec};
