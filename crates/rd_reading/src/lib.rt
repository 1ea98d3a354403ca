//! Reading the text of a specification: which kinds it says, or the first line that is wrong, its place and its cause, and the
//! line that tells them.
//!
//! A text has a header and blocks. A block is a kind, its methods, and for each pair of them the formula by which their calls
//! commute; in version 2 also names for formulas of one method, and a formula for each pair without a line. `docs/specifications.md` has the format, and `docs/errors.md` each cause.
#![tactic(auto)]

mod cutting;
mod judging;
mod known;
mod parsing;
mod refused_texts;

pub use judging::{finish, read_line};
pub use known::{Block, Known};
pub use parsing::{ParseRefused, SpecRefused, parse};
pub use rd_pairs::{Fault, SpecCause, SpecLineRefused};
pub use refused_texts::spec_refused_line;
