//! Reading one line of a specification's text behind those before it: what it adds, or the first cause to refuse it.

mod adding;
mod judged_lines;
mod kinds;
mod methods;
mod missing;
mod repeated;

pub use judged_lines::{finish, read_line};
