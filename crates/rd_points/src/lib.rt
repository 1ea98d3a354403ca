//! Access points of a kind: which classes there are, which of them a call touches, and which conflict.
#![tactic(auto)]

mod blocks;
mod classes;
mod columns;
mod compiling;
mod laws;
mod parts;
mod points;
mod rows;
mod tables;
mod touches;

pub use classes::Class;
pub use laws::{law_of_equal_points, law_of_points, law_of_tables};
pub use points::{Point, Points, hash_point};
pub use tables::Table;
pub use touches::Touch;
