//! The lines of a specification's text: what a line says, or its first wrong token.
//!
//! A line is `kind K`, `method M V V -> V` or `commute M M when FORMULA`, its tokens apart by spaces. K and M are names, N and
//! V variables; a method has any number of them before `->`. A kind may stand anywhere, a method in a kind before all but
//! methods, and a pair in a kind. A pair that names two methods of its kind names the one first that is declared first.
//! Version 2 has two more: `define M N when FORMULA`, behind the methods, with variables that have no side, and `default true`
//! or `default false`, behind the definitions. There a pair's formula may use the defined names.
#![tactic(auto)]

mod definitions;
mod forms;
mod formulas;
mod kinds;
mod laws;
mod methods;
mod order;
mod pairs;
mod spec_lines;
mod words;

pub use forms::{Form, FormRefused, Stage, Version};
pub use laws::law_of_lines;
pub use spec_lines::read_form;
pub use words::token_is;
