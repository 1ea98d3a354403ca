//! What the kinds that are built in share: names, methods and formulas that are written out, and the laws of lists and calls that their
//! machines stand on.
#![tactic(auto)]

mod common_formulas;
mod making;

pub use common_formulas::{and, equals, firsts_differ, not, or};
pub use making::{name, put_of_one, put_of_three, put_of_two, put_pair};
