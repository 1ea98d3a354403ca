//! What reading a formula gives.
ghost use Rattle.std.specs.Prelude.{◌≡◌};
ghost use Rattle.rd_grammar.specs.declared.parsed.MarksRefused.TheVariants.{NoMemory as MemoryRefused};

use crate::marks::{Leaf, Sign};
use rd_base::NoMemory;
use thiserror::Error;

/// A formula as it was read. Each node has the number of its token, and a relation those of its two terms as well.
#[derive(Drop)]
pub enum Parsed {
    /// a word by itself: `true`, `false`, or a name
    Leaf {
        leaf: Leaf,
        token: u32,
    },
    /// two terms and the sign between them, whose number is the token
    Relation {
        left: u32,
        sign: Sign,
        token: u32,
        right: u32,
    },
    /// `not` before a formula
    Not {
        token: u32,
        inner: Box<Parsed>,
    },
    /// two formulas with `and` between them
    And {
        left: Box<Parsed>,
        token: u32,
        right: Box<Parsed>,
    },
    /// two formulas with `or` between them
    Or {
        left: Box<Parsed>,
        token: u32,
        right: Box<Parsed>,
    },
}

/// Why marks give no formula.
#[derive(Clone, Copy, Debug, PartialEq, Eq, Error)]
pub enum MarksRefused {
    /// the number of marks before the first wrong one; the number of all marks where they end too early
    #[error("wrong at mark {0}")]
    Syntax(u32),
    /// memory ran out
    #[error("out of memory")]
    NoMemory,
}

impl From<NoMemory> for MarksRefused {
    ghost from_gives = { λ _ e. e ≡ MemoryRefused };

    fn from(_error: NoMemory) -> MarksRefused {
        MarksRefused::NoMemory
    }
}
