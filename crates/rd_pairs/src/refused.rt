//! Why a line of a specification's text is refused, or memory ran out.
ghost use Rattle.std.specs.Prelude.{◌≡◌};
ghost use Rattle.rd_pairs.specs.declared.refused.SpecLineRefused.TheVariants.{NoMemory as MemoryRefused};

use crate::Fault;
use rd_base::NoMemory;
use thiserror::Error;

/// Why a line of a specification's text, or its end, is refused.
#[derive(Debug, Drop, PartialEq, Eq, Error)]
pub enum SpecLineRefused {
    /// the first thing that is wrong with it
    #[error("wrong at byte {}", .0.place)]
    Fault(Fault),
    /// memory ran out
    #[error("out of memory")]
    NoMemory,
}

impl From<NoMemory> for SpecLineRefused {
    ghost from_gives = { λ _ e. e ≡ MemoryRefused };

    fn from(_error: NoMemory) -> SpecLineRefused {
        SpecLineRefused::NoMemory
    }
}
