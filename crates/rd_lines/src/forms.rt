//! What a line says.
ghost use Rattle.std.specs.Prelude.{◌≡◌};
ghost use Rattle.rd_lines.specs.declared.forms.FormRefused.TheVariants.{NoMemory as MemoryRefused};

use rd_base::{Name, NoMemory};
use rd_ecl::Names;
use rd_grammar::Parsed;
use thiserror::Error;

/// The version of a text, which its header tells. Version 2 has definitions and a default.
#[derive(Clone, Copy, Debug, PartialEq, Eq)]
pub enum Version {
    One,
    Two,
}

/// Where a line stands.
#[derive(Clone, Copy, Debug, PartialEq, Eq)]
pub enum Stage {
    /// before the first kind
    Outside,
    /// in a kind, behind its methods alone
    Methods,
    /// in a kind, behind a definition
    Definitions,
    /// in a kind, behind its default
    Defaulted,
    /// in a kind, behind a pair
    Pairs,
}

/// What a line says.
#[derive(Drop)]
pub enum Form {
    /// a kind begins, whose name is the second token
    Kind(Name),
    /// a method, whose name is the second token, its arguments, and its result
    Method {
        name: Name,
        arguments: Names,
        result: Name,
    },
    /// two methods, whose names are the second and the third token, commute by a formula, whose tokens are numbered from 0
    Commute {
        first: Name,
        second: Name,
        formula: Parsed,
    },
    /// a name, the third token, stands for a formula of a method, whose name is the second; its tokens are numbered from 0
    Define {
        method: Name,
        name: Name,
        formula: Parsed,
    },
    /// each pair without a line of its own commutes always, or never
    Default(bool),
}

/// Why a line says nothing.
#[derive(Clone, Copy, Debug, PartialEq, Eq, Error)]
pub enum FormRefused {
    /// the number of tokens before the first wrong one; the number of all tokens where the line ends too early
    #[error("wrong at token {0}")]
    Syntax(u32),
    /// memory ran out
    #[error("out of memory")]
    NoMemory,
}

impl From<NoMemory> for FormRefused {
    ghost from_gives = { λ _ e. e ≡ MemoryRefused };

    fn from(_error: NoMemory) -> FormRefused {
        FormRefused::NoMemory
    }
}
