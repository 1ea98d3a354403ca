//! What the lines of a specification's text say so far.
ghost use Rattle.std.specs.Prelude.{◌≡◌};
ghost use Rattle.rd_reading.specs.Known.{nothing};

use rd_ecl::Spec;
use rd_lines::{Stage, Version};
use rd_open_kind::OpenKind;
use std::alloc::Global;

/// The kind whose lines are read.
#[derive(Drop)]
pub struct Block {
    /// the kind with its methods, definitions, default and pairs so far
    pub opened: OpenKind,
    /// where its next line stands
    pub stage: Stage,
}

/// What the lines of a specification's text say so far.
#[derive(Drop)]
pub struct Known {
    /// the version that the header told; None before it
    pub version: Option<Version>,
    /// the kinds before the one that is open
    pub closed: Spec,
    /// the kind that is open
    pub block: Option<Block>,
}

impl Known {
    /// What is known before the first line. It takes no memory.
    pub fn new(alloc: Global) -> Known
        ensures { result ≡ nothing }
    {
        Known {
            version: None,
            closed: Spec::empty(alloc),
            block: None,
        }
    }
}
