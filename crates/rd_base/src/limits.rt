//! The limits of a run.
ghost use Rattle.std.specs.Prelude.{◌≡◌, ◌++◌, OnOk};
ghost use Rattle.rd_base.specs.Limits.{AreUsable, limit_cause_text, limit_text, standard};

use crate::byte_lists::Bytes;
use crate::memory::NoMemory;
use crate::numbers::append_number;

/// What a limit counts. Those up to `Depth` are of traces, and the others of specifications.
#[derive(Clone, Copy, Debug, PartialEq, Eq)]
pub enum LimitName {
    Bytes,
    Line,
    Events,
    Threads,
    Locks,
    Objects,
    Depth,
    SpecText,
    Tokens,
    Kinds,
    Methods,
    Arguments,
    Nodes,
    FormulaDepth,
    Predicates,
}

/// How many bytes a name has at most, and a variable.
pub const MOST_NAME_BYTES: usize = 64;

/// How many bytes the text of a specification has at most: `LimitName::SpecText`.
pub const MOST_SPEC_BYTES: u32 = 1_048_576;

/// How many tokens stand behind `when` at most: `LimitName::Tokens`.
pub const MOST_TOKENS: usize = 512;

/// How many kinds a specification has at most: `LimitName::Kinds`.
pub const MOST_KINDS: usize = 32;

/// How many methods a kind has at most: `LimitName::Methods`.
pub const MOST_METHODS: usize = 16;

/// How many arguments a method has at most: `LimitName::Arguments`.
pub const MOST_ARGUMENTS: usize = 6;

/// How many nodes the formula of a pair has at most: `LimitName::Nodes`.
pub const MOST_NODES: u32 = 64;

/// How many levels it has at most: `LimitName::FormulaDepth`.
pub const MOST_LEVELS: u32 = 32;

/// How many distinct relations on its side alone a method has at most: `LimitName::Predicates`.
pub const MOST_PREDICATES: usize = 5;

/// How much of each a trace may have. A call that takes limits asks that `line` is at least 1,
/// `events` at most 4,294,967,294 and `bytes` at most 18,446,744,073,709,551,614.
#[derive(Clone, Copy, PartialEq, Eq)]
pub struct Limits {
    /// bytes of the trace
    pub bytes: u64,
    /// bytes of a line with its line feed
    pub line: u32,
    /// accepted events
    pub events: u32,
    /// threads, roots and forked ones
    pub threads: u32,
    /// locks
    pub locks: u32,
    /// objects
    pub objects: u32,
    /// how often one thread has acquired one lock and not released it
    pub depth: u32,
}

impl Limits {
    /// The limits of the program. It takes no memory.
    pub fn standard() -> Limits
        ensures value { result ≡ standard }
        ensures usable { AreUsable result }
    {
        Limits {
            bytes: 1_099_511_627_776,
            line: 8192,
            events: 4_294_967_294,
            threads: 4096,
            locks: 65536,
            objects: 65536,
            depth: 65535,
        }
    }
}

#[tactic(auto, unfolding(crate::specs::Limits::limit_text))]
fn limit_text(name: LimitName) -> &'static [u8]
    ensures { result.now ≡ limit_text name }
{
    match name {
        LimitName::Bytes => b"bytes",
        LimitName::Line => b"line",
        LimitName::Events => b"events",
        LimitName::Threads => b"threads",
        LimitName::Locks => b"locks",
        LimitName::Objects => b"objects",
        LimitName::Depth => b"depth",
        LimitName::SpecText => b"text",
        LimitName::Tokens => b"tokens",
        LimitName::Kinds => b"kinds",
        LimitName::Methods => b"methods",
        LimitName::Arguments => b"arguments",
        LimitName::Nodes => b"nodes",
        LimitName::FormulaDepth => b"depth",
        LimitName::Predicates => b"predicates",
    }
}

/// Puts a limit that was passed behind the text.
pub fn append_limit(text: &mut Bytes, name: LimitName, number: u64) -> Result<(), NoMemory>
    ensures { OnOk result (text.new ≡ text.old ++ limit_cause_text name number) }
{
    text.append(b"limit ")?;
    text.append(limit_text(name))?;
    text.append(b" ")?;
    append_number(text, number)
}
