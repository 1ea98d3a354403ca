//! What an object holds, and how a replay of its calls ends.
ghost use Rattle.std.specs.Prelude.{◌≡◌, IfOk};

use crate::lists::{ValueCounts, ValuePairs};
use rd_base::{NoMemory, Slots, Value};
use std::alloc::Global;

/// What an object holds.
#[derive(Drop)]
pub enum Shape {
    /// a value
    One(Value),
    /// a number
    Number(i64),
    /// items, rising by value
    Items(Slots),
    /// values by their keys, which rise by value; none of the values is `nil`
    Map(ValuePairs),
    /// how often items are there, each at least once; the items rise by value
    Counts(ValueCounts),
    /// items in a row, none of them `nil`
    Row(Slots),
}

/// What a machine gives in place of what was recorded.
#[derive(Drop, PartialEq, Eq)]
pub enum Expected {
    /// this result
    Value(Value),
    /// no result, since it doesn't take the argument with this number, from 0
    BadArgument(u8),
}

/// How a replay of recorded calls ends.
#[derive(Drop, PartialEq, Eq)]
pub enum ReplayEnd {
    /// each call gave what was recorded
    Exact,
    /// the call of this line, from 1, is the first that gave something else
    Differs { line: u64, expected: Expected },
    /// some object's kind has no machine
    NotShipped,
}

impl Expected {
    /// An equal value.
    pub fn copy(&self, alloc: Global) -> Result<Expected, NoMemory>
        ensures { IfOk result (λ expected. expected ≡ self.now) }
    {
        Ok(match self {
            Expected::Value(value) => Expected::Value(value.copy(alloc)?),
            Expected::BadArgument(slot) => Expected::BadArgument(*slot),
        })
    }
}

impl ReplayEnd {
    /// An equal value.
    pub fn copy(&self, alloc: Global) -> Result<ReplayEnd, NoMemory>
        ensures { IfOk result (λ end. end ≡ self.now) }
    {
        Ok(match self {
            ReplayEnd::Exact => ReplayEnd::Exact,
            ReplayEnd::Differs { line, expected } => ReplayEnd::Differs {
                line: *line,
                expected: expected.copy(alloc)?,
            },
            ReplayEnd::NotShipped => ReplayEnd::NotShipped,
        })
    }
}
