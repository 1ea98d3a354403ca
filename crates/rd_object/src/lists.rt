//! Lists of pairs.
ghost use Rattle.std.specs.Prelude.{◌≡◌, [], ◌∷◌, ◌++◌, OnOk, OnErr};

use rd_base::{NoMemory, Value};
use std::alloc::Global;
use std::marker::Model;

/// Pairs of values. Contracts see it as the list of the pairs.
#[derive(Drop)]
pub struct ValuePairs {
    pairs: Vec<(Value, Value)>,
}

impl Model for ValuePairs {
    ghost use Rattle.std.specs.Prelude.{List};
    ghost use Rattle.rd_base.specs.declared.values.Value.{Value as Item};

    ghost Value = { List (Item × Item) };

    ghost view = { λ p. p.pairs.items };
}

impl ValuePairs {
    /// No pairs. It takes no memory.
    pub fn new(alloc: Global) -> ValuePairs
        ensures { result ≡ [] }
    {
        ValuePairs {
            pairs: Vec::new(alloc),
        }
    }

    /// Puts a pair last. After want of memory the list is as before.
    pub fn push(&mut self, key: Value, value: Value) -> Result<(), NoMemory>
        ensures ok { OnOk result (self.new ≡ self.old ++ (key, value) ∷ []) }
        ensures err { OnErr result (self.new ≡ self.old) }
    {
        self.pairs.push((key, value))?;
        Ok(())
    }

    /// The list with these pairs. It takes no memory.
    pub fn from_pairs(pairs: Vec<(Value, Value)>) -> ValuePairs
        ensures { result ≡ pairs.items }
    {
        ValuePairs { pairs }
    }

    /// The pairs. It takes no memory.
    pub fn items(&self) -> &[(Value, Value)]
        ensures { result.now ≡ self.now }
    {
        self.pairs.as_slice()
    }
}

/// Values, each with a count. Contracts see it as the list of the pairs.
#[derive(Drop)]
pub struct ValueCounts {
    counts: Vec<(Value, u64)>,
}

impl Model for ValueCounts {
    ghost use Rattle.std.specs.Prelude.{List, ℕ};
    ghost use Rattle.rd_base.specs.declared.values.Value.{Value as Item};

    ghost Value = { List (Item × ℕ) };

    ghost view = { λ c. c.counts.items };
}

impl ValueCounts {
    /// No values. It takes no memory.
    pub fn new(alloc: Global) -> ValueCounts
        ensures { result ≡ [] }
    {
        ValueCounts {
            counts: Vec::new(alloc),
        }
    }

    /// Puts a value with its count last. After want of memory the list is as before.
    pub fn push(&mut self, value: Value, count: u64) -> Result<(), NoMemory>
        ensures ok { OnOk result (self.new ≡ self.old ++ (value, count) ∷ []) }
        ensures err { OnErr result (self.new ≡ self.old) }
    {
        self.counts.push((value, count))?;
        Ok(())
    }

    /// The list with these pairs. It takes no memory.
    pub fn from_counts(counts: Vec<(Value, u64)>) -> ValueCounts
        ensures { result ≡ counts.items }
    {
        ValueCounts { counts }
    }

    /// The pairs. It takes no memory.
    pub fn items(&self) -> &[(Value, u64)]
        ensures { result.now ≡ self.now }
    {
        self.counts.as_slice()
    }
}
