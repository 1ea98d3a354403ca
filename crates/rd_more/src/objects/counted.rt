//! Items that are counted.
ghost use Rattle.std.specs.Prelude.{◌≡◌, [], pos, IfOk, OnOk, OnErr};
ghost use Rattle.std.specs.BTreeMap.{insert_entry};
ghost use Rattle.std.specs.Map.{keys_of};
ghost use Rattle.indexmap.specs.IndexMap.{IsUnique};
ghost use Rattle.rd_base.specs.Order.{value_cmp};
ghost use Rattle.rd_base.specs.declared.values.Value.TheVariants.{Int};
ghost use Rattle.rd_parts.specs.Entries.{sorted_entries};
ghost use Rattle.rd_parts.specs.laws.ItemLists.{Rise};
ghost use Rattle.rd_more.specs.Counted.{count_at, with_count};

use indexmap::IndexMap;
use rd_base::{NoMemory, Value};
use std::alloc::Global;
use std::marker::Model;

/// Items, each with how often it is there. Contracts see it as the list of the items with their counts, of which the items rise by value.
/// The items themselves stand in no order: one is found by its hash, and they are sorted where the state is asked.
#[derive(Drop)]
pub(super) struct Counted {
    alloc: Global,
    counts: IndexMap<Value, u64>,
}

impl Model for Counted {
    ghost use Rattle.std.specs.Prelude.{List, ℕ};
    ghost use Rattle.rd_base.specs.declared.values.Value.{Value as Item};

    ghost Value = { List (Item × ℕ) };

    ghost use Rattle.rd_parts.specs.Entries.{sorted_entries};

    ghost view = { λ c. sorted_entries c.counts.entries };
}

/// A count as a value. A count that no value holds is want of memory: there is no room for so many items.
pub(super) fn number(count: u64) -> Result<Value, NoMemory>
    ensures { IfOk result (λ value. value ≡ Int (pos count)) }
{
    if count > i64::MAX as u64 {
        return Err(NoMemory);
    }
    Ok(Value::Int(count as i64))
}

// Puts a count at an item that isn't there. It stands apart so that a count at one that is there doesn't pay for it.
#[inline(never)]
fn insert_new(
    alloc: Global,
    counts: &mut IndexMap<Value, u64>,
    item: &Value,
    count: u64,
) -> Result<(), NoMemory>
    ensures counts { OnOk result (sorted_entries counts.new.entries
        ≡ insert_entry value_cmp (sorted_entries counts.old.entries) item.now count) }
    ensures err { OnErr result (counts.new.entries ≡ counts.old.entries) }
{
    let item = item.copy(alloc)?;
    counts.insert(item, count)?;
    Ok(())
}

// Puts a count at an item, in the place of the old one.
fn insert(
    alloc: Global,
    counts: &mut IndexMap<Value, u64>,
    item: &Value,
    count: u64,
) -> Result<(), NoMemory>
    ensures counts { OnOk result (sorted_entries counts.new.entries
        ≡ insert_entry value_cmp (sorted_entries counts.old.entries) item.now count) }
    ensures err { OnErr result (counts.new.entries ≡ counts.old.entries) }
{
    match counts.get_mut(item) {
        Some(held) => {
            *held = count;
            Ok(())
        }
        None => insert_new(alloc, counts, item, count),
    }
}

// Copies of the items with their counts, as they stand.
fn copies(alloc: Global, counts: &IndexMap<Value, u64>) -> Result<Vec<(Value, u64)>, NoMemory>
    ensures counts { IfOk result (λ list. list.items ≡ counts.now.entries) }
    ensures unique { IsUnique (⟦<Value as PartialEq>⟧.eq) counts.now }
{
    let mut list = Vec::new(alloc);
    for (item, count) in counts {
        let item = item.copy(alloc)?;
        list.push((item, *count))?;
    }
    Ok(list)
}

impl Counted {
    /// No items. It takes no memory.
    pub(super) fn new(alloc: Global) -> Counted
        ensures { result ≡ [] }
    {
        Counted {
            alloc,
            counts: IndexMap::new(alloc),
        }
    }

    /// How often the item is there.
    pub(super) fn count(&self, item: &Value) -> u64
        ensures count { result ≡ count_at item.now self.now }
        ensures rise { Rise (keys_of self.now) }
    {
        match self.counts.get(item) {
            Some(count) => *count,
            None => 0,
        }
    }

    /// Lets the item be there so often. After an `Err` the counts are as before.
    pub(super) fn set(&mut self, item: &Value, count: u64) -> Result<(), NoMemory>
        ensures ok { OnOk result (self.new ≡ with_count item.now count self.old) }
        ensures err { OnErr result (self.new ≡ self.old) }
    {
        if count == 0 {
            self.counts.swap_remove(item);
            return Ok(());
        }
        insert(self.alloc, &mut self.counts, item, count)
    }

    /// Copies of the items with their counts, in order.
    pub(super) fn sorted(&self) -> Result<Vec<(Value, u64)>, NoMemory>
        ensures { IfOk result (λ list. list.items ≡ self.now) }
    {
        let mut list = copies(self.alloc, &self.counts)?;
        list.sort_unstable();
        Ok(list)
    }
}
