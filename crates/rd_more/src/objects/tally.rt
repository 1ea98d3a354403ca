//! Tallies, which hold how often each item was hit.
ghost use Rattle.std.specs.Prelude.{◌≡◌, ◌+◌, pos, IfOk, OnErr};
ghost use Rattle.rd_base.specs.declared.values.Value.TheVariants.{Nil, Int};
ghost use Rattle.rd_more.specs.Counted.{count_at, total, with_count};

use super::counted::{Counted, number};
use rd_base::{NoMemory, Value};
use rd_object::{ApplyRefused, RefObject, Shape, ValueCounts};
use std::alloc::Global;
use std::marker::Model;

/// A tally of items. Contracts see it as the list of its items with how often each was hit, of which the items rise by value.
#[derive(Drop)]
pub struct Tally {
    counts: Counted,
    // the sum of all counts
    hits: u64,
}

impl Model for Tally {
    ghost use Rattle.std.specs.Prelude.{◌≡◌, List, ℕ};
    ghost use Rattle.rd_base.specs.declared.values.Value.{Value as Item};
    ghost use Rattle.rd_more.specs.Counted.{total};

    ghost Value = { List (Item × ℕ) };

    ghost view = { λ t. t.counts };

    ghost invariant = { λ t. t.hits ≡ total t.counts };
}

impl Tally {
    // Hits an item once more.
    fn hit(&mut self, item: &Value) -> Result<Value, NoMemory>
        ensures ok { IfOk result (λ value. value ≡ Nil) }
        ensures counts { IfOk result (λ value. self.new ≡ with_count item.now (count_at item.now self.old + 1) self.old) }
        ensures err { OnErr result (self.new ≡ self.old) }
    {
        if self.hits == u64::MAX {
            return Err(NoMemory);
        }
        let count = self.counts.count(item);
        self.counts.set(item, count + 1)?;
        self.hits += 1;
        Ok(Value::Nil)
    }

    // How often the item was hit.
    fn count(&self, item: &Value) -> Result<Value, NoMemory>
        ensures { IfOk result (λ value. value ≡ Int (pos (count_at item.now self.now))) }
    {
        number(self.counts.count(item))
    }

    // The sum of all counts.
    fn total(&self) -> Result<Value, NoMemory>
        ensures { IfOk result (λ value. value ≡ Int (pos (total self.now))) }
    {
        number(self.hits)
    }
}

impl RefObject for Tally {
    ghost use Rattle.rd_object.specs.declared.shapes.Shape.TheVariants.{Counts};
    ghost use Rattle.rd_more.specs.Machines.{tally_machine};
    ghost use Rattle.rd_more.specs.laws.TallyLaws.{tally_sound, tally_keeps};

    ghost machine = { tally_machine };

    ghost meaning = { λ t. Counts t };

    ghost sound = { tally_sound };

    ghost keeps = { tally_keeps };

    fn start(alloc: Global) -> Tally {
        Tally {
            counts: Counted::new(alloc),
            hits: 0,
        }
    }

    fn apply(&mut self, method: u8, args: &[Value]) -> Result<Value, ApplyRefused> {
        match args {
            [item] => match method {
                0 => Ok(self.hit(item)?),
                _ => Ok(self.count(item)?),
            },
            _ => Ok(self.total()?),
        }
    }

    fn shape(&self) -> Result<Shape, NoMemory> {
        Ok(Shape::Counts(ValueCounts::from_counts(self.counts.sorted()?)))
    }
}
