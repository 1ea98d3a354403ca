//! Bags, which hold items, each as often as it was added.
ghost use Rattle.std.specs.Prelude.{◌≡◌, ◌+◌, ◌-◌, nat_lt, pos, IfOk, OnErr};
ghost use Rattle.rd_base.specs.declared.values.Value.TheVariants.{Nil, Bool as Boolean, Int};
ghost use Rattle.rd_more.specs.Counted.{count_at, with_count};

use super::counted::{Counted, number};
use rd_base::{NoMemory, Value};
use rd_object::{ApplyRefused, RefObject, Shape, ValueCounts};
use std::alloc::Global;
use std::marker::Model;

/// A bag of items. Contracts see it as the list of its items with how often each is there, of which the items rise by value.
#[derive(Drop)]
pub struct Bag {
    counts: Counted,
}

impl Model for Bag {
    ghost use Rattle.std.specs.Prelude.{List, ℕ};
    ghost use Rattle.rd_base.specs.declared.values.Value.{Value as Item};

    ghost Value = { List (Item × ℕ) };

    ghost view = { λ b. b.counts };
}

impl Bag {
    // Adds an item once more.
    fn add(&mut self, item: &Value) -> Result<Value, NoMemory>
        ensures ok { IfOk result (λ value. value ≡ Nil) }
        ensures counts { IfOk result (λ value. self.new ≡ with_count item.now (count_at item.now self.old + 1) self.old) }
        ensures err { OnErr result (self.new ≡ self.old) }
    {
        let count = self.counts.count(item);
        if count == u64::MAX {
            return Err(NoMemory);
        }
        self.counts.set(item, count + 1)?;
        Ok(Value::Nil)
    }

    // Removes an item once, and tells whether it was there.
    fn remove(&mut self, item: &Value) -> Result<Value, NoMemory>
        ensures ok { IfOk result (λ value. value ≡ Boolean (nat_lt 0 (count_at item.now self.old))) }
        ensures counts { IfOk result (λ value. self.new ≡ with_count item.now (count_at item.now self.old - 1) self.old) }
        ensures err { OnErr result (self.new ≡ self.old) }
    {
        let count = self.counts.count(item);
        self.counts.set(item, count.saturating_sub(1))?;
        Ok(Value::Bool(0 < count))
    }

    // How often the item is there.
    fn count(&self, item: &Value) -> Result<Value, NoMemory>
        ensures { IfOk result (λ value. value ≡ Int (pos (count_at item.now self.now))) }
    {
        number(self.counts.count(item))
    }
}

impl RefObject for Bag {
    ghost use Rattle.rd_object.specs.declared.shapes.Shape.TheVariants.{Counts};
    ghost use Rattle.rd_more.specs.Machines.{bag_machine};
    ghost use Rattle.rd_more.specs.laws.BagLaws.{bag_sound, bag_keeps};

    ghost machine = { bag_machine };

    ghost meaning = { λ b. Counts b };

    ghost sound = { bag_sound };

    ghost keeps = { bag_keeps };

    fn start(alloc: Global) -> Bag {
        Bag {
            counts: Counted::new(alloc),
        }
    }

    fn apply(&mut self, method: u8, args: &[Value]) -> Result<Value, ApplyRefused> {
        let item = &args[0];
        match method {
            0 => Ok(self.add(item)?),
            1 => Ok(self.remove(item)?),
            _ => Ok(self.count(item)?),
        }
    }

    fn shape(&self) -> Result<Shape, NoMemory> {
        Ok(Shape::Counts(ValueCounts::from_counts(self.counts.sorted()?)))
    }
}
