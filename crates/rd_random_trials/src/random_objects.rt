//! Objects that run calls one after another, in words of this crate alone.

use crate::random_calls::{Call, Method, Value};
use std::alloc::Global;
use std::process::Abort;

/// An object of any kind that is built in, as values by keys, none of which is nil: a register has its value under the key nil, a
/// counter its total, a peak its number; a set has true under each of its items, a bag and a tally have a number; and a queue has its items,
/// all under nil, the first in front.
#[derive(Drop)]
struct Object {
    alloc: Global,
    pairs: Vec<(Value, Value)>,
}

impl Object {
    fn new(alloc: Global) -> Object {
        Object {
            alloc,
            pairs: Vec::new(alloc),
        }
    }

    fn get(&self, wanted: Value) -> Value {
        for (key, value) in &self.pairs {
            if *key == wanted {
                return *value;
            }
        }
        Value::Nil
    }

    /// Gives the value that was there.
    fn put(&mut self, rt: &impl Abort, wanted: Value, value: Value) -> Value {
        let before = self.get(wanted);
        let mut pairs = Vec::new(self.alloc);
        for (key, held) in &self.pairs {
            if *key != wanted {
                pairs.push((*key, *held)).expect(rt, "memory");
            }
        }
        if value != Value::Nil {
            pairs.push((wanted, value)).expect(rt, "memory");
        }
        self.pairs = pairs;
        before
    }

    fn size(&self) -> i64 {
        let mut size = 0i64;
        for _ in &self.pairs {
            size = size.wrapping_add(1);
        }
        size
    }

    /// How often the item is there.
    fn count(&self, item: Value) -> i64 {
        match self.get(item) {
            Value::Int(count) => count,
            _ => 0,
        }
    }

    /// The sum of all counts.
    fn sum(&self) -> i64 {
        let mut sum = 0i64;
        for (_, count) in &self.pairs {
            if let Value::Int(count) = count {
                sum = sum.wrapping_add(*count);
            }
        }
        sum
    }

    /// Lets the item be there once more, and gives nil.
    fn gain(&mut self, rt: &impl Abort, item: Value) -> Value {
        let count = self.count(item).wrapping_add(1);
        self.put(rt, item, Value::Int(count));
        Value::Nil
    }

    /// Lets the item be there once less, and says whether it was there.
    fn lose(&mut self, rt: &impl Abort, item: Value) -> Value {
        match self.count(item) {
            0 => return Value::Bool(false),
            1 => self.put(rt, item, Value::Nil),
            count => self.put(rt, item, Value::Int(count.wrapping_sub(1))),
        };
        Value::Bool(true)
    }

    /// Raises the peak, where the amount is a number above it, and gives what it was.
    fn raise(&mut self, rt: &impl Abort, amount: Value) -> Option<Value> {
        let Value::Int(number) = amount else {
            return None;
        };
        Some(match self.get(Value::Nil) {
            Value::Int(peak) if number <= peak => Value::Int(peak),
            before => {
                self.put(rt, Value::Nil, amount);
                before
            }
        })
    }

    /// Puts an item last, unless it is nil.
    fn enqueue(&mut self, rt: &impl Abort, item: Value) -> Option<Value> {
        if item == Value::Nil {
            return None;
        }
        self.pairs.push((Value::Nil, item)).expect(rt, "memory");
        Some(Value::Nil)
    }

    /// Takes the first item, nil where there is none.
    fn dequeue(&mut self, rt: &impl Abort) -> Value {
        let mut first = None;
        let mut pairs = Vec::new(self.alloc);
        for pair in &self.pairs {
            if first.is_none() {
                first = Some(pair.1);
            } else {
                pairs.push(*pair).expect(rt, "memory");
            }
        }
        self.pairs = pairs;
        first.unwrap_or(Value::Nil)
    }

    fn total(&self) -> i64 {
        match self.get(Value::Nil) {
            Value::Int(total) => total,
            _ => 0,
        }
    }

    /// Adds to the total, where the amount is a number.
    fn add(&mut self, rt: &impl Abort, amount: Value) -> Option<Value> {
        let Value::Int(amount) = amount else {
            return None;
        };
        let total = self.total().wrapping_add(amount);
        self.put(rt, Value::Nil, Value::Int(total));
        Some(Value::Nil)
    }

    /// Runs a call and gives its result, whatever was recorded. None where the object doesn't take the call.
    fn run(&mut self, rt: &impl Abort, call: &Call) -> Option<Value> {
        let item = call.item;
        Some(match call.method {
            Method::RegisterRead => self.get(Value::Nil),
            Method::RegisterWrite => {
                self.put(rt, Value::Nil, item);
                Value::Nil
            }
            Method::RegisterSwap => self.put(rt, Value::Nil, item),
            Method::CounterAdd => return self.add(rt, item),
            Method::CounterGet => Value::Int(self.total()),
            Method::SetAdd => Value::Bool(self.put(rt, item, Value::Bool(true)) == Value::Nil),
            Method::SetRemove => Value::Bool(self.put(rt, item, Value::Nil) != Value::Nil),
            Method::SetContains => Value::Bool(self.get(item) != Value::Nil),
            Method::DictionaryPut => self.put(rt, item, call.put),
            Method::DictionaryGet => self.get(item),
            Method::SetSize | Method::DictionarySize | Method::QueueSize => {
                Value::Int(self.size())
            }
            Method::BagAdd | Method::TallyHit => self.gain(rt, item),
            Method::BagRemove => self.lose(rt, item),
            Method::BagCount | Method::TallyCount => Value::Int(self.count(item)),
            Method::TallyTotal => Value::Int(self.sum()),
            Method::PeakRaise => return self.raise(rt, item),
            Method::PeakGet => self.get(Value::Nil),
            Method::QueueEnqueue => return self.enqueue(rt, item),
            Method::QueueDequeue => self.dequeue(rt),
            Method::GatePass | Method::GateLook => return None,
        })
    }
}

/// The two objects of a trace.
#[derive(Drop)]
pub struct Objects {
    first: Object,
    second: Object,
}

impl Objects {
    pub fn new(alloc: Global) -> Objects {
        Objects {
            first: Object::new(alloc),
            second: Object::new(alloc),
        }
    }

    /// Runs a call of the object with this number, 0 or 1.
    pub fn run(&mut self, rt: &impl Abort, object: u32, call: &Call) -> Option<Value> {
        if object == 0 {
            self.first.run(rt, call)
        } else {
            self.second.run(rt, call)
        }
    }
}
