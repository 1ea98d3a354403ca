//! The values of a call, one after another.
ghost use Rattle.std.specs.Prelude.{◌≡◌, ◌≤◌, [], ◌∷◌, ◌++◌, length, false, IfOk, OnErr, IsTrue};

use crate::memory::NoMemory;
use crate::values::Value;
use arrayvec::ArrayVec;
use std::alloc::Global;
use std::marker::Model;
use std::rc::Rc;

/// Values one after another: up to three without memory of their own. Contracts see it as the list of the values.
#[derive(Drop)]
pub struct ValueList {
    few: ArrayVec<Value, 3>,
    // all of them, where there are more than three
    many: Vec<Value>,
}

impl Model for ValueList {
    ghost use Rattle.std.specs.Prelude.{List};
    ghost use Rattle.rd_base.specs.Slots.{held_values};
    ghost use Rattle.rd_base.specs.declared.values.Value.{Value as Item};

    ghost Value = { List Item };

    ghost view = { λ s. held_values s.few.items s.many.items };
}

impl ValueList {
    ghost use Rattle.std.specs.Prelude.{◌≡◌, [], ◌∷◌, ◌++◌, false, IfOk, OnOk, OnErr, IsTrue};

    /// No values. It takes no memory.
    pub fn new(alloc: Global) -> ValueList
        ensures { result ≡ [] }
    {
        ValueList {
            few: ArrayVec::new(),
            many: Vec::new(alloc),
        }
    }

    /// The values.
    pub fn items(&self) -> &[Value]
        ensures { result.now ≡ self.now }
    {
        if self.many.is_empty() {
            self.few.as_slice()
        } else {
            self.many.as_slice()
        }
    }

    /// Takes all values away, and keeps the memory of the list for the next ones.
    pub fn clear(&mut self)
        ensures { self.new ≡ [] }
    {
        self.few.clear();
        self.many.clear();
    }

    /// Makes the values equal to those of another list, where neither has more than three, and answers whether it did. Else the list is as
    /// before, and so it is where copies of texts can't be made.
    pub fn assign(&mut self, alloc: Global, other: &ValueList) -> Result<bool, NoMemory>
        ensures assigned { IfOk result (λ done. IsTrue done → self.new ≡ other.now) }
        ensures kept { IfOk result (λ done. done ≡ false → self.new ≡ self.old) }
        ensures err { OnErr result (self.new ≡ self.old) }
    {
        if !self.many.is_empty() || !other.many.is_empty() {
            return Ok(false);
        }
        self.few = few_copies(alloc, other.few.as_slice())?;
        Ok(true)
    }

    /// Puts a value last. Only a fourth one and those behind it take memory; after want of it the list is as before.
    pub fn push(&mut self, alloc: Global, value: Value) -> Result<(), NoMemory>
        ensures ok { OnOk result (self.new ≡ self.old ++ value ∷ []) }
        ensures err { OnErr result (self.new ≡ self.old) }
    {
        if self.many.is_empty() && !self.few.is_full() {
            self.few.push(value);
            return Ok(());
        }
        self.push_to_many(alloc, value)
    }

    #[inline(never)]
    fn push_to_many(&mut self, alloc: Global, value: Value) -> Result<(), NoMemory>
        ensures ok { OnOk result (self.new ≡ self.old ++ value ∷ []) }
        ensures err { OnErr result (self.new ≡ self.old) }
    {
        if self.many.is_empty() {
            let mut list = copies(alloc, self.few.as_slice())?;
            list.push(value)?;
            self.many = list;
            return Ok(());
        }
        self.many.push(value)?;
        Ok(())
    }
}

/// The arguments of a call, then its result. Copies share one block of memory, which up to three values lie in. Contracts see it as the
/// list of the values.
#[derive(Drop)]
pub struct Slots {
    alloc: Global,
    // None where there is no value
    held: Option<Rc<ValueList>>,
}

impl Model for Slots {
    ghost use Rattle.std.specs.Prelude.{List, [], unwrap_or};
    ghost use Rattle.std.specs.Option.{option_map};
    ghost use Rattle.rd_base.specs.declared.values.Value.{Value as Item};

    ghost Value = { List Item };

    ghost view = { λ s. unwrap_or (option_map (λ held. held.value) s.held) [] };
}

// Copies of the values.
fn copies(alloc: Global, values: &[Value]) -> Result<Vec<Value>, NoMemory>
    ensures { IfOk result (λ list. list.items ≡ values.now) }
{
    let mut list = Vec::new(alloc);
    for value in values {
        list.push(value.copy(alloc)?)?;
    }
    Ok(list)
}

// Copies of at most three values.
fn few_copies(alloc: Global, values: &[Value]) -> Result<ArrayVec<Value, 3>, NoMemory>
    requires { length values.now ≤ 3 }
    ensures { IfOk result (λ few. few.items ≡ values.now) }
{
    let mut few = ArrayVec::new();
    for value in values {
        few.push(value.copy(alloc)?);
    }
    Ok(few)
}

// Copies of the values, and one value more.
fn with_last(alloc: Global, values: &[Value], last: Value) -> Result<Rc<ValueList>, NoMemory>
    ensures { IfOk result (λ held. held.value ≡ values.now ++ last ∷ []) }
{
    let mut list = ValueList {
        few: ArrayVec::new(),
        many: copies(alloc, values)?,
    };
    list.push(alloc, last)?;
    Ok(Rc::new(alloc, list)?)
}

impl Slots {
    ghost use Rattle.std.specs.Prelude.{◌≡◌, ◌≢◌, [], ◌∷◌, ◌++◌, false, IfOk, OnOk, OnErr, IsTrue};

    /// No values. It takes no memory.
    pub fn new(alloc: Global) -> Slots
        ensures { result ≡ [] }
    {
        Slots { alloc, held: None }
    }

    /// The list with these values.
    pub fn from_values(alloc: Global, values: Vec<Value>) -> Result<Slots, NoMemory>
        ensures { IfOk result (λ slots. slots ≡ values.items) }
    {
        let list = ValueList {
            few: ArrayVec::new(),
            many: values,
        };
        Ok(Slots::from_shared(alloc, Rc::new(alloc, list)?))
    }

    /// The list with the values of that one, in its memory.
    pub fn from_shared(alloc: Global, list: Rc<ValueList>) -> Slots
        ensures { result ≡ list.value }
    {
        Slots {
            alloc,
            held: Some(list),
        }
    }

    /// Puts a value last. After want of memory the list is as before.
    pub fn push(&mut self, value: Value) -> Result<(), NoMemory>
        ensures ok { OnOk result (self.new ≡ self.old ++ value ∷ []) }
        ensures err { OnErr result (self.new ≡ self.old) }
    {
        if let Some(held) = &mut self.held
            && let Some(list) = Rc::get_mut(held)
        {
            return list.push(self.alloc, value);
        }
        self.held = Some(with_last(self.alloc, self.items(), value)?);
        Ok(())
    }

    /// Makes the values equal to those of another list, in the memory of this one, where nothing else has that and neither has more than three, and
    /// answers whether it did. Else the list is as before, and so it is where copies of texts can't be made.
    pub fn assign(&mut self, other: &Slots) -> Result<bool, NoMemory>
        ensures assigned { IfOk result (λ done. IsTrue done → self.new ≡ other.now) }
        ensures kept { IfOk result (λ done. done ≡ false → self.new ≡ self.old) }
        ensures err { OnErr result (self.new ≡ self.old) }
    {
        let Some(theirs) = &other.held else {
            return Ok(false);
        };
        let Some(ours) = &mut self.held else {
            return Ok(false);
        };
        match Rc::get_mut(ours) {
            Some(list) => list.assign(self.alloc, theirs),
            None => Ok(false),
        }
    }

    /// The values.
    pub fn items(&self) -> &[Value]
        ensures { result.now ≡ self.now }
    {
        match &self.held {
            Some(held) => held.items(),
            None => &[],
        }
    }

    /// An equal list, which shares this one's memory. `NoMemory` comes only where too many share it, and
    /// for no values it never comes.
    pub fn copy(&self, alloc: Global) -> Result<Slots, NoMemory>
        ensures value { IfOk result (λ slots. slots ≡ self.now) }
        ensures memory { OnErr result (self.now ≢ []) }
    {
        match &self.held {
            Some(held) if !held.items().is_empty() => Ok(Slots {
                alloc,
                held: Some(held.clone()?),
            }),
            _ => Ok(Slots::new(alloc)),
        }
    }
}

// An empty list in memory of its own. It stands apart, since its room on the stack is cleared first.
#[inline(never)]
fn shared_list(alloc: Global) -> Result<Rc<ValueList>, NoMemory>
    ensures { IfOk result (λ list. list.value ≡ []) }
{
    Ok(Rc::new(alloc, ValueList::new(alloc))?)
}

/// The list of the values of a call that was read, kept so that the next call's lie in the same memory where nothing else has that. Contracts see
/// nothing of it.
#[derive(Drop)]
pub struct SpareList {
    held: Option<Rc<ValueList>>,
}

impl Model for SpareList {
    ghost Value = { Unit {0} };

    ghost view = { λ _. tt };
}

impl SpareList {
    /// Without memory.
    pub fn new(_alloc: Global) -> SpareList {
        SpareList { held: None }
    }

    /// An empty list, in the memory that is kept, where nothing else has that.
    #[inline(always)]
    pub fn take(&mut self, alloc: Global) -> Result<Rc<ValueList>, NoMemory>
        ensures { IfOk result (λ list. list.value ≡ []) }
    {
        if let Some(mut list) = self.held.take()
            && let Some(values) = Rc::get_mut(&mut list)
        {
            values.clear();
            return Ok(list);
        }
        shared_list(alloc)
    }

    /// Keeps the memory of this list for the next one.
    pub fn keep(&mut self, list: &Rc<ValueList>) {
        self.held = list.clone().ok();
    }
}

impl PartialEq for Slots {
    ghost use Rattle.std.specs.Cmp.Lexicographic.{pointwise, lists_per};
    ghost use Rattle.rd_base.specs.contracts.values.ValuePartialEq.TheImpl.Laws as value_laws;

    ghost eq = { pointwise ⟦<Value as PartialEq>⟧.eq };

    ghost laws = { lists_per value_laws.laws-law };

    fn eq(&self, other: &Slots) -> bool {
        self.items() == other.items()
    }
}

impl Eq for Slots {
    ghost use Rattle.std.specs.Cmp.Lexicographic.{lists_equiv};
    ghost use Rattle.rd_base.specs.contracts.values.ValueEq.TheImpl.Laws as value_laws;

    ghost laws = { lists_equiv value_laws.laws-law };
}
