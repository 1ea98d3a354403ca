//! What rows say of values and events.

use rd_base::{Slots, Text, Value};
use rd_event::{Call, Event};
use std::alloc::Global;
use std::process::Abort;

/// A value as a row has it.
#[derive(Clone, Copy)]
pub enum Wanted<'a> {
    Nil,
    Bool(bool),
    Int(i64),
    Text(&'a [u8]),
}

impl Wanted<'_> {
    /// The value.
    pub fn value(self, rt: &impl Abort, alloc: Global) -> Value {
        match self {
            Wanted::Nil => Value::Nil,
            Wanted::Bool(value) => Value::Bool(value),
            Wanted::Int(value) => Value::Int(value),
            Wanted::Text(bytes) => {
                Value::Text(Text::from_bytes(alloc, bytes).expect(rt, "a short text"))
            }
        }
    }

    /// Is this the value?
    pub fn is(self, value: &Value) -> bool {
        match self {
            Wanted::Nil => matches!(value, Value::Nil),
            Wanted::Bool(wanted) => matches!(value, Value::Bool(value) if *value == wanted),
            Wanted::Int(wanted) => matches!(value, Value::Int(value) if *value == wanted),
            Wanted::Text(wanted) => matches!(value, Value::Text(text) if text.items() == wanted),
        }
    }
}

/// Are these the values?
pub fn are(wanted: &[Wanted], values: &[Value]) -> bool {
    for (wanted, value) in wanted.iter().zip(values) {
        if !wanted.is(value) {
            return false;
        }
    }
    wanted.len() == values.len()
}

/// A list with these values.
pub fn slots(rt: &impl Abort, alloc: Global, wanted: &[Wanted]) -> Slots {
    let mut slots = Slots::new(alloc);
    for value in wanted {
        slots.push(value.value(rt, alloc)).expect(rt, "memory");
    }
    slots
}

/// What a thread does in a row, by numbers.
#[derive(Clone, Copy)]
pub enum Act<'a> {
    Fork(u32),
    Join(u32),
    Acquire(u32),
    Release(u32),
    Share(u32),
    Unshare(u32),
    /// the object, the kind, the method and the slots
    Call(u32, u32, u8, &'a [Wanted<'a>]),
}

/// The event of a thread that does this.
pub fn event(rt: &impl Abort, alloc: Global, thread: u32, act: Act) -> Event {
    match act {
        Act::Fork(child) => Event::Fork { thread, child },
        Act::Join(child) => Event::Join { thread, child },
        Act::Acquire(lock) => Event::Acquire { thread, lock },
        Act::Release(lock) => Event::Release { thread, lock },
        Act::Share(lock) => Event::Share { thread, lock },
        Act::Unshare(lock) => Event::Unshare { thread, lock },
        Act::Call(object, kind, method, wanted) => Event::Call(Call {
            thread,
            object,
            kind,
            method,
            slots: slots(rt, alloc, wanted),
        }),
    }
}

/// The events of threads that do this.
pub fn events(rt: &impl Abort, alloc: Global, acts: &[(u32, Act)]) -> Vec<Event> {
    let mut events = Vec::new(alloc);
    for (thread, act) in acts {
        let event = event(rt, alloc, *thread, *act);
        events.push(event).expect(rt, "memory");
    }
    events
}
