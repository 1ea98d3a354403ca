//! Calls touch points that conflict where they don't commute.
ghost use Rattle.std.specs.Prelude.{◌≡◌, ◌<◌, IsTrue, length};
ghost use Rattle.rd_ecl.specs.Specified.{slots_at};

use rd_base::Value;
use rd_classes::merged_table;
use rd_ecl::{KindSpec, Method};
use rd_kinds::shipped;
use rd_points::{Table, Touch};
use std::alloc::Global;
use std::process::Abort;

// A call: a method and its slots.
#[derive(Drop)]
pub struct Call {
    method: u8,
    slots: Vec<Value>,
}

// One of three values.
fn value(number: u32) -> Value {
    match number % 3 {
        0 => Value::Int(0),
        1 => Value::Int(1),
        _ => Value::Bool(true),
    }
}

// The slots that this number says, with three values each.
fn slots(rt: &impl Abort, alloc: Global, count: usize, number: u32) -> Vec<Value> {
    let mut slots = Vec::new(alloc);
    let mut rest = number;
    for _ in 0..count {
        slots.push(value(rest)).expect(rt, "memory");
        rest /= 3;
    }
    slots
}

// How many calls with three values there are.
fn call_count(method: &Method) -> u32 {
    match method.variables.items().len() {
        1 => 3,
        2 => 9,
        _ => 27,
    }
}

// The calls of a method.
fn add_calls(rt: &impl Abort, alloc: Global, calls: &mut Vec<Call>, number: u8, method: &Method) {
    for call in 0..call_count(method) {
        let call = Call {
            method: number,
            slots: slots(rt, alloc, method.variables.items().len(), call),
        };
        calls.push(call).expect(rt, "memory");
    }
}

fn calls_of(rt: &impl Abort, alloc: Global, kind: &KindSpec) -> Vec<Call> {
    let mut calls = Vec::new(alloc);
    let mut number = 0u8;
    for method in kind.methods() {
        add_calls(rt, alloc, &mut calls, number, method);
        number = number.wrapping_add(1);
    }
    calls
}

// Does the kind have this method, with so many slots?
fn has_slots(kind: &KindSpec, method: u8, count: usize) -> bool
    ensures { IsTrue result
        → (method < length kind.now.methods) × (slots_at kind.now.methods method ≡ count) }
{
    match kind.methods().get(usize::from(method)) {
        Some(method) => method.variables.items().len() == count,
        None => false,
    }
}

fn commute(rt: &impl Abort, kind: &KindSpec, first: &Call, second: &Call) -> bool {
    assert!(rt; has_slots(kind, first.method, first.slots.len()));
    assert!(rt; has_slots(kind, second.method, second.slots.len()));
    kind.commute(first.method, &first.slots, second.method, &second.slots)
}

// The value that a call touches a class with, or none.
fn touched_value<'a>(call: &'a Call, touch: &Touch) -> Option<&'a Value> {
    match touch.slot {
        Some(slot) => call.slots.get(usize::from(slot)),
        None => None,
    }
}

// Do the classes conflict, with equal values or none?
fn meet(table: &Table, first: (&Call, &Touch), second: (&Call, &Touch)) -> bool {
    table.conflicts(first.1.class).contains(&second.1.class)
        && touched_value(first.0, first.1) == touched_value(second.0, second.1)
}

// Does the first touch of a call conflict with one of the other call?
fn meets_one(table: &Table, first: (&Call, &Touch), second: &Call) -> bool {
    for touch in table.touched(second.method, &second.slots).as_slice() {
        if meet(table, first, (second, touch)) {
            return true;
        }
    }
    false
}

// Do the calls touch points that conflict?
fn meets(table: &Table, first: &Call, second: &Call) -> bool {
    for touch in table.touched(first.method, &first.slots).as_slice() {
        if meets_one(table, (first, touch), second) {
            return true;
        }
    }
    false
}

// The call and each of these touch points that conflict exactly where they don't commute.
fn is_told(rt: &impl Abort, kind: &KindSpec, table: &Table, first: &Call, calls: &[Call]) {
    for second in calls {
        assert!(rt; meets(table, first, second) != commute(rt, kind, first, second));
    }
}

/// So do all calls of a kind, in both orders, by its table and by the merged one.
pub fn tells(rt: &impl Abort, alloc: Global, kind: &KindSpec) {
    let table = Table::compile(alloc, kind).expect(rt, "memory");
    let merged = merged_table(alloc, kind).expect(rt, "memory");
    let calls = calls_of(rt, alloc, kind);
    assert!(rt; calls.len() > 8);
    for first in &calls {
        is_told(rt, kind, &table, first, &calls);
        is_told(rt, kind, &merged, first, &calls);
    }
}

#[test]
fn calls_of_built_in_kinds(rt: HostRuntime) {
    let spec = shipped(rt.alloc()).expect(&rt, "memory");
    for kind in spec.kinds() {
        tells(&rt, rt.alloc(), kind);
    }
}
