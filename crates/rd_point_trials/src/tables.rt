//! The compiled table of a kind.

use rd_base::NoMemory;
use rd_ecl::{Predicate, Rel, Term, Valuation};
use rd_points::{Table, Touch};
use rd_reading::parse;
use rd_samples::push_number;
use std::alloc::Global;
use std::process::Abort;

// A cell, whose `put` answers what was there.
const CELL: &str =
    "rdspec 1\nkind cell\nmethod put value -> prev\nmethod get -> value\ncommute put put when value@1 = prev@1 and value@2 = prev@2\ncommute put get when value@1 = prev@1\ncommute get get when true\n";

// The valuations of `put` are that it changes the value and that it doesn't.
const TABLE_OF_THE_CELL: &str = "class 0 plain conflicts 0 3 6
class 1 value conflicts
class 2 value conflicts
class 3 plain conflicts 0
class 4 value conflicts
class 5 value conflicts
class 6 plain conflicts 0
class 7 value conflicts
touch 0 0: 0 1 by 0 2 by 1
touch 0 1: 3 4 by 0 5 by 1
touch 0 2:
touch 1 0: 6 7 by 0
touch 1 1:
touch 2 0:
";

// A class, and those that conflict with it.
fn push_class(text: &mut String, table: &Table, class: u32) -> Result<(), NoMemory> {
    let form = if table.plain(class) { "plain" } else { "value" };
    write!(text, "class {class} {form} conflicts")?;
    for other in table.conflicts(class) {
        push_number(text, " ", *other, "")?;
    }
    text.push_str("\n")?;
    Ok(())
}

fn push_touch(text: &mut String, touch: Touch) -> Result<(), NoMemory> {
    push_number(text, " ", touch.class, "")?;
    if let Some(slot) = touch.slot {
        push_number(text, " by ", u32::from(slot), "")?;
    }
    Ok(())
}

// What a method with this valuation touches.
fn push_touches(text: &mut String, table: &Table, method: u8, bits: u8) -> Result<(), NoMemory> {
    push_number(text, "touch ", u32::from(method), "")?;
    push_number(text, " ", u32::from(bits), ":")?;
    for touch in table.touches(method, Valuation { bits }).as_slice() {
        push_touch(text, *touch)?;
    }
    text.push_str("\n")?;
    Ok(())
}

const TOUCHES: [(u8, u8); 6] = [(0, 0), (0, 1), (0, 2), (1, 0), (1, 1), (2, 0)];

fn text_of(alloc: Global, table: &Table) -> Result<String, NoMemory> {
    let mut text = String::new(alloc);
    for class in 0..table.classes() {
        push_class(&mut text, table, class)?;
    }
    for (method, bits) in TOUCHES {
        push_touches(&mut text, table, method, bits)?;
    }
    Ok(text)
}

// The table of the first kind that a text says.
fn table_of(rt: &impl Abort, alloc: Global, text: &str) -> Table {
    let spec = parse(alloc, text.as_bytes(), &[]).expect(rt, "a specification");
    let kind = spec.kinds().first().expect(rt, "a kind");
    Table::compile(alloc, kind).expect(rt, "memory")
}

fn is_slot(term: &Term, wanted: u8) -> bool {
    matches!(term, Term::Slot(slot) if *slot == wanted)
}

// Its first slot equals its second.
fn keeps_the_value(predicate: &Predicate) -> bool {
    predicate.rel == Rel::Eq && is_slot(&predicate.left, 0) && is_slot(&predicate.right, 1)
}

#[test]
fn table_of_a_cell(rt: HostRuntime) {
    let table = table_of(&rt, rt.alloc(), CELL);
    assert!(rt; table.classes() == 8);
    let text = text_of(rt.alloc(), &table).expect(&rt, "memory");
    assert!(rt; text.as_str() == TABLE_OF_THE_CELL, "{text}");
}

#[test]
fn predicates_of_a_cell(rt: HostRuntime) {
    let table = table_of(&rt, rt.alloc(), CELL);
    assert!(rt; table.predicates(0).len() == 1);
    assert!(rt; table.predicates(0).iter().all(keeps_the_value));
    assert!(rt; table.predicates(1).is_empty() && table.predicates(2).is_empty());
}
