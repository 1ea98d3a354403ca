//! Merging keeps which touches conflict.

use rd_classes::merged_table;
use rd_ecl::{KindSpec, Valuation};
use rd_kinds::shipped;
use rd_points::{Table, Touch};
use std::alloc::Global;
use std::process::Abort;

// A method and a valuation.
#[derive(Clone, Copy)]
struct Asked {
    method: u8,
    v: Valuation,
}

// What is touched with no slot, and with each of the slots that a method may have here.
const SLOTS: [Option<u8>; 4] = [None, Some(0), Some(1), Some(2)];

// The class that is touched with this slot, if one is.
fn class_of(touches: &[Touch], slot: Option<u8>) -> Option<u32> {
    for touch in touches {
        if touch.slot == slot {
            return Some(touch.class);
        }
    }
    None
}

// Do two touches conflict, if both are there?
fn conflict(table: &Table, first: (Asked, Option<u8>), second: (Asked, Option<u8>)) -> bool {
    let one = table.touches(first.0.method, first.0.v);
    let other = table.touches(second.0.method, second.0.v);
    match (
        class_of(one.as_slice(), first.1),
        class_of(other.as_slice(), second.1),
    ) {
        (Some(one), Some(other)) => table.conflicts(one).contains(&other),
        _ => false,
    }
}

// All touches of the two conflict by both tables or by none.
fn are_kept(rt: &impl Abort, table: &Table, merged: &Table, first: Asked, second: Asked) {
    for s in SLOTS {
        for t in SLOTS {
            assert!(rt;
                conflict(table, (first, s), (second, t))
                    == conflict(merged, (first, s), (second, t))
            );
        }
    }
}

// Each method with each valuation.
fn all_asked(rt: &impl Abort, alloc: Global, kind: &KindSpec, table: &Table) -> Vec<Asked> {
    let mut asked = Vec::new(alloc);
    let mut method = 0u8;
    for _ in kind.methods() {
        for bits in 0..1u8 << table.predicates(method).len() {
            let v = Valuation { bits };
            asked.push(Asked { method, v }).expect(rt, "memory");
        }
        method = method.wrapping_add(1);
    }
    asked
}

/// Each two touches of a kind conflict by its merged table exactly where they do by the other.
pub fn keeps_conflicts(rt: &impl Abort, alloc: Global, kind: &KindSpec) {
    let table = Table::compile(alloc, kind).expect(rt, "memory");
    let merged = merged_table(alloc, kind).expect(rt, "memory");
    let asked = all_asked(rt, alloc, kind, &table);
    for first in &asked {
        for second in &asked {
            are_kept(rt, &table, &merged, *first, *second);
        }
    }
}

fn has_classes(rt: &impl Abort, alloc: Global, kind: &KindSpec, classes: u32) {
    assert!(rt; merged_table(alloc, kind).expect(rt, "memory").classes() == classes);
}

// How many merged classes the kinds that are built in have.
const CLASSES: [u32; 4] = [2, 2, 4, 4];

#[test]
fn merging_keeps_conflicts(rt: HostRuntime) {
    let spec = shipped(rt.alloc()).expect(&rt, "memory");
    for (kind, classes) in spec.kinds().iter().zip(&CLASSES) {
        has_classes(&rt, rt.alloc(), kind, *classes);
        keeps_conflicts(&rt, rt.alloc(), kind);
    }
}
