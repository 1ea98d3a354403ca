//! What a detector is made of.

use super::Detector;
use rd_ecl::Spec;
use rd_points::Table;
use rd_store::Store;
use std::alloc::Global;

// Before the first call there is no cell, and no sweep left one.
fn is_new(alloc: &Global, tables: &Vec<Table>, store: &Store, kept: &u128) -> bool {
    let _: Global = *alloc;
    tables.is_empty() && store.cells() == 0 && *kept == 0
}

/// A detector has these four fields and no other, each of this type.
#[test]
fn the_fields_of_a_detector(rt: HostRuntime) {
    let spec = Spec::empty(rt.alloc());
    let detector = Detector::new(rt.alloc(), &spec).expect(&rt, "memory");
    let Detector {
        alloc,
        tables,
        store,
        kept,
    } = &detector;
    let alloc: &Global = alloc;
    let tables: &Vec<Table> = tables;
    let store: &Store = store;
    let kept: &u128 = kept;
    assert!(rt; is_new(alloc, tables, store, kept));
}
