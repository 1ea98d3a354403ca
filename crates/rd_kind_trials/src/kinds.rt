//! Kinds, their methods, and calls that commute or don't.

use crate::samples::{
    append_name, append_outline, built_in, commute, is_so, is_text, kind_at, name, spec_of,
};
use rd_base::Bytes;
use rd_ecl::{KindDraft, KindSpec, Names, Spec};
use rd_kinds::{KindTable, dictionary_table, law_of_shipped_kinds, reserved, shipped_count};
use std::alloc::Global;
use std::process::Abort;

// A cell, whose `put` answers what was there, and a flag: two calls of `set` commute where both are done.
const CELL_AND_FLAG: &str =
    "rdspec 1\nkind cell\nmethod put value -> prev\nmethod get -> value\ncommute put put when value@1 = prev@1 and value@2 = prev@2\ncommute put get when value@1 = prev@1\ncommute get get when true\nkind flag\nmethod set -> done\ncommute set set when done@1 = true\n";

// The outlines of the kinds, by their numbers, are these.
fn has_kinds(rt: &impl Abort, alloc: Global, spec: Spec, outlines: &str) {
    let mut text = Bytes::new(alloc);
    for kind in spec.kinds() {
        append_outline(rt, &mut text, kind.name(), kind.methods());
    }
    is_text(rt, text.items(), outlines);
}

const BUILT_IN: &str = "\
    register; read value; write value done; swap value prev\n\
    counter; add amount done; get total\n\
    set; add item done; remove item done; contains item found; size n\n\
    dictionary; put key value prev; get key value; size n\n\
    bag; add item done; remove item done; count item n\n\
    peak; raise amount prev; get peak\n\
    queue; enqueue item done; dequeue got; size n\n\
    tally; hit item done; count item n; total n\n";

const SAID: &str = "\
    cell; put value prev; get value\n\
    flag; set done\n";

const FLAG: &str = "rdspec 1\nkind flag\nmethod set -> done\ncommute set set when done@1 = true\n";

// The kinds that are built in, and one behind them.
const FLAG_BEHIND: &str = "\
    register; read value; write value done; swap value prev\n\
    counter; add amount done; get total\n\
    set; add item done; remove item done; contains item found; size n\n\
    dictionary; put key value prev; get key value; size n\n\
    bag; add item done; remove item done; count item n\n\
    peak; raise amount prev; get peak\n\
    queue; enqueue item done; dequeue got; size n\n\
    tally; hit item done; count item n; total n\n\
    flag; set done\n";

// The kinds that are built in, and these behind them.
fn behind(rt: &impl Abort, alloc: Global, kinds: Spec) -> Spec {
    built_in(rt, alloc).append(kinds).expect(rt, "memory")
}

#[test]
fn kinds_by_number(rt: HostRuntime) {
    law_of_shipped_kinds();
    assert!(rt; shipped_count() == 8);
    has_kinds(&rt, rt.alloc(), built_in(&rt, rt.alloc()), BUILT_IN);
    has_kinds(
        &rt,
        rt.alloc(),
        spec_of(&rt, rt.alloc(), CELL_AND_FLAG),
        SAID,
    );
    let all = behind(&rt, rt.alloc(), spec_of(&rt, rt.alloc(), FLAG));
    has_kinds(&rt, rt.alloc(), all, FLAG_BEHIND);
}

// The number of a kind, two calls by the numbers of their methods and their slots, and whether they commute.
type Pair<'a> = (u32, u8, &'a str, u8, &'a str, bool);

// The calls of these pairs commute or don't.
fn answer_pairs(rt: &impl Abort, alloc: Global, spec: Spec, pairs: &[Pair<'_>]) {
    for (number, first, slots, second, others, expected) in pairs {
        let kind = kind_at(rt, &spec, *number);
        let found = commute(rt, alloc, kind, (*first, slots), (*second, others));
        is_so(rt, found == *expected, slots);
    }
}

const CELL_AND_FLAG_PAIRS: [Pair<'static>; 11] = [
    // a `put` that changes nothing commutes with a `get` on either side, and one that changes the value doesn't
    (0, 0, "1 1", 1, "1", true),
    (0, 1, "1", 0, "1 1", true),
    (0, 0, "1 1", 0, "3 3", true),
    (0, 0, "1 2", 1, "1", false),
    (0, 1, "1", 0, "1 2", false),
    (0, 0, "1 2", 0, "3 3", false),
    (0, 1, "1", 1, "nil", true),
    // the formula is asked with either call on side 1
    (1, 0, "true", 0, "true", true),
    (1, 0, "true", 0, "false", false),
    (1, 0, "false", 0, "true", false),
    (1, 0, "false", 0, "false", false),
];

#[test]
fn calls_of_a_cell_and_a_flag(rt: HostRuntime) {
    let spec = spec_of(&rt, rt.alloc(), CELL_AND_FLAG);
    answer_pairs(&rt, rt.alloc(), spec, &CELL_AND_FLAG_PAIRS);
}

const BUILT_IN_PAIRS: [Pair<'static>; 33] = [
    (0, 0, "1", 0, "1", true),
    (0, 0, "1", 2, "1 1", true),
    (0, 2, "1 1", 2, "1 1", true),
    (0, 0, "1", 2, "2 1", false),
    (0, 2, "2 1", 2, "2 1", false),
    (1, 0, "0 nil", 1, "7", true),
    (1, 1, "7", 0, "0 nil", true),
    (1, 0, "0 nil", 0, "0 nil", true),
    (1, 0, "1 nil", 1, "7", false),
    (1, 1, "7", 0, "1 nil", false),
    (1, 0, "1 nil", 0, "1 nil", true),
    (3, 0, "1 5 nil", 0, "2 5 nil", true),
    (3, 0, "1 5 nil", 0, "1 6 5", false),
    (3, 0, "1 5 5", 0, "1 5 5", true),
    (3, 0, "1 5 nil", 2, "2", false),
    (3, 0, "1 6 5", 2, "2", true),
    (3, 2, "2", 0, "1 nil nil", true),
    // an `add` or a `remove` of a set, with a `size` and with a `contains` of 1
    (2, 0, "1 true", 3, "3", false),
    (2, 2, "1 true", 0, "1 true", false),
    (2, 1, "1 true", 3, "3", false),
    (2, 2, "1 true", 1, "1 true", false),
    (2, 0, "1 false", 3, "3", true),
    (2, 2, "1 true", 0, "1 false", true),
    (2, 1, "1 false", 3, "3", true),
    (2, 2, "1 true", 1, "1 false", true),
    (2, 0, "2 true", 3, "3", false),
    (2, 2, "1 true", 0, "2 true", true),
    (2, 1, "2 true", 3, "3", false),
    (2, 2, "1 true", 1, "2 true", true),
    (2, 0, "2 false", 3, "3", true),
    (2, 2, "1 true", 0, "2 false", true),
    (2, 1, "2 false", 3, "3", true),
    (2, 2, "1 true", 1, "2 false", true),
];

#[test]
fn calls_of_kinds_that_are_built_in(rt: HostRuntime) {
    let spec = built_in(&rt, rt.alloc());
    answer_pairs(&rt, rt.alloc(), spec, &BUILT_IN_PAIRS);
}

const BAG_AND_PEAK_PAIRS: [Pair<'static>; 22] = [
    (4, 0, "1 nil", 0, "1 nil", true),
    (4, 0, "1 nil", 1, "1 true", false),
    (4, 0, "1 nil", 1, "1 false", false),
    (4, 1, "2 true", 0, "1 nil", true),
    (4, 0, "1 nil", 2, "1 1", false),
    (4, 2, "1 1", 0, "2 nil", true),
    (4, 1, "1 true", 1, "1 true", true),
    (4, 1, "1 false", 1, "1 false", true),
    (4, 1, "1 true", 1, "1 false", false),
    (4, 1, "1 false", 1, "1 true", false),
    (4, 1, "1 true", 1, "2 false", true),
    (4, 1, "1 true", 2, "1 0", false),
    (4, 2, "1 0", 1, "1 false", true),
    (4, 1, "1 true", 2, "2 0", true),
    (4, 2, "1 0", 2, "1 0", true),
    // a `raise` that is at or below what was there, and one above it
    (5, 0, "3 5", 0, "5 5", true),
    (5, 0, "6 5", 0, "4 6", false),
    (5, 0, "4 5", 0, "6 5", false),
    (5, 0, "3 5", 1, "5", true),
    (5, 1, "5", 0, "6 5", false),
    (5, 0, "3 nil", 1, "3", false),
    (5, 1, "nil", 1, "nil", true),
];

const QUEUE_AND_TALLY_PAIRS: [Pair<'static>; 19] = [
    (6, 0, "1 nil", 0, "2 nil", false),
    (6, 0, "2 nil", 1, "1", true),
    (6, 1, "1", 0, "2 nil", true),
    (6, 0, "1 nil", 1, "1", false),
    (6, 1, "nil", 0, "1 nil", false),
    (6, 0, "1 nil", 2, "1", false),
    (6, 1, "nil", 1, "nil", true),
    (6, 1, "1", 1, "nil", false),
    (6, 1, "nil", 1, "1", false),
    (6, 1, "nil", 2, "0", true),
    (6, 2, "1", 1, "1", false),
    (6, 2, "1", 2, "1", true),
    (7, 0, "1 nil", 0, "1 nil", true),
    (7, 0, "1 nil", 1, "1 1", false),
    (7, 1, "2 0", 0, "1 nil", true),
    (7, 0, "1 nil", 2, "1", false),
    (7, 1, "1 0", 1, "1 0", true),
    (7, 2, "0", 1, "1 0", true),
    (7, 2, "0", 2, "0", true),
];

#[test]
fn calls_of_bags_peaks_queues_and_tallies(rt: HostRuntime) {
    let spec = built_in(&rt, rt.alloc());
    answer_pairs(&rt, rt.alloc(), spec, &BAG_AND_PEAK_PAIRS);
    let spec = built_in(&rt, rt.alloc());
    answer_pairs(&rt, rt.alloc(), spec, &QUEUE_AND_TALLY_PAIRS);
}

// How many nodes the formula of two methods has.
fn nodes(rt: &impl Abort, kind: &KindSpec, first: u8, second: u8) -> u32 {
    assert!(rt; first <= second && usize::from(second) < kind.methods().len());
    kind.formula(first, second).nodes()
}

#[test]
fn nodes_of_formulas(rt: HostRuntime) {
    let spec = spec_of(&rt, rt.alloc(), CELL_AND_FLAG);
    let cell = kind_at(&rt, &spec, 0);
    assert!(rt; nodes(&rt, cell, 0, 0) == 3);
    assert!(rt; nodes(&rt, cell, 1, 1) == 1);
}

// Puts a kind without methods behind the others.
fn push_bare(rt: &impl Abort, alloc: Global, spec: &mut Spec) {
    let draft = KindDraft::new(alloc, name(rt, "bare")).expect(rt, "memory");
    spec.push(draft.finish()).ok().expect(rt, "memory");
}

#[test]
fn no_kinds(rt: HostRuntime) {
    let mut spec = Spec::empty(rt.alloc());
    assert!(rt; spec.kinds().is_empty());
    assert!(rt; Names::new(rt.alloc()).items().is_empty());
    push_bare(&rt, rt.alloc(), &mut spec);
    has_kinds(&rt, rt.alloc(), spec, "bare\n");
}

const TAKEN: &str = " register counter set dictionary bag peak queue tally";

#[test]
fn taken_names(rt: HostRuntime) {
    let mut text = Bytes::new(rt.alloc());
    for name in &reserved() {
        append_name(&rt, &mut text, b" ", name);
    }
    is_text(&rt, text.items(), TAKEN);
}

// A name and the number of its method, and a number and how many arguments its method has.
const METHODS: [(&str, Option<u8>, u8, Option<u8>); 4] = [
    ("put", Some(0), 0, Some(2)),
    ("get", Some(1), 1, Some(1)),
    ("size", Some(2), 2, Some(0)),
    ("add", None, 3, None),
];

fn has_methods(rt: &impl Abort, table: &KindTable<3>, rows: &[(&str, Option<u8>, u8, Option<u8>)]) {
    for (text, number, method, args) in rows {
        is_so(
            rt,
            table.find(&name(rt, text)) == *number && table.args(*method) == *args,
            text,
        );
    }
}

#[test]
fn tables(rt: HostRuntime) {
    has_methods(&rt, &dictionary_table(), &METHODS);
}
