//! Predicates of methods, formulas in which these have truth values, and pairs of slots.

use crate::samples::{built_in, is_so, is_so_at, kind_at};
use rd_base::Value;
use rd_ecl::{
    KindSpec, Predicate, Predicates, Reduced, Rel, SlotPairs, Term, Valuation, law_of_predicates,
    reduce,
};
use std::alloc::Global;
use std::process::Abort;

// The number of the dictionary among the kinds that are built in, and those of its methods.
const DICTIONARY: u32 = 3;

const PUT: u8 = 0;

const GET: u8 = 1;

const SIZE: u8 = 2;

// Slots of a `put`.
const VALUE: u8 = 1;

const PREV: u8 = 2;

// A slot is equal to another one, or to `nil`.
type Equality = (u8, Option<u8>);

// Does the predicate say so?
fn is_equality(predicate: &Predicate, row: Equality) -> bool {
    let is_right = match (&predicate.right, row.1) {
        (Term::Slot(slot), Some(wanted)) => *slot == wanted,
        (Term::Const(Value::Nil), None) => true,
        _ => false,
    };
    is_right
        && predicate.rel == Rel::Eq
        && matches!(&predicate.left, Term::Slot(slot) if *slot == row.0)
}

// The predicates are these.
fn are_equalities(rt: &impl Abort, predicates: &Predicates, rows: &[Equality]) {
    assert!(rt; predicates.items().len() == rows.len());
    for (found, row) in predicates.items().iter().zip(rows) {
        is_so(rt, is_equality(found, *row), "a predicate");
    }
}

// The formulas of a `put` with each other method, with each `put` on side 1.
const OF_A_PUT: [Equality; 3] = [(VALUE, Some(PREV)), (VALUE, None), (PREV, None)];

// The predicates of a method of the kind are these.
fn has_predicates(rt: &impl Abort, alloc: Global, kind: &KindSpec, method: u8, rows: &[Equality]) {
    assert!(rt; usize::from(method) < kind.methods().len());
    let predicates = kind.predicates(alloc, method).expect(rt, "memory");
    are_equalities(rt, &predicates, rows);
}

#[test]
fn predicates_of_methods(rt: HostRuntime) {
    let kinds = built_in(&rt, rt.alloc());
    let kind = kind_at(&rt, &kinds, DICTIONARY);
    has_predicates(&rt, rt.alloc(), kind, PUT, &OF_A_PUT);
    has_predicates(&rt, rt.alloc(), kind, GET, &[]);
}

// What is left of a formula: for the pairs, the one that there is.
#[derive(Clone, Copy)]
enum Left {
    True,
    False,
    Pair(u8, u8),
}

// Are the pairs these?
fn are_pairs(pairs: &SlotPairs, wanted: &[(u8, u8)]) -> bool {
    pairs.items() == wanted
}

// Is this what is left?
fn is_left(found: Reduced, left: Left) -> bool {
    match (&found, left) {
        (Reduced::True, Left::True) => true,
        (Reduced::False, Left::False) => true,
        (Reduced::Pairs(pairs), Left::Pair(first, second)) => are_pairs(pairs, &[(first, second)]),
        _ => false,
    }
}

// The formula of two methods where their predicates have these bits.
fn reduced(
    rt: &impl Abort,
    alloc: Global,
    kind: &KindSpec,
    first: (u8, u8),
    second: (u8, u8),
) -> Reduced {
    law_of_predicates();
    let count = kind.methods().len();
    assert!(rt; first.0 <= second.0 && usize::from(second.0) < count);
    let firsts = kind.predicates(alloc, first.0).expect(rt, "memory");
    let seconds = kind.predicates(alloc, second.0).expect(rt, "memory");
    let formula = kind.formula(first.0, second.0);
    let (v, w) = (Valuation { bits: first.1 }, Valuation { bits: second.1 });
    reduce(alloc, formula, &firsts, v, &seconds, w).expect(rt, "memory")
}

// Two methods of a dictionary, each with the bits of its predicates, and what is left of their formula.
const REDUCTIONS: [((u8, u8), (u8, u8), Left); 5] = [
    // only the second `put` leaves the value as it is: the keys have to differ
    ((PUT, 0), (PUT, 1), Left::Pair(0, 0)),
    ((PUT, 1), (PUT, 1), Left::True),
    // the `put` puts a value where none was
    ((PUT, 4), (SIZE, 0), Left::False),
    // it leaves `nil` there
    ((PUT, 7), (SIZE, 0), Left::True),
    ((GET, 0), (GET, 0), Left::True),
];

#[test]
fn reduced_formulas(rt: HostRuntime) {
    let kinds = built_in(&rt, rt.alloc());
    let kind = kind_at(&rt, &kinds, DICTIONARY);
    for (number, (first, second, left)) in REDUCTIONS.iter().enumerate() {
        let found = reduced(&rt, rt.alloc(), kind, *first, *second);
        is_so_at(&rt, is_left(found, *left), number);
    }
}

// The predicate that says that a slot is equal to another one, or to `nil`.
fn equality(row: Equality) -> Predicate {
    let right = match row.1 {
        Some(slot) => Term::Slot(slot),
        None => Term::Const(Value::Nil),
    };
    Predicate {
        rel: Rel::Eq,
        left: Term::Slot(row.0),
        right,
    }
}

#[test]
fn lists_of_predicates(rt: HostRuntime) {
    let mut predicates = Predicates::new(rt.alloc());
    are_equalities(&rt, &predicates, &[]);
    for row in &OF_A_PUT {
        predicates.push(equality(*row)).expect(&rt, "memory");
    }
    are_equalities(&rt, &predicates, &OF_A_PUT);
}

const PAIRS: [(u8, u8); 2] = [(2, 1), (0, 3)];

// The list of these pairs.
fn listed(rt: &impl Abort, alloc: Global, rows: &[(u8, u8)]) -> SlotPairs {
    let mut pairs = SlotPairs::new(alloc);
    for row in rows {
        pairs.push(*row).expect(rt, "memory");
    }
    pairs
}

#[test]
fn pairs_of_slots(rt: HostRuntime) {
    is_so(
        &rt,
        are_pairs(&listed(&rt, rt.alloc(), &[]), &[]),
        "no pairs",
    );
    let pairs = listed(&rt, rt.alloc(), &PAIRS);
    is_so(&rt, are_pairs(&pairs, &PAIRS), "two pairs");
    // a pair that is there, and the same turned round
    is_so(&rt, pairs.has(2, 1) && !pairs.has(1, 2), "one pair");
}
