//! Formulas of two calls, and which of them are in the fragment.
ghost use Rattle.std.specs.Prelude.{◌≡◌, ◌≤◌, pos, true, false};
ghost use Rattle.rd_base.specs.declared.values.Value.TheVariants.{Int};
ghost use Rattle.rd_ecl.specs.declared.formulas.Rel.TheVariants.{Eq, Le};
ghost use Rattle.rd_ecl.specs.declared.formulas.Side.TheVariants.{First, Second};
ghost use Rattle.rd_ecl.specs.declared.formulas.Term.TheVariants.{Slot, Const};
ghost use Rattle.rd_ecl.specs.Formulas.{Fits, tree_of, atom, cross, mixed, negation, both, either, nodes};

use crate::samples::{is_so, is_so_at, value};
use rd_base::Value;
use rd_ecl::{Formula, Outside, Reason, Rel, Side, Term};
use std::alloc::Global;
use std::process::Abort;

// A formula of two calls with two slots each.
#[derive(Clone, Copy)]
enum Sketch {
    True,
    False,
    // slot 0 of side 2 is the integer 1
    Sided,
    // slot 0 of side 1 differs from slot 1 of side 2
    Crossing,
    // slot 1 of side 2 is at most slot 0 of side 1
    AtMost,
    // slot 0 of side 1 is at most slot 1 of side 2
    Straight,
    NotSided,
    NotCrossing,
    SidedAndCrossing,
    SidedAndAtMost,
    CrossingAndCrossing,
    AtMostOrSided,
    SidedOrCrossing,
    CrossingOrSided,
    CrossingOrCrossing,
    CrossingOrAtMost,
    // `not` over a sided one, or the `and` of an `or` and a sided one
    Guarded,
    // the `and` of a sided one and `true`, and `not` over a crossing one
    LateNot,
}

fn not(rt: &impl Abort, alloc: Global, inner: Formula) -> Formula
    ensures { tree_of result ≡ negation (tree_of inner) }
{
    Formula::Not(Box::new(alloc, inner).expect(rt, "memory"))
}

fn and(rt: &impl Abort, alloc: Global, left: Formula, right: Formula) -> Formula
    ensures { tree_of result ≡ both (tree_of left) (tree_of right) }
{
    let left = Box::new(alloc, left).expect(rt, "memory");
    Formula::And(left, Box::new(alloc, right).expect(rt, "memory"))
}

fn or(rt: &impl Abort, alloc: Global, left: Formula, right: Formula) -> Formula
    ensures { tree_of result ≡ either (tree_of left) (tree_of right) }
{
    let left = Box::new(alloc, left).expect(rt, "memory");
    Formula::Or(left, Box::new(alloc, right).expect(rt, "memory"))
}

fn sided() -> Formula
    ensures { tree_of result ≡ atom Second Eq (Slot 0) (Const (Int (pos 1))) }
{
    Formula::Atom {
        side: Side::Second,
        rel: Rel::Eq,
        left: Term::Slot(0),
        right: Term::Const(Value::Int(1)),
    }
}

fn crossing() -> Formula
    ensures { tree_of result ≡ cross 0 1 }
{
    Formula::Cross {
        first: 0,
        second: 1,
    }
}

fn at_most(flipped: bool) -> Formula
    ensures { tree_of result ≡ mixed Le flipped 0 1 }
{
    Formula::Mixed {
        rel: Rel::Le,
        flipped,
        first: 0,
        second: 1,
    }
}

fn guarded(rt: &impl Abort, alloc: Global) -> Formula
    ensures fits { Fits (tree_of result) 2 2 }
    ensures few { nodes (tree_of result) ≤ 8 }
{
    let part = or(rt, alloc, crossing(), sided());
    let part = and(rt, alloc, part, sided());
    or(rt, alloc, not(rt, alloc, sided()), part)
}

fn late_not(rt: &impl Abort, alloc: Global) -> Formula
    ensures fits { Fits (tree_of result) 2 2 }
    ensures few { nodes (tree_of result) ≤ 8 }
{
    let parts = and(rt, alloc, sided(), Formula::True);
    and(rt, alloc, parts, not(rt, alloc, crossing()))
}

fn made(rt: &impl Abort, alloc: Global, sketch: Sketch) -> Formula
    ensures fits { Fits (tree_of result) 2 2 }
    ensures few { nodes (tree_of result) ≤ 8 }
{
    match sketch {
        Sketch::True => Formula::True,
        Sketch::False => Formula::False,
        Sketch::Sided => sided(),
        Sketch::Crossing => crossing(),
        Sketch::AtMost => at_most(true),
        Sketch::Straight => at_most(false),
        Sketch::NotSided => not(rt, alloc, sided()),
        Sketch::NotCrossing => not(rt, alloc, crossing()),
        Sketch::SidedAndCrossing => and(rt, alloc, sided(), crossing()),
        Sketch::SidedAndAtMost => and(rt, alloc, sided(), at_most(true)),
        Sketch::CrossingAndCrossing => and(rt, alloc, crossing(), crossing()),
        Sketch::AtMostOrSided => or(rt, alloc, at_most(true), sided()),
        Sketch::SidedOrCrossing => or(rt, alloc, sided(), crossing()),
        Sketch::CrossingOrSided => or(rt, alloc, crossing(), sided()),
        Sketch::CrossingOrCrossing => or(rt, alloc, crossing(), crossing()),
        Sketch::CrossingOrAtMost => or(rt, alloc, crossing(), at_most(true)),
        Sketch::Guarded => guarded(rt, alloc),
        Sketch::LateNot => late_not(rt, alloc),
    }
}

// What is said of a formula.
#[derive(Clone, Copy)]
enum Claim {
    // it holds of two calls, or doesn't
    Holds(bool),
    // the same of these turned round
    HoldsTurned(bool),
    // no node is outside the fragment
    Inside,
    // the first node outside, and why
    Outside(u32, Reason),
    // how many nodes and levels it has
    Size(u32, u32),
}

// Does it hold of two calls, or of these turned round?
fn holds(formula: &Formula, turned: bool) -> bool
    requires { Fits (tree_of formula.now) 2 2 × (nodes (tree_of formula.now) ≤ 8) }
{
    let a = [Value::Int(5), Value::Int(1)];
    let b = [Value::Int(1), Value::Int(7)];
    if turned {
        formula.holds(&b, &a)
    } else {
        formula.holds(&a, &b)
    }
}

// Is this the first node outside?
fn is_place(found: Option<Outside>, node: u32, reason: Reason) -> bool {
    match found {
        Some(outside) => outside.node == node && outside.reason == reason,
        None => false,
    }
}

// Is the claim right?
fn is_right(formula: &Formula, claim: Claim) -> bool
    requires { Fits (tree_of formula.now) 2 2 × (nodes (tree_of formula.now) ≤ 8) }
{
    match claim {
        Claim::Holds(expected) => holds(formula, false) == expected,
        Claim::HoldsTurned(expected) => holds(formula, true) == expected,
        Claim::Inside => formula.place_outside().is_none(),
        Claim::Outside(node, reason) => is_place(formula.place_outside(), node, reason),
        Claim::Size(nodes, levels) => formula.nodes() == nodes && formula.levels() == levels,
    }
}

// Is the claim of this formula right?
fn sketch_is_right(rt: &impl Abort, alloc: Global, sketch: Sketch, claim: Claim) -> bool {
    // a box is dropped by one call
    let formula = Box::new(alloc, made(rt, alloc, sketch)).expect(rt, "memory");
    is_right(&formula, claim)
}

// The claims are right.
fn are_right(rt: &impl Abort, alloc: Global, rows: &[(Sketch, Claim)]) {
    for (number, (sketch, claim)) in rows.iter().enumerate() {
        is_so_at(rt, sketch_is_right(rt, alloc, *sketch, *claim), number);
    }
}

const CALLS: [(Sketch, Claim); 15] = [
    (Sketch::True, Claim::Holds(true)),
    (Sketch::False, Claim::Holds(false)),
    // slot 0 of the call on side 2 is 1
    (Sketch::Sided, Claim::Holds(true)),
    (Sketch::Sided, Claim::HoldsTurned(false)),
    // 5 differs from 7, and 1 doesn't differ from 1
    (Sketch::Crossing, Claim::Holds(true)),
    (Sketch::Crossing, Claim::HoldsTurned(false)),
    // 7 isn't at most 5, and 1 is at most 1
    (Sketch::AtMost, Claim::Holds(false)),
    (Sketch::AtMost, Claim::HoldsTurned(true)),
    (Sketch::Straight, Claim::Holds(true)),
    (Sketch::NotSided, Claim::Holds(false)),
    (Sketch::NotSided, Claim::HoldsTurned(true)),
    (Sketch::SidedAndCrossing, Claim::Holds(true)),
    (Sketch::SidedAndAtMost, Claim::Holds(false)),
    (Sketch::AtMostOrSided, Claim::Holds(true)),
    (Sketch::SidedOrCrossing, Claim::HoldsTurned(false)),
];

#[test]
fn formulas_of_two_calls(rt: HostRuntime) {
    are_right(&rt, rt.alloc(), &CALLS);
}

const FRAGMENT: [(Sketch, Claim); 13] = [
    (Sketch::False, Claim::Inside),
    (Sketch::Sided, Claim::Inside),
    (Sketch::Crossing, Claim::Inside),
    (Sketch::NotSided, Claim::Inside),
    (Sketch::CrossingAndCrossing, Claim::Inside),
    (Sketch::CrossingOrSided, Claim::Inside),
    (Sketch::SidedOrCrossing, Claim::Inside),
    (Sketch::Guarded, Claim::Inside),
    (Sketch::AtMost, Claim::Outside(0, Reason::CrossRelation)),
    (Sketch::NotCrossing, Claim::Outside(1, Reason::NotOverCross)),
    (
        Sketch::CrossingOrCrossing,
        Claim::Outside(2, Reason::OrOfCross),
    ),
    // the part on the right of the `or` comes before the `or`
    (
        Sketch::CrossingOrAtMost,
        Claim::Outside(1, Reason::CrossRelation),
    ),
    // 0 and 1 are on one side, 2 is the `and` of them, 3 the crossing one, 4 the `not`
    (Sketch::LateNot, Claim::Outside(4, Reason::NotOverCross)),
];

#[test]
fn first_nodes_outside(rt: HostRuntime) {
    are_right(&rt, rt.alloc(), &FRAGMENT);
}

const SIZES: [(Sketch, Claim); 2] = [
    (Sketch::Guarded, Claim::Size(8, 4)),
    (Sketch::LateNot, Claim::Size(6, 3)),
];

#[test]
fn nodes_and_levels(rt: HostRuntime) {
    are_right(&rt, rt.alloc(), &SIZES);
}

// Two values, and `=`, `<` and `<=` of them.
type Relations<'a> = (&'a str, &'a str, bool, bool, bool);

const RELATIONS: [Relations<'static>; 13] = [
    ("nil", "nil", true, false, false),
    ("true", "true", true, false, false),
    ("false", "true", false, false, false),
    ("nil", "false", false, false, false),
    ("3", "3", true, false, true),
    ("-4", "3", false, true, true),
    ("3", "-4", false, false, false),
    (
        "-9223372036854775808",
        "9223372036854775807",
        false,
        true,
        true,
    ),
    ("0", "true", false, false, false),
    ("1", "\"1\"", false, false, false),
    ("\"1\"", "\"10\"", false, false, false),
    // texts have no order
    ("\"ab\"", "\"ab\"", true, false, false),
    ("\"ab\"", "\"ac\"", false, false, false),
];

// The relation of two values.
fn relates(rt: &impl Abort, alloc: Global, left: &str, right: &str, rel: Rel) -> bool {
    let formula = Formula::Atom {
        side: Side::First,
        rel,
        left: Term::Const(value(rt, alloc, left)),
        right: Term::Const(value(rt, alloc, right)),
    };
    let formula = Box::new(alloc, formula).expect(rt, "memory");
    formula.holds(&[], &[])
}

// Are the three relations these?
fn are_so(rt: &impl Abort, alloc: Global, row: &Relations<'_>) -> bool {
    let (left, right, equal, below, at_most) = *row;
    relates(rt, alloc, left, right, Rel::Eq) == equal
        && relates(rt, alloc, left, right, Rel::Lt) == below
        && relates(rt, alloc, left, right, Rel::Le) == at_most
}

#[test]
fn relations_of_values(rt: HostRuntime) {
    for row in &RELATIONS {
        is_so(&rt, are_so(&rt, rt.alloc(), row), row.0);
    }
}
