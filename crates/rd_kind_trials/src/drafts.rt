//! Kinds that are being made, and the relations that their methods have room for.
ghost use Rattle.std.specs.Prelude.{◌≡◌, ◌≤◌, ◌+◌, ◌*◌};
ghost use Rattle.rd_ecl.specs.Formulas.{nodes, tree_of};
ghost use Rattle.rd_base.specs.declared.limits.TheConstants.{MOST_TOKENS};

use crate::samples::{append_outline, is_so_at, is_text, opened_by};
use rd_base::{Bytes, Value};
use rd_ecl::Side::{First, Second};
use rd_ecl::{Formula, KindDraft, Rel, Side, Term};
use std::alloc::Global;
use std::process::Abort;

// The methods of a cell, and the formula of two calls of `put`.
const PUTS_OF_A_CELL: &str =
    "rdspec 1\nkind cell\nmethod put value -> prev\nmethod get -> value\ncommute put put when value@1 = prev@1 and value@2 = prev@2";

// 16 methods with 7 variables each, the most that there may be.
const SIXTEEN_METHODS: &str =
    "rdspec 1\nkind whole\nmethod m0 a b c d e true_ -> x9\nmethod m1 a b c d e true_ -> x9\nmethod m2 a b c d e true_ -> x9\nmethod m3 a b c d e true_ -> x9\nmethod m4 a b c d e true_ -> x9\nmethod m5 a b c d e true_ -> x9\nmethod m6 a b c d e true_ -> x9\nmethod m7 a b c d e true_ -> x9\nmethod m8 a b c d e true_ -> x9\nmethod m9 a b c d e true_ -> x9\nmethod true a b c d e true_ -> x9\nmethod - a b c d e true_ -> x9\nmethod M a b c d e true_ -> x9\nmethod m a b c d e true_ -> x9\nmethod a a b c d e true_ -> x9\nmethod last a b c d e true_ -> x9";

// The cell has its two methods, and the formula of two calls of `put` alone.
fn has_puts_alone(draft: &KindDraft) -> bool {
    draft.methods().len() == 2
        && matches!(draft.formula(0, 0), Some(Formula::And(_, _)))
        && draft.formula(0, 1).is_none()
        && draft.formula(1, 1).is_none()
}

#[test]
fn what_is_drafted(rt: HostRuntime) {
    let opened = opened_by(&rt, rt.alloc(), PUTS_OF_A_CELL);
    let draft = opened.draft();
    let mut text = Bytes::new(rt.alloc());
    append_outline(&rt, &mut text, draft.name(), draft.methods());
    is_text(&rt, text.items(), "cell; put value prev; get value\n");
    assert!(rt; has_puts_alone(draft));
}

#[test]
fn sixteen_methods(rt: HostRuntime) {
    let opened = opened_by(&rt, rt.alloc(), SIXTEEN_METHODS);
    let draft = opened.draft();
    assert!(rt; draft.methods().len() == 16);
}

// A relation of the first slot of a side, or of the first two of side 1.
#[derive(Clone, Copy)]
enum Sketch {
    IsInteger(Side, i64),
    // with the integer on the left
    IntegerIs(Side, i64),
    // the two slots are equal
    Keeps,
}

fn equal(side: Side, left: Term, right: Term) -> Formula
    ensures { nodes (tree_of result) ≡ 1 }
{
    Formula::Atom {
        side,
        rel: Rel::Eq,
        left,
        right,
    }
}

fn relation(sketch: Sketch) -> Formula
    ensures { nodes (tree_of result) ≡ 1 }
{
    match sketch {
        Sketch::IsInteger(side, value) => equal(
            side,
            Term::Slot(0),
            Term::Const(Value::Int(value)),
        ),
        Sketch::IntegerIs(side, value) => equal(
            side,
            Term::Const(Value::Int(value)),
            Term::Slot(0),
        ),
        Sketch::Keeps => equal(First, Term::Slot(0), Term::Slot(1)),
    }
}

// On a side the relations of the first slot to so many integers, from the first one.
fn integers(rt: &impl Abort, alloc: Global, side: Side, first: u8, count: u8) -> Formula
    ensures { nodes (tree_of result) ≡ 2 * count + 1 }
{
    if count == 0 {
        return Formula::True;
    }
    let rest = integers(rt, alloc, side, first, count - 1);
    let last = relation(Sketch::IsInteger(side, i64::from(first) + i64::from(count - 1)));
    let rest = Box::new(alloc, rest).expect(rt, "memory");
    Formula::And(rest, Box::new(alloc, last).expect(rt, "memory"))
}

// What stands behind a side's integers: `and` those of a side, or `or not` a relation.
#[derive(Clone, Copy)]
enum Rest {
    And(Side, u8, u8),
    OrNot(Sketch),
}

// The integers of a side, the first and how many, and what stands behind them.
fn formula(rt: &impl Abort, alloc: Global, side: Side, first: u8, count: u8, rest: Rest) -> Formula
    ensures { nodes (tree_of result) ≤ MOST_TOKENS }
{
    assert!(rt; count < 100);
    let left = Box::new(alloc, integers(rt, alloc, side, first, count)).expect(rt, "memory");
    match rest {
        Rest::And(side, first, count) => {
            assert!(rt; count < 100);
            let right = integers(rt, alloc, side, first, count);
            Formula::And(left, Box::new(alloc, right).expect(rt, "memory"))
        }
        Rest::OrNot(sketch) => {
            let right = Box::new(alloc, relation(sketch)).expect(rt, "memory");
            Formula::Or(
                left,
                Box::new(alloc, Formula::Not(right)).expect(rt, "memory"),
            )
        }
    }
}

// A pair of methods, the integers that its formula names on a side, the first and how many, what stands behind these, and the rooms of
// `put` and of `get`. `put` has one relation already, that its two slots are equal.
type Rooms = ((u8, u8), (Side, u8, u8), Rest, bool, bool);

const ROOMS: [Rooms; 14] = [
    ((0, 1), (First, 0, 4), Rest::And(First, 0, 0), true, true),
    ((0, 1), (First, 0, 5), Rest::And(First, 0, 0), false, true),
    // equal relations count once
    ((0, 1), (First, 0, 4), Rest::And(First, 0, 4), true, true),
    ((0, 1), (First, 0, 4), Rest::And(First, 3, 2), false, true),
    // each side is that of one method
    ((0, 1), (Second, 0, 5), Rest::And(First, 0, 4), true, true),
    ((0, 1), (Second, 0, 6), Rest::And(First, 0, 4), true, false),
    // both sides are those of one method
    ((1, 1), (First, 0, 3), Rest::And(Second, 3, 2), true, true),
    ((1, 1), (First, 0, 3), Rest::And(Second, 3, 3), true, false),
    ((1, 1), (First, 0, 5), Rest::And(Second, 0, 5), true, true),
    // a relation that is turned round is another one
    (
        (0, 1),
        (First, 0, 3),
        Rest::OrNot(Sketch::IntegerIs(First, 0)),
        true,
        true,
    ),
    (
        (0, 1),
        (First, 0, 4),
        Rest::OrNot(Sketch::IntegerIs(First, 0)),
        false,
        true,
    ),
    (
        (0, 1),
        (First, 0, 4),
        Rest::OrNot(Sketch::IsInteger(First, 0)),
        true,
        true,
    ),
    // one that the pair of `put` and `put` has counts once with that
    (
        (0, 1),
        (First, 0, 4),
        Rest::OrNot(Sketch::Keeps),
        true,
        true,
    ),
    (
        (0, 1),
        (First, 0, 5),
        Rest::OrNot(Sketch::Keeps),
        false,
        true,
    ),
];

// Are these the rooms of `put` and of `get` for the formula of a pair?
fn are_rooms(
    rt: &impl Abort,
    draft: &KindDraft,
    pair: (u8, u8),
    formula: &Formula,
    put: bool,
    get: bool,
) -> bool
    requires { nodes (tree_of formula.now) ≤ MOST_TOKENS }
{
    let (first, second) = pair;
    let count = draft.methods().len();
    assert!(rt; first <= second && usize::from(second) < count && 1 < count);
    draft.has_room(first, second, formula, 0) == put
        && draft.has_room(first, second, formula, 1) == get
}

// Has the row these rooms?
fn has_rooms(rt: &impl Abort, alloc: Global, draft: &KindDraft, row: &Rooms) -> bool {
    let (pair, (side, first, count), rest, put, get) = *row;
    let formula = formula(rt, alloc, side, first, count, rest);
    let formula = Box::new(alloc, formula).expect(rt, "memory");
    are_rooms(rt, draft, pair, &formula, put, get)
}

#[test]
fn rooms_of_methods(rt: HostRuntime) {
    let opened = opened_by(&rt, rt.alloc(), PUTS_OF_A_CELL);
    let draft = opened.draft();
    for (number, row) in ROOMS.iter().enumerate() {
        is_so_at(&rt, has_rooms(&rt, rt.alloc(), draft, row), number);
    }
}
