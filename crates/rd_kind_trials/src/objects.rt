//! Objects of the kinds that are built in, and their calls in both orders.
ghost use Rattle.std.specs.Prelude.{◌≡◌, ◌<◌, length};
ghost use Rattle.rd_kinds.specs.Machines.{shipped_machines};
ghost use Rattle.rd_kinds.specs.Objects.{object_kind};
ghost use Rattle.rd_kinds.specs.Shipped.{shipped_kinds};

use crate::samples::{append_held, built_in, commute, has_slots, is_so, is_text, kind_at, slots};
use rd_base::{Bytes, Value, append_value, spell_value};
use rd_ecl::{KindSpec, Spec};
use rd_kinds::{Counter, Dictionary, Object, Register, Set, shipped_count};
use rd_object::{ApplyRefused, RefObject};
use std::alloc::Global;
use std::process::Abort;

/// The number of a method, its arguments, what the call gives, and the line of the state behind it, or nothing where that isn't asked.
pub type Step<'a> = (u8, &'a str, &'a str, &'a str);

// Is this the spelling of the value?
fn is_spelled(rt: &impl Abort, alloc: Global, value: Value, spelling: &str) -> bool {
    let spelled = spell_value(alloc, &value).expect(rt, "memory");
    spelled.items() == spelling.as_bytes()
}

// Does the call give this, or refuse its only argument?
fn is_answer(
    rt: &impl Abort,
    alloc: Global,
    answer: Result<Value, ApplyRefused>,
    wanted: &str,
) -> bool {
    match answer {
        Ok(value) => is_spelled(rt, alloc, value, wanted),
        Err(refused) => refused == ApplyRefused::BadArgument(0) && wanted == "refused",
    }
}

// The call of the object gives this.
fn gives<O: RefObject>(
    rt: &impl Abort,
    alloc: Global,
    kind: &KindSpec,
    object: &mut O,
    method: u8,
    args: &str,
    wanted: &str,
)
    requires { kind.now ≡ O.machine.kind }
{
    let args = slots(rt, alloc, args);
    assert!(rt; has_slots(kind, method, args.items().len() + 1));
    let answer = object.apply(method, args.items());
    is_so(rt, is_answer(rt, alloc, answer, wanted), wanted);
}

// The line of the state of the object is this.
fn has_state<O: RefObject>(rt: &impl Abort, alloc: Global, object: &O, wanted: &str) {
    let mut text = Bytes::new(alloc);
    append_held(rt, &mut text, object.shape().expect(rt, "memory"));
    is_text(rt, text.items(), wanted);
}

/// A new object of the kind runs these calls one after another.
pub fn runs<O: RefObject + Drop>(
    rt: &impl Abort,
    alloc: Global,
    kind: &KindSpec,
    steps: &[Step<'_>],
)
    requires { kind.now ≡ O.machine.kind }
{
    let mut object = O::start(alloc);
    for (method, args, wanted, state) in steps {
        gives(rt, alloc, kind, &mut object, *method, args, wanted);
        if !state.is_empty() {
            has_state(rt, alloc, &object, state);
        }
    }
}

const REGISTER: [Step<'static>; 3] = [
    (2, "5", "nil", "state o one 5\n"),
    (1, "6", "nil", "state o one 6\n"),
    (0, "", "6", "state o one 6\n"),
];

const COUNTER: [Step<'static>; 4] = [
    (0, "\"x\"", "refused", "state o number 0\n"),
    (
        0,
        "9223372036854775807",
        "nil",
        "state o number 9223372036854775807\n",
    ),
    (0, "1", "nil", "state o number -9223372036854775808\n"),
    (
        1,
        "",
        "-9223372036854775808",
        "state o number -9223372036854775808\n",
    ),
];

const SET: [Step<'static>; 5] = [
    (0, "nil", "true", "state o items nil\n"),
    (0, "nil", "false", "state o items nil\n"),
    (1, "nil", "true", "state o items\n"),
    (2, "nil", "false", "state o items\n"),
    (3, "", "0", "state o items\n"),
];

const RISING_SET: [Step<'static>; 3] = [
    (0, "3", "true", "state o items 3\n"),
    (0, "1", "true", "state o items 1 3\n"),
    (0, "2", "true", "state o items 1 2 3\n"),
];

const DICTIONARY: [Step<'static>; 3] = [
    (0, "1 2", "nil", "state o map 1 2\n"),
    (0, "1 nil", "2", "state o map\n"),
    (2, "", "0", "state o map\n"),
];

// A state has items and keys rising by value, however they came: here items of all sorts come falling, and two go from between others.
const FALLING_SET: [Step<'static>; 13] = [
    (0, "\"b\"", "true", ""),
    (0, "\"ab\"", "true", ""),
    (0, "\"a\"", "true", ""),
    (0, "7", "true", ""),
    (0, "-7", "true", ""),
    (0, "true", "true", ""),
    (0, "false", "true", ""),
    (0, "nil", "true", ""),
    (1, "\"ab\"", "true", ""),
    (0, "7", "false", ""),
    (1, "-7", "true", ""),
    (2, "nil", "true", ""),
    (3, "", "6", "state o items nil false true 7 \"a\" \"b\"\n"),
];

const FALLING_DICTIONARY: [Step<'static>; 13] = [
    (0, "\"b\" 1", "nil", ""),
    (0, "\"ab\" 2", "nil", ""),
    (0, "\"a\" 3", "nil", ""),
    (0, "7 4", "nil", ""),
    (0, "-7 5", "nil", ""),
    (0, "true 6", "nil", ""),
    (0, "false 7", "nil", ""),
    (0, "nil 8", "nil", ""),
    (0, "\"ab\" nil", "2", ""),
    (0, "7 9", "4", ""),
    (0, "-7 nil", "5", ""),
    (1, "nil", "8", ""),
    (
        2,
        "",
        "6",
        "state o map nil 8 false 7 true 6 7 9 \"a\" 3 \"b\" 1\n",
    ),
];

#[test]
fn runs_of_objects(rt: HostRuntime) {
    let spec = built_in(&rt, rt.alloc());
    runs::<Register>(&rt, rt.alloc(), kind_at(&rt, &spec, 0), &REGISTER);
    runs::<Counter>(&rt, rt.alloc(), kind_at(&rt, &spec, 1), &COUNTER);
    let set = kind_at(&rt, &spec, 2);
    runs::<Set>(&rt, rt.alloc(), set, &SET);
    runs::<Set>(&rt, rt.alloc(), set, &RISING_SET);
    runs::<Set>(&rt, rt.alloc(), set, &FALLING_SET);
    let dictionary = kind_at(&rt, &spec, 3);
    runs::<Dictionary>(&rt, rt.alloc(), dictionary, &DICTIONARY);
    runs::<Dictionary>(&rt, rt.alloc(), dictionary, &FALLING_DICTIONARY);
}

// The number of a method, and its arguments.
type Call<'a> = (u8, &'a str);

// The slots of a call that gave this.
fn said(rt: &impl Abort, alloc: Global, args: &str, given: Value) -> Bytes {
    let mut text = Bytes::new(alloc);
    text.append(args.as_bytes()).expect(rt, "memory");
    text.append(b" ").expect(rt, "memory");
    append_value(&mut text, &given).expect(rt, "memory");
    text
}

// Runs a call of an object of the kind with this number, and says its slots.
fn run(
    rt: &impl Abort,
    alloc: Global,
    kinds: &Spec,
    object: &mut Object,
    kind: u32,
    call: Call<'_>,
) -> Bytes
    requires kinds { kinds.now ≡ shipped_kinds }
    requires is_kind { object_kind object.old ≡ kind }
    ensures { object_kind object.new ≡ kind }
{
    let args = slots(rt, alloc, call.1);
    let specified = kind_at(rt, kinds, kind);
    assert!(rt; has_slots(specified, call.0, args.items().len() + 1));
    let given = object.apply(call.0, args.items()).expect(rt, "a result");
    said(rt, alloc, call.1, given)
}

// The slots of two calls, and the line of the state behind both.
#[derive(Drop)]
struct Outcome {
    first: Bytes,
    second: Bytes,
    state: Bytes,
}

// The outcome of two calls that run one after the other, behind another one.
fn run_both(
    rt: &impl Abort,
    alloc: Global,
    kinds: &Spec,
    kind: u32,
    before: &[Call<'_>],
    first: Call<'_>,
    second: Call<'_>,
) -> Outcome
    requires kinds { kinds.now ≡ shipped_kinds }
    requires known { kind < length shipped_machines }
{
    let mut object = Object::start(alloc, kind);
    for call in before {
        let _said = run(rt, alloc, kinds, &mut object, kind, *call);
    }
    let first = run(rt, alloc, kinds, &mut object, kind, first);
    let second = run(rt, alloc, kinds, &mut object, kind, second);
    let mut state = Bytes::new(alloc);
    append_held(rt, &mut state, object.shape().expect(rt, "memory"));
    Outcome {
        first,
        second,
        state,
    }
}

// Two calls of an object of a kind, behind others.
#[derive(Clone, Copy)]
struct Trial<'a> {
    kind: u32,
    before: &'a [Call<'a>],
    first: Call<'a>,
    second: Call<'a>,
}

// Do the two calls commute by their slots?
fn commute_by(
    rt: &impl Abort,
    alloc: Global,
    kind: &KindSpec,
    trial: &Trial<'_>,
    outcome: &Outcome,
) -> bool {
    let first = str::from_utf8(outcome.first.items()).expect(rt, "a text");
    let second = str::from_utf8(outcome.second.items()).expect(rt, "a text");
    commute(
        rt,
        alloc,
        kind,
        (trial.first.0, first),
        (trial.second.0, second),
    )
}

// Did two calls give the same in both orders, and was the state behind them the same?
fn are_alike(straight: &Outcome, turned: &Outcome) -> bool {
    straight.first.items() == turned.second.items()
        && straight.second.items() == turned.first.items()
        && straight.state.items() == turned.state.items()
}

// What two calls of an object show.
#[derive(Clone, Copy)]
struct Shown {
    // they commute by their slots
    commute: bool,
    // they are alike in both orders
    alike: bool,
}

// What the two calls show.
fn show(rt: &impl Abort, alloc: Global, kinds: &Spec, trial: &Trial<'_>) -> Shown
    requires { kinds.now ≡ shipped_kinds }
{
    let Trial {
        kind,
        before,
        first,
        second,
    } = *trial;
    assert!(rt; kind < shipped_count());
    let straight = run_both(rt, alloc, kinds, kind, before, first, second);
    let turned = run_both(rt, alloc, kinds, kind, before, second, first);
    Shown {
        commute: commute_by(rt, alloc, kind_at(rt, kinds, kind), trial, &straight),
        alike: are_alike(&straight, &turned),
    }
}

// A kind, the method and the arguments of the call before and of two calls, the slots of these, and whether they commute.
type Row<'a> = (
    u32,
    u8,
    &'a str,
    u8,
    &'a str,
    u8,
    &'a str,
    &'a str,
    &'a str,
    bool,
);

const ROWS: [Row<'static>; 5] = [
    // a register of 3, `swap 3 -> 3` and `read -> 3`
    (0, 1, "3", 2, "3", 0, "", "3 3", "3", true),
    // a counter of 5, `add 0 -> nil` and `get -> 5`
    (1, 0, "5", 0, "0", 1, "", "0 nil", "5", true),
    // an empty set, `add 1 -> true` and `add 1 -> false`
    (2, 2, "1", 0, "1", 0, "1", "1 true", "1 false", false),
    // a set of 1, `remove 2 -> false` and `size -> 1`
    (2, 0, "1", 1, "2", 3, "", "2 false", "1", true),
    // a dictionary of 1 to 2, `put 1 2 -> 2` and `get 1 -> 2`
    (3, 0, "1 2", 0, "1 2", 1, "1", "1 2 2", "1 2", true),
];

// Is it so by the slots of the two calls, and by running them in both orders?
fn is_in_both_orders(rt: &impl Abort, alloc: Global, kinds: &Spec, row: &Row<'_>) -> bool
    requires { kinds.now ≡ shipped_kinds }
{
    let trial = Trial {
        kind: row.0,
        before: &[(row.1, row.2)],
        first: (row.3, row.4),
        second: (row.5, row.6),
    };
    let kind = kind_at(rt, kinds, row.0);
    commute(rt, alloc, kind, (row.3, row.7), (row.5, row.8)) == row.9
        && show(rt, alloc, kinds, &trial).alike == row.9
}

// Calls that commute by their results may run in either order.
#[test]
fn calls_in_both_orders(rt: HostRuntime) {
    let spec = built_in(&rt, rt.alloc());
    for row in &ROWS {
        is_so(&rt, is_in_both_orders(&rt, rt.alloc(), &spec, row), row.7);
    }
}

// A kind, and small calls of it.
type Small<'a> = (u32, &'a [Call<'a>]);

const SMALL: [Small<'static>; 8] = [
    (0, &[(0, ""), (1, "nil"), (1, "1"), (2, "1"), (2, "2")]),
    (1, &[(0, "0"), (0, "1"), (0, "-1"), (1, "")]),
    (
        2,
        &[
            (0, "1"),
            (0, "2"),
            (1, "1"),
            (1, "2"),
            (2, "1"),
            (2, "2"),
            (3, ""),
        ],
    ),
    (
        3,
        &[
            (0, "1 1"),
            (0, "1 2"),
            (0, "1 nil"),
            (0, "2 1"),
            (0, "2 nil"),
            (1, "1"),
            (1, "2"),
            (2, ""),
        ],
    ),
    (
        4,
        &[(0, "1"), (0, "2"), (1, "1"), (1, "2"), (2, "1"), (2, "2")],
    ),
    (5, &[(0, "-1"), (0, "0"), (0, "1"), (0, "2"), (1, "")]),
    (6, &[(0, "1"), (0, "2"), (1, ""), (2, "")]),
    (7, &[(0, "1"), (0, "2"), (1, "1"), (1, "2"), (2, "")]),
];

// May all pairs of these calls be exchanged behind the calls before, where they commute?
fn pairs_behind(
    rt: &impl Abort,
    alloc: Global,
    kinds: &Spec,
    kind: u32,
    before: &[Call<'_>],
    calls: &[Call<'_>],
)
    requires { kinds.now ≡ shipped_kinds }
{
    for first in calls {
        for second in calls {
            let trial = Trial {
                kind,
                before,
                first: *first,
                second: *second,
            };
            let shown = show(rt, alloc, kinds, &trial);
            is_so(rt, !shown.commute || shown.alike, first.1);
        }
    }
}

// The law of kinds once more, by what objects do: each pair of small calls that commute, behind each two small calls, so that objects hold
// many shapes.
#[test]
fn pairs_of_small_calls(rt: HostRuntime) {
    let spec = built_in(&rt, rt.alloc());
    for (kind, calls) in &SMALL {
        for first in *calls {
            for second in *calls {
                pairs_behind(&rt, rt.alloc(), &spec, *kind, &[*first, *second], calls);
            }
        }
    }
}
