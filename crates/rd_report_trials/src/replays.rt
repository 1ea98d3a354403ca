//! Replays of calls on one object.
ghost use Rattle.std.specs.Prelude.{◌≡◌, ℕ, List};
ghost use Rattle.rd_kinds.specs.Machines.{machine_of};
ghost use Rattle.rd_kinds.specs.Shipped.{shipped_kinds};
ghost use Rattle.rd_replay.specs.Replays.{Recorded, replay_end};
ghost use Rattle.rd_replay.specs.Replayer.{ReplayerStandsFor};
ghost use Rattle.rd_report_trials.specs.Replays.{FitsMachine, HasOne};

use crate::samples::{built_in, has_slots, is_so, is_state, slots};
use rd_base::{Slots, Value};
use rd_ecl::Spec;
use rd_event::Call;
use rd_object::{Expected, ReplayEnd};
use rd_replay::{Match, Replayer};
use std::alloc::Global;
use std::process::Abort;

// The number of a line, the method and the slots of the call on it, and how it compares.
type Row<'a> = (u64, u8, &'a str, Match);

// A replayer of one object, of the kind with this number.
fn begun(rt: &impl Abort, alloc: Global, kind: u32) -> Replayer
    ensures { HasOne result kind }
{
    let mut replayer = Replayer::new(alloc);
    replayer.declare(0, kind).expect(rt, "memory");
    replayer
}

// Where the kind is built in, it has the method, with so many slots.
fn fits(rt: &impl Abort, kinds: &Spec, kind: u32, method: u8, slots: &Slots)
    requires { kinds.now ≡ shipped_kinds }
    ensures { FitsMachine (machine_of kind) method slots.now }
{
    if let Some(kind) = kinds.kinds().get(kind as usize) {
        assert!(rt; !slots.items().is_empty());
        assert!(rt; has_slots(kind, method, slots.items().len()));
    }
}

// Calls a method of that object.
fn call(
    rt: &impl Abort,
    alloc: Global,
    kinds: &Spec,
    replayer: &mut Replayer,
    kind: u32,
    row: Row<'_>,
)
    requires kinds { kinds.now ≡ shipped_kinds }
    requires one { HasOne replayer.old kind }
    ensures { HasOne replayer.new kind }
{
    let (line, method, spellings, wanted) = row;
    let slots = slots(rt, alloc, spellings);
    fits(rt, kinds, kind, method, &slots);
    let call = Call {
        thread: 0,
        object: 0,
        kind,
        method,
        slots,
    };
    let found = replayer.call(line, &call).expect(rt, "memory");
    is_so(rt, found == wanted, spellings);
}

// The replayer of one object of this kind, behind these calls.
fn replayed(rt: &impl Abort, alloc: Global, kind: u32, rows: &[Row<'_>]) -> Replayer
    ensures { HasOne result kind }
{
    let kinds = built_in(rt, alloc);
    let mut replayer = begun(rt, alloc, kind);
    for row in rows {
        call(rt, alloc, &kinds, &mut replayer, kind, *row);
    }
    replayer
}

// The replay of these calls of one object of this kind ends so.
fn ends_so(rt: &impl Abort, alloc: Global, kind: u32, rows: &[Row<'_>], wanted: &ReplayEnd) {
    let replayer = replayed(rt, alloc, kind, rows);
    let end = replayer.end().expect(rt, "memory");
    assert!(rt; end == *wanted);
}

// Each call gave what was recorded.
fn is_exact(rt: &impl Abort, replayer: &Replayer)
    ensures { (kinds : List ℕ) (calls : List Recorded) → ReplayerStandsFor replayer.now kinds calls →
        replay_end kinds calls ≡ ReplayEnd.Exact }
{
    let end = replayer.end().expect(rt, "memory");
    assert!(rt; matches!(end, ReplayEnd::Exact));
}

// Each call of one object of this kind gives what was recorded, and then the line of its state is this.
fn leaves(rt: &impl Abort, alloc: Global, kind: u32, rows: &[Row<'_>], wanted: &str) {
    let replayer = replayed(rt, alloc, kind, rows);
    is_exact(rt, &replayer);
    let shape = replayer.state(0).expect(rt, "memory");
    is_state(rt, alloc, &shape, wanted);
}

// `put "x" 1 -> nil`, `put "y" 2 -> nil` and `size -> 2`
const DICTIONARY: [Row<'static>; 3] = [
    (6, 0, "\"x\" 1 nil", Match::Same),
    (7, 0, "\"y\" 2 nil", Match::Same),
    (10, 2, "2", Match::Same),
];

#[test]
fn calls_of_a_dictionary(rt: HostRuntime) {
    let wanted = "state o map \"x\" 1 \"y\" 2\n";
    leaves(&rt, rt.alloc(), 3, &DICTIONARY, wanted);
}

// `add 1 -> nil`, `get -> 0` and `get -> 1`
const COUNTER: [Row<'static>; 3] = [
    (5, 0, "1 nil", Match::Same),
    (6, 1, "0", Match::Differs),
    (7, 1, "1", Match::Stopped),
];

#[test]
fn a_counter_that_differs(rt: HostRuntime) {
    let expected = Expected::Value(Value::Int(1));
    let wanted = ReplayEnd::Differs { line: 6, expected };
    ends_so(&rt, rt.alloc(), 1, &COUNTER, &wanted);
}

const NOT_BUILT_IN: [Row<'static>; 2] = [
    (5, 0, "true", Match::NotShipped),
    (6, 0, "false", Match::NotShipped),
];

#[test]
fn an_object_of_a_kind_that_is_not_built_in(rt: HostRuntime) {
    ends_so(&rt, rt.alloc(), 8, &NOT_BUILT_IN, &ReplayEnd::NotShipped);
}
