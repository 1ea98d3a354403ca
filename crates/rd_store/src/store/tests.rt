//! Tests of stores.
ghost use Rattle.std.specs.Prelude.{◌≡◌, ◌<◌, length};

use super::{Store, renewed_witness};
use crate::{PointRef, Witness, WitnessRef};
use indexmap::IndexMap;
use rd_base::{NoMemory, Slots, Steps};
use rd_clock::{Clock, Stamp, StampRef};
use rd_event::Call;
use rd_points::{Point, Points};
use std::alloc::Global;
use std::marker::Brand;
use std::process::Abort;
use std::rc::Rc;
use std::sync::ledger::{Blank, Ledger};

fn seen(alloc: Global, thread: u32, place: u32, number: u32) -> Result<Rc<Witness>, NoMemory> {
    let witness = Witness {
        line: u64::from(place) + 1,
        place,
        call: Call {
            thread,
            object: 0,
            kind: 0,
            method: 0,
            slots: Slots::new(alloc),
        },
        stamp: Stamp {
            thread,
            number,
            clock: Clock::new(alloc),
        },
    };
    Ok(Rc::new(alloc, witness)?)
}

/// A cell of a thread at a point, with room for it first.
fn touch<L: Ledger>(
    alloc: Global,
    store: &mut Store,
    point: &Point,
    witness: Rc<Witness>,
    steps: &mut Steps<L>,
) -> Result<(), NoMemory> {
    let thread = witness.call.thread;
    let mut points = Points::new(alloc);
    points.push(point.copy(alloc)?)?;
    store.reserve(&points, thread)?;
    store.touch_reserved(point.copy(alloc)?, thread, witness, steps);
    Ok(())
}

/// The clock that counts so many events of thread 1 alone.
fn clock_of_one<L: Ledger>(
    alloc: Global,
    events: u32,
    steps: &mut Steps<L>,
) -> Result<Clock, NoMemory> {
    let mut clock = Clock::new(alloc);
    if events > 0 {
        clock.reserve(2)?;
        clock.raise(1, events, steps);
    }
    Ok(clock)
}

/// The place of the latest call at the point that the clock doesn't cover.
fn latest<L: Ledger>(
    store: &Store,
    point: &Point,
    clock: &Clock,
    steps: &mut Steps<L>,
) -> Option<u32> {
    match store.latest_uncovered(point, clock, steps) {
        Some(held) => Some(held.place),
        None => None,
    }
}

/// A point of object 7 without a value.
fn bare(class: u32) -> Point {
    Point {
        object: 7,
        class,
        value: None,
    }
}

/// What is done with a store, or is so of it. A class is that of a point of object 7, and a clock counts so many events of thread 1.
#[derive(Clone, Copy)]
enum Step {
    /// a call of a thread, with its place and its own number, is kept at the point
    Touch(u32, u32, u32, u32),
    /// of the latest call at the point that the clock doesn't cover, the place
    Latest(u32, u32, Option<u32>),
    /// cells that the clock covers go
    Sweep(u32),
    Cells(u128),
    Entered(usize),
}

/// Keeps a call at the point of a class.
fn touch_class<L: Ledger>(
    alloc: Global,
    store: &mut Store,
    class: u32,
    witness: Result<Rc<Witness>, NoMemory>,
    steps: &mut Steps<L>,
) -> Result<(), NoMemory> {
    touch(alloc, store, &bare(class), witness?, steps)
}

/// The place of the latest call at the point of a class.
fn latest_of_class<L: Ledger>(
    alloc: Global,
    store: &Store,
    class: u32,
    events: u32,
    steps: &mut Steps<L>,
) -> Result<Option<u32>, NoMemory> {
    let clock = clock_of_one(alloc, events, steps)?;
    Ok(latest(store, &bare(class), &clock, steps))
}

fn sweep_by<L: Ledger>(
    alloc: Global,
    store: &mut Store,
    events: u32,
    steps: &mut Steps<L>,
) -> Result<(), NoMemory> {
    store.sweep(&clock_of_one(alloc, events, steps)?);
    Ok(())
}

/// Does the step, and says whether it is so.
fn is_taken<L: Ledger>(alloc: Global, store: &mut Store, step: Step, steps: &mut Steps<L>) -> bool {
    match step {
        Step::Touch(class, thread, place, number) => {
            let witness = seen(alloc, thread, place, number);
            touch_class(alloc, store, class, witness, steps).is_ok()
        }
        Step::Latest(class, events, place) => {
            latest_of_class(alloc, store, class, events, steps) == Ok(place)
        }
        Step::Sweep(events) => sweep_by(alloc, store, events, steps).is_ok(),
        Step::Cells(cells) => store.cells() == cells,
        Step::Entered(points) => store.entered() == points,
    }
}

/// Takes the steps one after another.
fn takes<L: Ledger>(
    rt: &impl Abort,
    alloc: Global,
    store: &mut Store,
    steps_of_it: &[Step],
    steps: &mut Steps<L>,
) {
    for (number, step) in steps_of_it.iter().enumerate() {
        let is_taken = is_taken(alloc, store, *step, steps);
        assert!(rt; is_taken, "step {number}");
    }
}

const TWO_THREADS: [Step; 14] = [
    Step::Latest(3, 0, None),
    Step::Touch(3, 0, 10, 1),
    Step::Touch(3, 1, 11, 4),
    Step::Touch(3, 1, 12, 5),
    Step::Cells(2),
    Step::Latest(3, 0, Some(12)),
    Step::Latest(3, 4, Some(12)),
    Step::Latest(3, 5, Some(10)),
    Step::Latest(4, 0, None),
    Step::Sweep(4),
    Step::Cells(2),
    Step::Sweep(5),
    Step::Cells(1),
    Step::Latest(3, 0, Some(10)),
];

fn two_threads_at_a_point<L: Ledger>(rt: &impl Abort, alloc: Global, blank: Blank)
    requires name { blank.name ≡ L.name }
    requires parts { blank.parts ≡ L.parts }
    requires some { 0 < blank.parts }
{
    let mut steps = Steps::<L>::new(blank);
    let mut store = Store::new(alloc);
    takes(rt, alloc, &mut store, &TWO_THREADS, &mut steps);
}

/// The place of the latest call at the point at an index, of those that the clock doesn't cover.
fn place_at<L: Ledger>(
    store: &Store,
    index: usize,
    clock: &Clock,
    steps: &mut Steps<L>,
) -> Option<u32>
    requires { index < length store.now }
{
    match store.latest_at(index, clock, steps) {
        Some(held) => Some(held.place),
        None => None,
    }
}

fn two_points_by_seat<L: Ledger>(rt: &impl Abort, alloc: Global, blank: Blank)
    requires name { blank.name ≡ L.name }
    requires parts { blank.parts ≡ L.parts }
    requires some { 0 < blank.parts }
{
    let mut steps = Steps::<L>::new(blank);
    let point = bare(3);
    let other = bare(4);
    let again = bare(3);
    let empty = Clock::new(alloc);
    let mut store = Store::new(alloc);
    let early = store.enter(PointRef::new(&point), 1).expect(rt, "memory");
    let late = store.enter(PointRef::new(&other), 1).expect(rt, "memory");
    let seat = store.enter(PointRef::new(&again), 1).expect(rt, "memory");
    assert!(rt; seat.index == early.index && seat.index != late.index);
    let witness = seen(alloc, 1, 11, 4).expect(rt, "memory");
    store.touch_at(seat, 1, witness, &mut steps);
    assert!(rt; place_at(&store, seat.index, &empty, &mut steps) == Some(11));
    let behind = [Step::Cells(1), Step::Latest(4, 0, None)];
    takes(rt, alloc, &mut store, &behind, &mut steps);
}

fn calls_in_the_same_memory<L: Ledger>(rt: &impl Abort, alloc: Global, blank: Blank)
    requires name { blank.name ≡ L.name }
    requires parts { blank.parts ≡ L.parts }
    requires some { 0 < blank.parts }
{
    let mut steps = Steps::<L>::new(blank);
    let point = bare(3);
    let empty = Clock::new(alloc);
    let later = seen(alloc, 1, 12, 5).expect(rt, "memory");
    let call = &later.call;
    let thread = call.thread;
    let stamp = StampRef {
        thread,
        number: 5,
        clock: &empty,
    };
    let over = WitnessRef {
        line: 13,
        place: 12,
        call,
        stamp,
    };
    let mut store = Store::new(alloc);
    let seat = store
        .enter(PointRef::new(&point), thread)
        .expect(rt, "memory");
    let witness = seen(alloc, 1, 11, 4).expect(rt, "memory");
    let shared = witness.clone().expect(rt, "memory");
    store.touch_at(seat, thread, witness, &mut steps);
    let done = store
        .touch_over(seat, over, &mut steps)
        .expect(rt, "memory");
    let held = latest(&store, &point, &empty, &mut steps);
    assert!(rt; !done && held == Some(11));
    drop(shared);
    let done = store
        .touch_over(seat, over, &mut steps)
        .expect(rt, "memory");
    assert!(rt; done);
    let behind = [Step::Latest(3, 0, Some(12)), Step::Cells(1)];
    takes(rt, alloc, &mut store, &behind, &mut steps);
}

/// What is kept of a call where there is a spare one that has another owner, one that has none, and no spare one. The other owner keeps
/// what it has.
#[test]
fn keeps_a_call_by_a_spare_one(rt: HostRuntime) {
    let alloc = rt.alloc();
    let later = seen(alloc, 1, 12, 5).expect(&rt, "memory");
    let over = WitnessRef {
        line: 13,
        place: 12,
        call: &later.call,
        stamp: StampRef::new(&later.stamp),
    };
    let shared = seen(alloc, 1, 11, 4).expect(&rt, "memory");
    let spare = shared.clone().expect(&rt, "memory");
    let held = renewed_witness(alloc, Some(spare), over).expect(&rt, "memory");
    assert!(rt; held.place == 12 && shared.place == 11);
    let held = renewed_witness(alloc, Some(shared), over).expect(&rt, "memory");
    assert!(rt; held.place == 12);
    let held = renewed_witness(alloc, None, over).expect(&rt, "memory");
    assert!(rt; held.place == 12);
}

// Behind 300 points with a cell each.
const POINTS_WITHOUT_CELLS: [Step; 8] = [
    // as many cells as points: these stay
    Step::Sweep(9),
    Step::Cells(0),
    Step::Entered(300),
    Step::Touch(8, 1, 300, 10),
    // one cell, which the clock doesn't cover: all other points go
    Step::Sweep(9),
    Step::Cells(1),
    Step::Entered(1),
    Step::Latest(8, 0, Some(300)),
];

fn points_without_cells<L: Ledger>(rt: &impl Abort, alloc: Global, blank: Blank)
    requires name { blank.name ≡ L.name }
    requires parts { blank.parts ≡ L.parts }
    requires some { 0 < blank.parts }
{
    let mut steps = Steps::<L>::new(blank);
    let mut store = Store::new(alloc);
    for class in 0..300 {
        takes(
            rt,
            alloc,
            &mut store,
            &[Step::Touch(class, 1, class, 4)],
            &mut steps,
        );
    }
    takes(rt, alloc, &mut store, &POINTS_WITHOUT_CELLS, &mut steps);
}

#[test]
fn takes_out_points_without_cells(rt: HostRuntime) {
    points_without_cells::<Brand>(&rt, rt.alloc(), Blank::new(1));
}

#[test]
fn writes_over_what_nothing_else_has(rt: HostRuntime) {
    calls_in_the_same_memory::<Brand>(&rt, rt.alloc(), Blank::new(1));
}

#[test]
fn keeps_a_call_by_its_seat(rt: HostRuntime) {
    two_points_by_seat::<Brand>(&rt, rt.alloc(), Blank::new(1));
}

#[test]
fn keeps_the_last_call_of_each_thread(rt: HostRuntime) {
    two_threads_at_a_point::<Brand>(&rt, rt.alloc(), Blank::new(1));
}

#[test]
fn has_three_fields(rt: HostRuntime) {
    let store = Store::new(rt.alloc());
    let Store {
        alloc,
        points,
        count,
    } = &store;
    let _alloc: &Global = alloc;
    let _points: &IndexMap<Point, Vec<(u32, Rc<Witness>)>> = points;
    let _count: &u128 = count;
}
