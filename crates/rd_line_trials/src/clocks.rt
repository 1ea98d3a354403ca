//! Vector clocks, and the clocks of the events of a trace.
ghost use Rattle.std.specs.Prelude.{◌≡◌, ℕ, ◌<◌, Bool, List, IfOk, OnOk, [], ◌∷◌, ◌++◌, length};
ghost use Rattle.rd_event.specs.declared.events.Event.{Event as EventOf};
ghost use Rattle.rd_order.specs.EventLists.{threads_after};
ghost use Rattle.rd_hb.specs.Tracker.{IsNextEvent, TrackerStandsFor};
ghost use Rattle.rd_line_trials.specs.Traces.{MayTakeAll};
ghost use Rattle.rd_order.specs.TestLists.{sample_call, one_root, two_roots};

use rd_base::{NoMemory, Slots, Steps};
use rd_clock::{Clock, Stamp};
use rd_event::{Call, Event};
use rd_hb::Tracker;
use std::alloc::Global;
use std::marker::Brand;
use std::process::Abort;
use std::sync::ledger::{Blank, Ledger};

/// Has the clock this component of the thread?
fn has_component<L: Ledger>(
    clock: &Clock,
    thread: u32,
    component: u32,
    steps: &mut Steps<L>,
) -> bool {
    clock.get(thread, steps) == component
        && clock.covers(thread, component, steps)
        && (component == u32::MAX || !clock.covers(thread, component + 1, steps))
}

/// The clock has these components, and 0 for each further thread.
fn has_components<L: Ledger>(
    rt: &impl Abort,
    clock: &Clock,
    components: &[u32],
    steps: &mut Steps<L>,
) {
    for thread in 0..6 {
        let component = components.get(thread as usize).copied().unwrap_or(0);
        assert!(rt;
            has_component(clock, thread, component, steps),
            "{components:?} at {thread}"
        );
    }
}

fn joins_two_clocks<L: Ledger>(rt: &impl Abort, alloc: Global, steps: &mut Steps<L>) {
    let mut ours = Clock::new(alloc);
    has_components(rt, &ours, &[], steps);
    ours.reserve(3).expect(rt, "memory");
    has_components(rt, &ours, &[], steps);
    ours.tick(2, steps);
    ours.tick(0, steps);
    ours.tick(2, steps);
    has_components(rt, &ours, &[1, 0, 2], steps);
    let mut theirs = Clock::new(alloc);
    theirs.reserve(2).expect(rt, "memory");
    theirs.tick(1, steps);
    theirs.tick(0, steps);
    theirs.tick(0, steps);
    let mut joined = ours.copy(alloc).expect(rt, "memory");
    joined.join_reserved(&theirs, steps);
    has_components(rt, &joined, &[2, 1, 2], steps);
    has_components(rt, &ours, &[1, 0, 2], steps);
    ours.reserve(1).expect(rt, "memory");
    has_components(rt, &ours, &[1, 0, 2], steps);
    let memory = Vec::with_capacity(alloc, 3).expect(rt, "memory");
    has_components(rt, &ours.copy_in(memory), &[1, 0, 2], steps);
    ours.meet(&theirs);
    has_components(rt, &ours, &[1, 0, 0], steps);
}

fn ticks_and_raises<L: Ledger>(rt: &impl Abort, alloc: Global, steps: &mut Steps<L>) {
    let mut clock = Clock::new(alloc);
    clock.reserve(3).expect(rt, "memory");
    clock.tick(1, steps);
    let mut copy = clock.copy(alloc).expect(rt, "memory");
    has_components(rt, &copy, &[0, 1, 0], steps);
    assert!(rt; copy.covers(1, 1, steps) && !copy.covers(1, 2, steps));
    copy.raise(2, 7, steps);
    copy.raise(1, 0, steps);
    copy.raise(0, u32::MAX, steps);
    has_components(rt, &copy, &[u32::MAX, 1, 7], steps);
    has_components(rt, &clock, &[0, 1, 0], steps);
}

fn clocks_of_threads<L: Ledger>(rt: &impl Abort, alloc: Global, blank: Blank)
    requires name { blank.name ≡ L.name }
    requires parts { blank.parts ≡ L.parts }
    requires some { 0 < blank.parts }
{
    let mut steps = Steps::<L>::new(blank);
    joins_two_clocks(rt, alloc, &mut steps);
    ticks_and_raises(rt, alloc, &mut steps);
}

#[test]
fn clocks(rt: HostRuntime) {
    clocks_of_threads::<Brand>(&rt, rt.alloc(), Blank::new(1));
}

/// The thread of a stamp, its number, and its clock at the threads from 0 to 2.
type Row = (u32, u32, [u32; 3]);

fn with_one_root(alloc: Global) -> Result<Tracker, NoMemory>
    ensures stands { IfOk result (λ tracker. TrackerStandsFor tracker one_root []) }
    ensures count { IfOk result (λ tracker. length tracker.threads ≡ 1) }
{
    let mut tracker = Tracker::new(alloc);
    tracker.root(0)?;
    Ok(tracker)
}

fn with_two_roots(alloc: Global) -> Result<Tracker, NoMemory>
    ensures stands { IfOk result (λ tracker. TrackerStandsFor tracker two_roots []) }
    ensures count { IfOk result (λ tracker. length tracker.threads ≡ 2) }
{
    let mut tracker = with_one_root(alloc)?;
    tracker.root(1)?;
    Ok(tracker)
}

/// A call of a thread on an object that has the thread's number.
fn call(alloc: Global, thread: u32) -> Event
    ensures { result ≡ sample_call thread }
{
    Event::Call(Call {
        thread,
        object: thread,
        kind: 0,
        method: 0,
        slots: Slots::new(alloc),
    })
}

/// Is the stamp that of the row?
fn has_row<L: Ledger>(stamp: &Stamp, row: &Row, steps: &mut Steps<L>) -> bool {
    for (thread, component) in row.2.iter().enumerate() {
        if !has_component(&stamp.clock, thread as u32, *component, steps) {
            return false;
        }
    }
    stamp.thread == row.0 && stamp.number == row.1
}

/// The stamps of the events are those of the rows.
fn has_rows<L: Ledger>(
    tracker: &mut Tracker,
    events: &[Event],
    rows: &[Row],
    steps: &mut Steps<L>,
) -> Result<bool, NoMemory>
    requires { (roots : ℕ → Bool) × MayTakeAll tracker.old roots events.now }
{
    let mut right = events.len() == rows.len();
    for (i, event) in events.iter().enumerate() {
        let stamp = tracker.event(event, steps)?;
        if let Some(row) = rows.get(i) {
            right = has_row(&stamp, row, steps) && right;
        }
    }
    Ok(right)
}

/// Takes the next event, and asks for its stamp only where it is a call.
fn stamp_of_call<L: Ledger>(
    tracker: &mut Tracker,
    event: &Event,
    steps: &mut Steps<L>,
) -> Result<Option<Stamp>, NoMemory>
    requires next { (roots : ℕ → Bool) × (es : List EventOf) × IsNextEvent tracker.old roots es event.now }
    ensures stands { OnOk result ((roots : ℕ → Bool) (es : List EventOf) → IsNextEvent tracker.old roots es event.now →
        TrackerStandsFor tracker.new roots (es ++ event.now ∷ [])) }
    ensures count { OnOk result (length tracker.new.threads ≡ threads_after event.now (length tracker.old.threads)) }
{
    if let Event::Call(_) = event {
        return Ok(Some(tracker.event(event, steps)?));
    }
    tracker.pass(event, steps)?;
    Ok(None)
}

/// The stamps of the calls are those of the rows, where no other stamp is made.
fn calls_have_rows<L: Ledger>(
    tracker: &mut Tracker,
    events: &[Event],
    rows: &[Row],
    steps: &mut Steps<L>,
) -> Result<bool, NoMemory>
    requires { (roots : ℕ → Bool) × MayTakeAll tracker.old roots events.now }
{
    let mut right = true;
    for (i, event) in events.iter().enumerate() {
        let stamp = stamp_of_call(tracker, event, steps)?;
        if let (Some(stamp), Some(row)) = (stamp, rows.get(i)) {
            right = has_row(&stamp, row, steps) && right;
        }
    }
    Ok(right)
}

/// The stamps of the events are those of the rows, and so are those of the calls where no other stamp is made.
fn is_told_twice<L: Ledger>(
    tracker: &mut Tracker,
    passing: &mut Tracker,
    events: &[Event],
    rows: &[Row],
    steps: &mut Steps<L>,
) -> Result<bool, NoMemory>
    requires all { (roots : ℕ → Bool) × MayTakeAll tracker.old roots events.now }
    requires calls { (roots : ℕ → Bool) × MayTakeAll passing.old roots events.now }
{
    let known = has_rows(tracker, events, rows, steps)?;
    Ok(calls_have_rows(passing, events, rows, steps)? && known)
}

/// Has the tracker this floor, at the threads from 0 to 2?
fn has_floor<L: Ledger>(tracker: &Tracker, floor: [u32; 3], steps: &mut Steps<L>) -> bool {
    let Ok(found) = tracker.floor() else {
        return false;
    };
    let mut right = true;
    for (thread, component) in floor.iter().enumerate() {
        right = has_component(&found, thread as u32, *component, steps) && right;
    }
    right
}

/// A thread forks two, each of which calls, joins both and calls. The calls have the same stamps where the rest has none. The thread that is
/// left knows all.
fn two_children<L: Ledger>(alloc: Global, steps: &mut Steps<L>) -> Result<bool, NoMemory> {
    let mut tracker = with_one_root(alloc)?;
    let mut passing = with_one_root(alloc)?;
    let events = [
        Event::Fork {
            thread: 0,
            child: 1,
        },
        Event::Fork {
            thread: 0,
            child: 2,
        },
        call(alloc, 1),
        call(alloc, 2),
        Event::Join {
            thread: 0,
            child: 1,
        },
        Event::Join {
            thread: 0,
            child: 2,
        },
        call(alloc, 0),
    ];
    let rows = [
        (0, 1, [1, 0, 0]),
        (0, 2, [2, 0, 0]),
        (1, 1, [1, 1, 0]),
        (2, 1, [2, 0, 1]),
        (0, 3, [3, 1, 0]),
        (0, 4, [4, 1, 1]),
        (0, 5, [5, 1, 1]),
    ];
    let told = is_told_twice(&mut tracker, &mut passing, &events, &rows, steps);
    Ok(told == Ok(true) && has_floor(&tracker, [5, 1, 1], steps))
}

/// Two roots call, one forks a thread, and that calls: none of the three was joined, and no call is known to all.
fn three_live<L: Ledger>(alloc: Global, steps: &mut Steps<L>) -> Result<bool, NoMemory> {
    let mut tracker = with_two_roots(alloc)?;
    let events = [
        call(alloc, 0),
        call(alloc, 1),
        Event::Fork {
            thread: 1,
            child: 2,
        },
        call(alloc, 2),
    ];
    let rows = [
        (0, 1, [1, 0, 0]),
        (1, 1, [0, 1, 0]),
        (1, 2, [0, 2, 0]),
        (2, 1, [0, 2, 1]),
    ];
    let told = has_rows(&mut tracker, &events, &rows, steps);
    Ok(told == Ok(true) && has_floor(&tracker, [0, 0, 0], steps))
}

/// A thread joins one that had no event, and that another forked after a call: it knows that call.
fn idle_child<L: Ledger>(alloc: Global, steps: &mut Steps<L>) -> Result<bool, NoMemory> {
    let mut tracker = with_two_roots(alloc)?;
    let events = [
        call(alloc, 0),
        Event::Fork {
            thread: 0,
            child: 2,
        },
        Event::Join {
            thread: 1,
            child: 2,
        },
        call(alloc, 1),
    ];
    let rows = [
        (0, 1, [1, 0, 0]),
        (0, 2, [2, 0, 0]),
        (1, 1, [2, 1, 0]),
        (1, 2, [2, 2, 0]),
    ];
    has_rows(&mut tracker, &events, &rows, steps)
}

/// Two roots that never meet know nothing of one another.
fn strangers<L: Ledger>(alloc: Global, steps: &mut Steps<L>) -> Result<bool, NoMemory> {
    let mut tracker = with_two_roots(alloc)?;
    let events = [call(alloc, 0), call(alloc, 1)];
    let rows = [(0, 1, [1, 0, 0]), (1, 1, [0, 1, 0])];
    has_rows(&mut tracker, &events, &rows, steps)
}

/// A thread calls under a lock, then another does: the second call counts the three events of the first thread, also where the
/// calls alone have stamps.
fn guarded<L: Ledger>(alloc: Global, steps: &mut Steps<L>) -> Result<bool, NoMemory> {
    let mut tracker = with_two_roots(alloc)?;
    let mut passing = with_two_roots(alloc)?;
    let events = [
        Event::Acquire { thread: 0, lock: 0 },
        call(alloc, 0),
        Event::Release { thread: 0, lock: 0 },
        Event::Acquire { thread: 1, lock: 0 },
        call(alloc, 1),
    ];
    let rows = [
        (0, 1, [1, 0, 0]),
        (0, 2, [2, 0, 0]),
        (0, 3, [3, 0, 0]),
        (1, 1, [3, 1, 0]),
        (1, 2, [3, 2, 0]),
    ];
    is_told_twice(&mut tracker, &mut passing, &events, &rows, steps)
}

/// A lock is given back by its thread, taken and given back by another, and so on: each acquire counts what was known where the
/// lock was last given back, with what its thread had learnt.
fn rounds<L: Ledger>(alloc: Global, steps: &mut Steps<L>) -> Result<bool, NoMemory> {
    let mut tracker = with_two_roots(alloc)?;
    let events = [
        Event::Acquire { thread: 0, lock: 0 },
        Event::Release { thread: 0, lock: 0 },
        Event::Acquire { thread: 1, lock: 0 },
        Event::Release { thread: 1, lock: 0 },
        Event::Acquire { thread: 0, lock: 0 },
        Event::Release { thread: 0, lock: 0 },
        Event::Acquire { thread: 1, lock: 0 },
    ];
    let rows = [
        (0, 1, [1, 0, 0]),
        (0, 2, [2, 0, 0]),
        (1, 1, [2, 1, 0]),
        (1, 2, [2, 2, 0]),
        (0, 3, [3, 2, 0]),
        (0, 4, [4, 2, 0]),
        (1, 3, [4, 3, 0]),
    ];
    has_rows(&mut tracker, &events, &rows, steps)
}

/// A thread takes a lock twice and gives it back twice, then another takes it.
fn reentrant<L: Ledger>(alloc: Global, steps: &mut Steps<L>) -> Result<bool, NoMemory> {
    let mut tracker = with_two_roots(alloc)?;
    let events = [
        Event::Acquire { thread: 0, lock: 0 },
        Event::Acquire { thread: 0, lock: 0 },
        Event::Release { thread: 0, lock: 0 },
        Event::Release { thread: 0, lock: 0 },
        Event::Acquire { thread: 1, lock: 0 },
    ];
    let rows = [
        (0, 1, [1, 0, 0]),
        (0, 2, [2, 0, 0]),
        (0, 3, [3, 0, 0]),
        (0, 4, [4, 0, 0]),
        (1, 1, [4, 1, 0]),
    ];
    has_rows(&mut tracker, &events, &rows, steps)
}

/// A thread takes one lock, then another that the same thread gave back before, and one that it gave back itself.
fn no_news<L: Ledger>(alloc: Global, steps: &mut Steps<L>) -> Result<bool, NoMemory> {
    let mut tracker = with_two_roots(alloc)?;
    let events = [
        Event::Acquire { thread: 0, lock: 0 },
        Event::Release { thread: 0, lock: 0 },
        Event::Acquire { thread: 0, lock: 1 },
        Event::Release { thread: 0, lock: 1 },
        Event::Acquire { thread: 1, lock: 1 },
        Event::Acquire { thread: 1, lock: 0 },
        Event::Release { thread: 1, lock: 0 },
        Event::Acquire { thread: 1, lock: 0 },
    ];
    let rows = [
        (0, 1, [1, 0, 0]),
        (0, 2, [2, 0, 0]),
        (0, 3, [3, 0, 0]),
        (0, 4, [4, 0, 0]),
        (1, 1, [4, 1, 0]),
        (1, 2, [4, 2, 0]),
        (1, 3, [4, 3, 0]),
        (1, 4, [4, 4, 0]),
    ];
    has_rows(&mut tracker, &events, &rows, steps)
}

/// A lock is released, shared by two threads at once, taken by one of them and shared by the other again: a share counts what was
/// known where the lock was last released, and the acquire what was known where both shares were given back.
fn sharers<L: Ledger>(alloc: Global, steps: &mut Steps<L>) -> Result<bool, NoMemory> {
    let mut tracker = with_two_roots(alloc)?;
    let events = [
        Event::Acquire { thread: 0, lock: 0 },
        Event::Release { thread: 0, lock: 0 },
        Event::Share { thread: 1, lock: 0 },
        Event::Share { thread: 0, lock: 0 },
        Event::Unshare { thread: 1, lock: 0 },
        Event::Unshare { thread: 0, lock: 0 },
        Event::Acquire { thread: 0, lock: 0 },
        Event::Release { thread: 0, lock: 0 },
        Event::Share { thread: 1, lock: 0 },
    ];
    let rows = [
        (0, 1, [1, 0, 0]),
        (0, 2, [2, 0, 0]),
        (1, 1, [2, 1, 0]),
        (0, 3, [3, 0, 0]),
        (1, 2, [2, 2, 0]),
        (0, 4, [4, 0, 0]),
        (0, 5, [5, 2, 0]),
        (0, 6, [6, 2, 0]),
        (1, 3, [6, 3, 0]),
    ];
    has_rows(&mut tracker, &events, &rows, steps)
}

/// A thread shares a lock behind another one that gave its share back, and knows nothing of it, until it acquires the lock.
fn shares_apart<L: Ledger>(alloc: Global, steps: &mut Steps<L>) -> Result<bool, NoMemory> {
    let mut tracker = with_two_roots(alloc)?;
    let events = [
        Event::Share { thread: 0, lock: 1 },
        Event::Unshare { thread: 0, lock: 1 },
        Event::Share { thread: 1, lock: 1 },
        Event::Unshare { thread: 1, lock: 1 },
        Event::Acquire { thread: 1, lock: 0 },
        Event::Acquire { thread: 1, lock: 1 },
    ];
    let rows = [
        (0, 1, [1, 0, 0]),
        (0, 2, [2, 0, 0]),
        (1, 1, [0, 1, 0]),
        (1, 2, [0, 2, 0]),
        (1, 3, [0, 3, 0]),
        (1, 4, [2, 4, 0]),
    ];
    has_rows(&mut tracker, &events, &rows, steps)
}

/// The stamps of the trace are those of its rows.
fn are_told(rt: &impl Abort, trace: &str, told: Result<bool, NoMemory>) {
    assert!(rt; told == Ok(true), "{trace}");
}

fn stamps_of_events<L: Ledger>(rt: &impl Abort, alloc: Global, blank: Blank)
    requires name { blank.name ≡ L.name }
    requires parts { blank.parts ≡ L.parts }
    requires some { 0 < blank.parts }
{
    let mut steps = Steps::<L>::new(blank);
    are_told(rt, "two children", two_children(alloc, &mut steps));
    are_told(rt, "three live", three_live(alloc, &mut steps));
    are_told(rt, "idle child", idle_child(alloc, &mut steps));
    are_told(rt, "strangers", strangers(alloc, &mut steps));
    are_told(rt, "guarded", guarded(alloc, &mut steps));
    are_told(rt, "rounds", rounds(alloc, &mut steps));
    are_told(rt, "reentrant", reentrant(alloc, &mut steps));
    are_told(rt, "no news", no_news(alloc, &mut steps));
    are_told(rt, "sharers", sharers(alloc, &mut steps));
    are_told(rt, "shares apart", shares_apart(alloc, &mut steps));
}

#[test]
fn stamps(rt: HostRuntime) {
    stamps_of_events::<Brand>(&rt, rt.alloc(), Blank::new(1));
}
