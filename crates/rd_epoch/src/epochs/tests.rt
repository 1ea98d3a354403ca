//! Rows of accesses, with the first races of their variables.
ghost use Rattle.std.specs.Prelude.{◌≡◌, ℕ, ◌<◌, Bool, List, [], ◌∷◌, ◌++◌, length};
ghost use Rattle.rd_event.specs.declared.events.Event.{Event as EventOf};
ghost use Rattle.rd_event.specs.declared.events.Event.TheVariants as event;
ghost use Rattle.rd_order.specs.EventLists.{threads_after};
ghost use Rattle.rd_order.specs.TestLists.{one_root, two_roots};
ghost use Rattle.rd_hb.specs.Tracker.{TrackerStandsFor};
ghost use Rattle.rd_base.specs.declared.values.Value.TheVariants.{Nil};
ghost use Rattle.rd_epoch.specs.Accesses.{call_of_access};
ghost use Rattle.rd_epoch.specs.TestRows.{HasRun, IsNextRow, MayRun};

use super::{Access, Epochs, First};
use rd_base::{Slots, Steps, Value};
use rd_event::{Call, Event};
use rd_hb::Tracker;
use std::alloc::Global;
use std::marker::Brand;
use std::process::Abort;
use std::sync::ledger::{Blank, Ledger};

// A tracker that has seen one root.
fn with_one_root(rt: &impl Abort, alloc: Global) -> Tracker
    ensures stands { TrackerStandsFor result one_root [] }
    ensures count { length result.threads ≡ 1 }
{
    let mut tracker = Tracker::new(alloc);
    tracker.root(0).expect(rt, "memory");
    tracker
}

// And one that has seen two.
fn with_two_roots(rt: &impl Abort, alloc: Global) -> Tracker
    ensures stands { TrackerStandsFor result two_roots [] }
    ensures count { length result.threads ≡ 2 }
{
    let mut tracker = with_one_root(rt, alloc);
    tracker.root(1).expect(rt, "memory");
    tracker
}

// A thread reads or writes a variable.
fn access(rt: &impl Abort, alloc: Global, thread: u32, variable: u32, write: bool) -> Event
    ensures { result ≡ event.Call (call_of_access thread variable write (Nil ∷ [])) }
{
    let mut slots = Slots::new(alloc);
    slots.push(Value::Nil).expect(rt, "memory");
    Event::Call(Call {
        thread,
        object: variable,
        kind: 0,
        method: u8::from(write),
        slots,
    })
}

// What is told of the event at the next place; of an access with a stamp of its own, or with the tracker's.
fn told<L: Ledger>(
    rt: &impl Abort,
    tracker: &mut Tracker,
    epochs: &mut Epochs,
    event: &Event,
    place: u32,
    lent: bool,
    steps: &mut Steps<L>,
) -> Option<First>
    requires { (roots : ℕ → Bool) × (es : List EventOf) × IsNextRow tracker.old epochs.old roots es place event.now }
    ensures run { (roots : ℕ → Bool) (es : List EventOf) → IsNextRow tracker.old epochs.old roots es place event.now
        → HasRun tracker.new epochs.new roots (es ++ event.now ∷ []) }
    ensures count { length tracker.new.threads ≡ threads_after event.now (length tracker.old.threads) }
{
    let Event::Call(call) = event else {
        tracker.pass(event, steps).expect(rt, "memory");
        return None;
    };
    assert!(rt; call.object as usize <= epochs.variables.len());
    let access = Access {
        place,
        line: place as u64 + 1,
        variable: call.object,
        write: call.method == 1,
    };
    if lent {
        tracker.pass(event, steps).expect(rt, "memory");
        return epochs
            .follow(&access, call.thread, tracker, access.line, steps)
            .expect(rt, "memory");
    }
    let stamp = tracker.event(event, steps).expect(rt, "memory");
    epochs.access(&access, &stamp, steps).expect(rt, "memory")
}

// The lines of the race that is told of each event, or 0 and 0 where none is.
fn are_told<L: Ledger>(
    rt: &impl Abort,
    alloc: Global,
    tracker: &mut Tracker,
    lent: bool,
    events: &[Event],
    wanted: &[(u64, u64)],
    steps: &mut Steps<L>,
)
    requires { (roots : ℕ → Bool) × MayRun tracker.old roots events.now }
{
    let mut epochs = Epochs::new(alloc);
    for (i, event) in events.iter().enumerate() {
        let lines = match told(rt, tracker, &mut epochs, event, i as u32, lent, steps) {
            Some(First { later, earlier }) => (later, earlier),
            None => (0, 0),
        };
        assert!(rt; wanted.get(i).copied() == Some(lines));
    }
}

// Two roots: the second reads what the first wrote, and that race is told once, though it writes too. With a lock between them there is none.
fn guarded<L: Ledger>(rt: &impl Abort, alloc: Global, lent: bool, steps: &mut Steps<L>) {
    let mut tracker = with_two_roots(rt, alloc);
    let events = [
        access(rt, alloc, 0, 0, true),
        access(rt, alloc, 1, 0, false),
        access(rt, alloc, 1, 0, true),
        Event::Acquire { thread: 0, lock: 0 },
        access(rt, alloc, 0, 1, true),
        Event::Release { thread: 0, lock: 0 },
        Event::Acquire { thread: 1, lock: 0 },
        access(rt, alloc, 1, 1, false),
        Event::Release { thread: 1, lock: 0 },
    ];
    let wanted = [
        (0, 0),
        (2, 1),
        (0, 0),
        (0, 0),
        (0, 0),
        (0, 0),
        (0, 0),
        (0, 0),
        (0, 0),
    ];
    are_told(rt, alloc, &mut tracker, lent, &events, &wanted, steps);
}

// Two children read what their parent wrote, which joins one of them and writes: that races with the read of the other.
fn children<L: Ledger>(rt: &impl Abort, alloc: Global, lent: bool, steps: &mut Steps<L>) {
    let mut tracker = with_one_root(rt, alloc);
    let events = [
        access(rt, alloc, 0, 0, true),
        Event::Fork {
            thread: 0,
            child: 1,
        },
        Event::Fork {
            thread: 0,
            child: 2,
        },
        access(rt, alloc, 1, 0, false),
        access(rt, alloc, 2, 0, false),
        Event::Join {
            thread: 0,
            child: 1,
        },
        access(rt, alloc, 0, 0, true),
    ];
    let wanted = [(0, 0), (0, 0), (0, 0), (0, 0), (0, 0), (0, 0), (7, 5)];
    are_told(rt, alloc, &mut tracker, lent, &events, &wanted, steps);
}

fn rows<L: Ledger>(rt: &impl Abort, alloc: Global, lent: bool, blank: Blank)
    requires name { blank.name ≡ L.name }
    requires parts { blank.parts ≡ L.parts }
    requires some { 0 < blank.parts }
{
    let mut steps = Steps::<L>::new(blank);
    guarded(rt, alloc, lent, &mut steps);
    children(rt, alloc, lent, &mut steps);
}

#[test]
fn with_a_stamp(rt: HostRuntime) {
    rows::<Brand>(&rt, rt.alloc(), false, Blank::new(1));
}

#[test]
fn with_the_stamp_of_the_tracker(rt: HostRuntime) {
    rows::<Brand>(&rt, rt.alloc(), true, Blank::new(1));
}
