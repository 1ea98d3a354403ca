//! Edges and paths of lists of events.

use crate::rows::{Act, events};
use rd_event::Event;
use rd_order::{Places, edge, farthest_steps, path};
use std::alloc::Global;
use std::process::Abort;

// Are these the places of the path? None where there is no path.
fn has_path(
    rt: &impl Abort,
    alloc: Global,
    events: &[Event],
    i: u32,
    j: u32,
    expected: &[u32],
) -> bool {
    if events.len() <= i as usize || events.len() <= j as usize {
        return false;
    }
    match path(alloc, events, i, j).expect(rt, "memory") {
        None => expected.is_empty(),
        Some(places) => places.items() == expected,
    }
}

// Are these the farthest next places of all places before j on the way to it? None where a place doesn't reach it.
fn has_steps(
    rt: &impl Abort,
    alloc: Global,
    events: &[Event],
    j: u32,
    expected: &[Option<u32>],
) -> bool {
    if events.len() <= j as usize {
        return false;
    }
    let steps = farthest_steps(alloc, events, 0, j).expect(rt, "memory");
    for place in 0..j {
        if expected.get(place as usize).copied() != Some(steps.step(place, j)) {
            return false;
        }
    }
    true
}

// Is there an edge?
fn has_edge(events: &[Event], i: u32, j: u32) -> bool {
    (i as usize) < events.len() && (j as usize) < events.len() && edge(events, i, j)
}

/// Threads with what they do, whether there is an edge between two places, and the path between two.
struct Order {
    acts: &'static [(u32, Act<'static>)],
    edges: &'static [(u32, u32, bool)],
    paths: &'static [(u32, u32, &'static [u32])],
}

// The events have these edges, and these paths.
fn are_ordered(rt: &impl Abort, alloc: Global, order: &Order) {
    let events = events(rt, alloc, order.acts);
    for (i, j, expected) in order.edges {
        assert!(rt; has_edge(&events, *i, *j) == *expected, "{i} {j}");
    }
    for (i, j, expected) in order.paths {
        assert!(rt; has_path(rt, alloc, &events, *i, *j, expected), "{i} {j}");
    }
}

const CALL: Act<'static> = Act::Call(0, 0, 0, &[]);

/// main forks a and b, each calls, main joins both and calls
const FORKS: Order = Order {
    acts: &[
        (0, Act::Fork(1)),
        (0, Act::Fork(2)),
        (1, CALL),
        (2, CALL),
        (0, Act::Join(1)),
        (0, Act::Join(2)),
        (0, CALL),
    ],
    edges: &[
        (0, 1, true),
        (0, 2, true),
        (0, 3, false),
        (0, 4, true),
        (1, 0, false),
        (1, 1, false),
        (1, 3, true),
        (2, 3, false),
        (2, 4, true),
        (2, 5, false),
        (2, 6, false),
        (4, 6, true),
    ],
    paths: &[
        (2, 4, &[2, 4]),
        (2, 3, &[]),
        (0, 2, &[0, 2]),
        (0, 4, &[0, 4]),
        (2, 6, &[2, 4, 6]),
        (6, 2, &[]),
        (3, 3, &[]),
    ],
};

#[test]
fn forks_and_joins_have_edges(rt: HostRuntime) {
    are_ordered(&rt, rt.alloc(), &FORKS);
}

/// p writes while it has the lock, releases an inner hold and the lock, and q acquires it; r another one
const RELEASES: Order = Order {
    acts: &[
        (0, Act::Acquire(0)),
        (0, Act::Acquire(0)),
        (0, CALL),
        (0, Act::Release(0)),
        (0, Act::Release(0)),
        (2, Act::Acquire(1)),
        (1, Act::Acquire(0)),
        (1, CALL),
    ],
    edges: &[
        (0, 6, false),
        (3, 6, true),
        (4, 6, true),
        (4, 5, false),
        (2, 7, false),
    ],
    paths: &[(2, 7, &[2, 4, 6, 7]), (2, 5, &[]), (5, 7, &[])],
};

#[test]
fn a_release_comes_before_each_later_acquire(rt: HostRuntime) {
    are_ordered(&rt, rt.alloc(), &RELEASES);
}

/// p releases a lock, q and r share it at once, p acquires and releases it again, and q shares it
const SHARES: Order = Order {
    acts: &[
        (0, Act::Acquire(0)),
        (0, Act::Release(0)),
        (1, Act::Share(0)),
        (2, Act::Share(0)),
        (1, Act::Unshare(0)),
        (2, Act::Unshare(0)),
        (0, Act::Acquire(0)),
        (0, Act::Release(0)),
        (1, Act::Share(0)),
    ],
    edges: &[
        (0, 2, false),
        (1, 2, true),
        (1, 3, true),
        (2, 3, false),
        (3, 4, false),
        (4, 5, false),
        (3, 6, false),
        (4, 6, true),
        (5, 6, true),
        (5, 7, false),
        (5, 8, false),
        (7, 8, true),
    ],
    paths: &[
        (2, 6, &[2, 4, 6]),
        (3, 6, &[3, 5, 6]),
        (2, 5, &[]),
        (4, 5, &[]),
        (5, 8, &[5, 6, 7, 8]),
        (0, 8, &[0, 7, 8]),
    ],
};

#[test]
fn shares_come_behind_releases_and_before_acquires(rt: HostRuntime) {
    are_ordered(&rt, rt.alloc(), &SHARES);
}

#[test]
fn a_place_steps_as_far_as_a_path_may(rt: HostRuntime) {
    let order = &SHARES;
    let events = events(&rt, rt.alloc(), order.acts);
    let expected = [Some(1), Some(3), None, Some(5), None];
    assert!(rt; has_steps(&rt, rt.alloc(), &events, 5, &expected));
}

#[test]
fn places_are_kept_in_order(rt: HostRuntime) {
    let mut places = Places::new(rt.alloc());
    assert!(rt; places.items().is_empty());
    assert!(rt; places.push(4) == Ok(()) && places.push(2) == Ok(()));
    assert!(rt; places.items() == [4, 2].as_slice());
}
