//! The order that a number picks, by its definition.

use rd_event::Event;
use rd_order::path;
use std::alloc::Global;
use std::process::Abort;

// The thread of an event.
fn thread_of(event: &Event) -> u32 {
    match event {
        Event::Fork { thread, .. } => *thread,
        Event::Join { thread, .. } => *thread,
        Event::Acquire { thread, .. } => *thread,
        Event::Release { thread, .. } => *thread,
        Event::Share { thread, .. } => *thread,
        Event::Unshare { thread, .. } => *thread,
        Event::Call(call) => call.thread,
    }
}

/// Does the first place reach the second?
pub fn reaches(rt: &impl Abort, alloc: Global, events: &[Event], i: u32, j: u32) -> bool {
    (i as usize) < events.len()
        && (j as usize) < events.len()
        && path(alloc, events, i, j).expect(rt, "memory").is_some()
}

// The number of the thread of an event, where it isn't placed.
fn waiting(events: &[Event], placed: &[u32], place: u32) -> Option<u32> {
    if placed.contains(&place) {
        return None;
    }
    Some(thread_of(events.get(place as usize)?))
}

// The first event of the thread that isn't placed.
fn next_of(events: &[Event], placed: &[u32], count: u32, thread: u32) -> Option<u32> {
    for place in 0..count {
        if waiting(events, placed, place) == Some(thread) {
            return Some(place);
        }
    }
    None
}

// Are all that reach the place placed?
fn is_ready(
    rt: &impl Abort,
    alloc: Global,
    events: &[Event],
    placed: &[u32],
    count: u32,
    place: u32,
) -> bool {
    for earlier in 0..count {
        if !placed.contains(&earlier) && reaches(rt, alloc, events, earlier, place) {
            return false;
        }
    }
    true
}

// The next events of the threads that are ready, in the order of the threads.
fn ready(
    rt: &impl Abort,
    alloc: Global,
    events: &[Event],
    placed: &[u32],
    count: u32,
    threads: u32,
) -> Vec<u32> {
    let mut found = Vec::new(alloc);
    for thread in 0..threads {
        if let Some(place) = next_of(events, placed, count, thread) {
            if is_ready(rt, alloc, events, placed, count, place) {
                found.push(place).expect(rt, "memory");
            }
        }
    }
    found
}

/// The places in the order that the number picks, of events of threads below a number.
pub fn order(
    rt: &impl Abort,
    alloc: Global,
    events: &[Event],
    threads: u32,
    number: u64,
) -> Vec<u32> {
    let count = u32::try_from(events.len()).ok().expect(rt, "few events");
    let mut placed = Vec::new(alloc);
    let mut left = number;
    for _ in 0..count {
        let ready = ready(rt, alloc, events, placed.as_slice(), count, threads);
        let choices = (ready.len() as u64).max(1);
        let place = ready.get((left % choices) as usize).copied();
        placed
            .push(place.expect(rt, "a ready thread"))
            .expect(rt, "memory");
        left /= choices;
    }
    placed
}
