//! Traces that are drawn: their orders are those of the definition.

use crate::course::Course;
use crate::drawing::{Random, draw};
use crate::model::{order, reaches};
use crate::rows::course;
use rd_event::Event;
use rd_linear::is_linear;
use std::alloc::Global;
use std::process::Abort;

// How many threads there may be, and how many lines are drawn.
const THREADS: u32 = 5;

const LINES: u32 = 60;

// A trace that is drawn.
fn drawn(rt: &impl Abort, alloc: Global, random: &mut Random) -> Course {
    let mut course = course(rt, alloc, "thread t0;thread t1");
    for _ in 0..LINES {
        let mut line = String::new(alloc);
        draw(rt, &mut line, random, THREADS);
        course.take(rt, line.as_str());
    }
    course
}

// With the place at this position and the one behind it exchanged.
fn exchanged(rt: &impl Abort, alloc: Global, places: &[u32], at: usize) -> Vec<u32> {
    let mut other = Vec::from_slice(alloc, places).expect(rt, "memory");
    if at < other.len() && other.len() - at > 1 {
        let first = other[at];
        other[at] = other[at + 1];
        other[at + 1] = first;
    }
    other
}

// Whether two neighbours of an order may be exchanged is told by whether the first reaches the second.
fn neighbours(rt: &impl Abort, alloc: Global, events: &[Event], places: &[u32], at: usize) -> bool {
    let (Some(first), Some(second)) = (places.get(at), places.get(at.wrapping_add(1))) else {
        return false;
    };
    let ordered = reaches(rt, alloc, events, *first, *second);
    let other = exchanged(rt, alloc, places, at);
    let linear = is_linear(alloc, events, other.as_slice()).expect(rt, "memory");
    assert!(rt; linear != ordered, "{first} {second}");
    ordered
}

// The order that a number picks is that of the definition, and it is linear. It answers how many neighbours are ordered, and how many
// aren't.
fn is_right(rt: &impl Abort, alloc: Global, course: &Course, number: u64) -> (u32, u32) {
    let events = course.events();
    let places = course.order(rt, number);
    let expected = order(rt, alloc, events, THREADS, number);
    assert!(rt; places.items() == expected.as_slice(), "{number}");
    assert!(rt;
        is_linear(alloc, events, places.items()).expect(rt, "memory"),
        "{number}"
    );
    let (mut ordered, mut free) = (0u32, 0u32);
    for at in 1..events.len() {
        let is_ordered = neighbours(rt, alloc, events, places.items(), at - 1);
        ordered = ordered.wrapping_add(u32::from(is_ordered));
        free = free.wrapping_add(u32::from(!is_ordered));
    }
    (ordered, free)
}

#[test]
fn drawn_traces(rt: HostRuntime) {
    let alloc = rt.alloc();
    let mut random = Random { state: 7 };
    let (mut ordered, mut free) = (0u32, 0u32);
    for _ in 0..300u32 {
        let course = drawn(&rt, alloc, &mut random);
        let number = random.number();
        let found = is_right(&rt, alloc, &course, number);
        ordered = ordered.wrapping_add(found.0);
        free = free.wrapping_add(found.1);
    }
    assert!(rt;
        ordered > 1_000 && free > 1_000,
        "{ordered} ordered, {free} free"
    );
}
