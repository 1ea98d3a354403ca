//! Traces with the orders that numbers pick.

use crate::course::Course;
use rd_linear::is_linear;
use std::alloc::Global;
use std::process::Abort;

// The lines before the first root.
const HEAD: &str = "rdtrace 2;object o register";

/// The events of these lines, with a semicolon between two. Each may follow.
pub fn course(rt: &impl Abort, alloc: Global, lines: &str) -> Course {
    let mut course = Course::new(rt, alloc);
    for line in HEAD.split(';') {
        assert!(rt; course.take(rt, line), "{line}");
    }
    for line in lines.split(';') {
        assert!(rt; course.take(rt, line), "{line}");
    }
    course
}

// The places of a row: a digit each.
fn places(rt: &impl Abort, alloc: Global, digits: &str) -> Vec<u32> {
    let mut places = Vec::new(alloc);
    for digit in digits.bytes() {
        let place = u32::from(digit.wrapping_sub(b'0'));
        places.push(place).expect(rt, "memory");
    }
    places
}

// Are the places a linear order?
fn is_order(rt: &impl Abort, alloc: Global, course: &Course, digits: &str) -> bool {
    let places = places(rt, alloc, digits);
    is_linear(alloc, course.events(), places.as_slice()).expect(rt, "memory")
}

// The number picks the order.
fn picks(rt: &impl Abort, alloc: Global, course: &Course, number: u64, digits: &str) {
    let found = course.order(rt, number);
    let expected = places(rt, alloc, digits);
    assert!(rt; found.items() == expected.as_slice(), "{number}: {digits}");
}

// What a row says: the lines of a trace, the orders that 0, 1, 2 and so on pick, and lists of places that are no linear orders.
type Row<'a> = (&'a str, &'a str, &'a str);

// The numbers from 0 on pick these orders, which are linear.
fn are_picked(rt: &impl Abort, alloc: Global, course: &Course, orders: &str) {
    let mut number = 0u64;
    for digits in orders.split(' ') {
        picks(rt, alloc, course, number, digits);
        assert!(rt; is_order(rt, alloc, course, digits), "{number}");
        number = number.wrapping_add(1);
    }
}

// None of these is a linear order.
fn are_none(rt: &impl Abort, alloc: Global, course: &Course, lists: &str) {
    let mut number = 0u64;
    for digits in lists.split(' ') {
        assert!(rt; !is_order(rt, alloc, course, digits), "{number}");
        number = number.wrapping_add(1);
    }
}

fn holds(rt: &impl Abort, alloc: Global, row: Row) {
    let course = course(rt, alloc, row.0);
    are_picked(rt, alloc, &course, row.1);
    are_none(rt, alloc, &course, row.2);
}

/// main forks two threads, each calls, main joins both and calls
const TWO_CHILDREN: Row = (
    "thread m;fork m a;fork m b;call a o write 1 -> nil;call b o write 2 -> nil;join m a;join m b;call m o read -> 2",
    "0124356 0214356",
    "0241356 01 0124355 0124357 01243566 0142356",
);

const NO_EVENTS: Row = ("thread a", "  ", "0 1");

const ONE_THREAD: Row = (
    "thread a;call a o write 1 -> nil;call a o read -> 1",
    "01 01 01",
    "10 00 11 0 012",
);

const TWO_THREADS: Row = (
    "thread a;thread b;call a o read -> nil;call a o read -> nil;call b o read -> nil;call b o read -> nil",
    "0123 2013 0213 2301 0123 2031 0231",
    "1023 0132 0122",
);

/// the thread a does nothing, and n joins it
const IDLE_CHILD: Row = (
    "thread m;thread n;fork m a;join n a;fork m b;call n o read -> nil",
    "0213 0123 0213 0132",
    "1023 0312 2013",
);

/// a takes the lock twice and gives it back twice before b takes it
const REENTRANT: Row = (
    "thread a;thread b;acquire a l;acquire a l;release a l;release a l;acquire b l;release b l;call b o read -> nil",
    "0123456 0123456 0123456",
    "0124356 0123546 4012356",
);

const TWO_LOCKS: Row = (
    "thread a;thread b;acquire a l;acquire b k;release a l;release b k",
    "0213 1023 0123 1302",
    "2013 0312",
);

/// two threads share the lock, then a third one takes it
const READERS_FIRST: Row = (
    "thread a;thread b;thread c;share a l;share b l;unshare b l;unshare a l;acquire c l;release c l",
    "031245 103245 013245 120345",
    "013425 012435 401235",
);

/// two threads share the lock behind one that took it
const WRITER_FIRST: Row = (
    "thread a;thread b;thread c;acquire a l;release a l;share b l;share c l;unshare b l;unshare c l",
    "012435 013245 012345 013524",
    "021345 240135 023145",
);

/// a shares the lock behind b, takes it, gives it back, and then its share
const UPGRADE: Row = (
    "thread a;thread b;share b l;unshare b l;share a l;acquire a l;release a l;unshare a l;share b l",
    "2013456 0213456 2013465 0123456",
    "2301456 0123645 0231456",
);

/// a takes the lock and a share, and gives the lock back first; then b shares and takes it
const DOWNGRADE: Row = (
    "thread a;thread b;acquire a l;share a l;release a l;share b l;unshare a l;unshare b l;acquire b l",
    "0124356 0123456 0124356 0123546",
    "0123564 0132456 0123465",
);

const ROWS: [Row; 11] = [
    TWO_CHILDREN,
    NO_EVENTS,
    ONE_THREAD,
    TWO_THREADS,
    IDLE_CHILD,
    REENTRANT,
    TWO_LOCKS,
    READERS_FIRST,
    WRITER_FIRST,
    UPGRADE,
    DOWNGRADE,
];

#[test]
fn rows(rt: HostRuntime) {
    for row in ROWS {
        holds(&rt, rt.alloc(), row);
    }
}

// The largest number picks the last of two ready threads, and half of it too.
#[test]
fn the_largest_number(rt: HostRuntime) {
    let course = course(&rt, rt.alloc(), TWO_THREADS.0);
    picks(&rt, rt.alloc(), &course, u64::MAX, "2301");
}
