//! A long trace.

use crate::rows::course;
use std::process::Abort;

// What four threads do over and over.
const ROUND: &str =
    "call c o read -> nil;call d o read -> nil;share a l;call a o read -> nil;share b l;unshare a l;unshare b l;acquire b l;call b o read -> nil;release b l;acquire a k;release a k";

// How many events a round has, and how many rounds there are.
const EVENTS: usize = 12;

const ROUNDS: usize = 25_000;

/// 300,000 events are put in another order.
#[test]
fn a_long_trace(rt: HostRuntime) {
    let mut course = course(&rt, rt.alloc(), "thread a;thread b;thread c;thread d");
    for _ in 0..ROUNDS {
        for line in ROUND.split(';') {
            assert!(rt; course.take(&rt, line), "{line}");
        }
    }
    let places = course.order(&rt, u64::MAX);
    assert!(rt; places.items().len() == ROUNDS * EVENTS);
}
