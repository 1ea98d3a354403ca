//! Traces with the earlier call that is named for each call.
ghost use Rattle.std.specs.Prelude.{◌≡◌, ◌<◌};

use crate::trial::{Taken, Trial};
use rd_base::Steps;
use rd_store::Race;
use std::alloc::Global;
use std::marker::Brand;
use std::process::Abort;
use std::sync::ledger::{Blank, Ledger};

// What a trace shows, its lines with a semicolon between two, and for each call the line of the earlier one that is named, or 0 where none is.
type Row = (&'static str, &'static str, &'static [u64]);

const ROWS: [Row; 19] = [
    (
        "different keys",
        "rdtrace 1;thread main;object d dictionary;fork main a;fork main b;call a d put \"x\" 1 -> nil;call b d put \"y\" 2 -> nil;join main a;join main b;call main d size -> 2",
        &[0, 0, 0],
    ),
    (
        "one key",
        "rdtrace 1;thread main;object d dictionary;fork main a;fork main b;call a d put \"k\" 1 -> nil;call b d put \"k\" 1 -> 1;join main a;join main b;call main d size -> 1",
        &[0, 6, 0],
    ),
    (
        "one key, guarded by a lock",
        "rdtrace 1;thread main;object d dictionary;fork main a;fork main b;acquire a l;call a d put \"k\" 1 -> nil;release a l;acquire b l;call b d put \"k\" 1 -> 1;release b l;join main a;join main b;call main d size -> 1",
        &[0, 0, 0],
    ),
    (
        "a put that changes nothing",
        "rdtrace 1;thread main;object d dictionary;call main d put \"k\" 1 -> nil;fork main a;fork main b;call a d put \"k\" 1 -> 1;call b d get \"k\" -> 1",
        &[0, 0, 0],
    ),
    (
        "a thread without an event ties two calls",
        "rdtrace 1;thread p;thread q;object d dictionary;call p d put \"k\" 1 -> nil;fork p u;join q u;call q d put \"k\" 2 -> 1",
        &[0, 0],
    ),
    (
        "a put that makes an entry, and the size",
        "rdtrace 1;thread p;thread q;object d dictionary;call p d put \"k\" 1 -> nil;call q d size -> 1",
        &[0, 5],
    ),
    (
        "a put into an entry, and the size",
        "rdtrace 1;thread main;object d dictionary;call main d put \"k\" 1 -> nil;fork main a;fork main b;call a d put \"k\" 2 -> 1;call b d size -> 1",
        &[0, 0, 0],
    ),
    (
        "the latest is named",
        "rdtrace 1;thread p;thread q;thread r;object x register;call p x write 1 -> nil;call q x write 2 -> nil;call p x write 3 -> nil;call r x write 4 -> nil",
        &[0, 6, 7, 8],
    ),
    (
        "a call that the clock covers hides no other",
        "rdtrace 1;thread a;thread b;object d dictionary;call a d put \"k\" 1 -> nil;call b d put \"k\" 2 -> 1;fork b c;call c d put \"k\" 3 -> 2",
        &[0, 5, 5],
    ),
    (
        "a lock that is taken twice and given back once",
        "rdtrace 1;thread p;thread q;object x register;acquire p l;acquire p l;call p x write 1 -> nil;call q x read -> 1;release p l",
        &[0, 7],
    ),
    (
        "additions",
        "rdtrace 1;thread main;object c counter;fork main a;fork main b;call a c add 9223372036854775807 -> nil;call b c add 1 -> nil;join main a;join main b;call main c get -> -9223372036854775808",
        &[0, 0, 0],
    ),
    (
        "nothing is added, and the total",
        "rdtrace 1;thread p;thread q;object c counter;call p c add 0 -> nil;call q c get -> 0",
        &[0, 0],
    ),
    (
        "something is added, and the total",
        "rdtrace 1;thread p;thread q;object c counter;call p c add 1 -> nil;call q c get -> 0",
        &[0, 5],
    ),
    (
        "the same calls on two objects",
        "rdtrace 1;thread p;thread q;object c counter;object d counter;call p c add 1 -> nil;call q d get -> 0;call q c get -> 1",
        &[0, 0, 6],
    ),
    (
        "an earlier call of another thread, which the own later one doesn't hide",
        "rdtrace 1;thread p;thread q;object s set;call p s add 1 -> true;call q s remove 1 -> true;call q s size -> 0;call p s contains 1 -> false",
        &[0, 5, 5, 6],
    ),
    (
        "calls with one value at different slots",
        "rdtrace 1;thread p;thread q;object x pair;call p x move 1 2 -> nil;call q x move 3 4 -> nil;call q x move 2 3 -> nil;call q x look 1 -> nil;call p x look 3 -> nil",
        &[0, 0, 5, 5, 7],
    ),
    (
        "slots that are compared with constants",
        "rdtrace 1;thread p;thread q;object x level;call p x raise 1 0 -> nil;call q x raise 1 3 -> nil;call q x read 1 -> nil;call p x read 1 -> 5;call p x reset -> nil;call q x reset -> nil",
        &[0, 5, 0, 6, 6, 9],
    ),
    (
        "methods that never commute, or always",
        "rdtrace 1;thread p;thread q;object x gate;call p x open -> nil;call q x open -> nil;call q x close -> true;call p x close -> true;call p x close -> false",
        &[0, 0, 5, 6, 7],
    ),
    (
        "a formula that holds in one direction",
        "rdtrace 1;thread p;thread q;object x link;call p x link 1 2 -> true;call q x link 2 3 -> true;call q x link 3 1 -> true;call p x link 3 4 -> nil;call p x link 3 4 -> true",
        &[0, 5, 5, 0, 6],
    ),
];

// The race, where there is one, has its later call on this line and its earlier one on that, or there is none and that is 0.
fn is_between(race: &Option<Race>, later: u64, earlier: u64) -> bool {
    match race {
        Some(race) => race.later.line == later && race.earlier.line == earlier,
        None => earlier == 0,
    }
}

// Takes the lines of a row, and asserts what is answered for each call.
fn is_answered<L: Ledger>(rt: &impl Abort, alloc: Global, row: Row, steps: &mut Steps<L>) {
    let (name, lines, wanted) = row;
    let mut trial = Trial::new(rt, alloc);
    let mut number = 0u64;
    let mut calls = 0usize;
    for line in lines.split(';') {
        number = number.wrapping_add(1);
        match trial.take(rt, line, steps) {
            Taken::Refused => assert!(rt; false, "{name}: {line}"),
            Taken::Quiet => {}
            Taken::Call(_, race) => {
                let earlier = wanted.get(calls).copied().expect(rt, "a call of the row");
                assert!(rt; is_between(&race, number, earlier), "{name}: {line}");
                calls = calls.wrapping_add(1);
            }
        }
    }
    assert!(rt; calls == wanted.len(), "{name}");
}

fn are_answered<L: Ledger>(rt: &impl Abort, alloc: Global, blank: Blank)
    requires name { blank.name ≡ L.name }
    requires parts { blank.parts ≡ L.parts }
    requires some { 0 < blank.parts }
{
    let mut steps = Steps::<L>::new(blank);
    for row in &ROWS {
        is_answered(rt, alloc, *row, &mut steps);
    }
}

#[test]
fn the_call_that_is_named(rt: HostRuntime) {
    are_answered::<Brand>(&rt, rt.alloc(), Blank::new(1));
}
