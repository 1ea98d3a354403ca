//! Logs that are woven, and logs that aren't.

use crate::{Log, WeaveRefused, weave};
use rd_base::Bytes;
use rd_event::{Line, LineEvent};
use std::alloc::Global;
use std::process::Abort;

// A log with this text.
fn log(rt: &impl Abort, alloc: Global, text: &str) -> Log {
    let mut bytes = Bytes::new(alloc);
    bytes.append(text.as_bytes()).expect(rt, "memory");
    Log { bytes }
}

// The keyword of an event, and its thread.
fn event_words(event: &LineEvent) -> (&str, &[u8]) {
    match event {
        LineEvent::Fork { thread, .. } => ("fork", thread.items()),
        LineEvent::Join { thread, .. } => ("join", thread.items()),
        LineEvent::Acquire { thread, .. } => ("acquire", thread.items()),
        LineEvent::Release { thread, .. } => ("release", thread.items()),
        LineEvent::Call { thread, .. } => ("call", thread.items()),
        _ => ("", b""),
    }
}

// The keyword of a line, and the name behind it.
fn words(line: &Line) -> (&str, &[u8]) {
    match line {
        Line::Header { .. } => ("rdtrace", b""),
        Line::Thread(name) => ("thread", name.items()),
        Line::Object { name, .. } => ("object", name.items()),
        Line::Event(event) => event_words(event),
        Line::Skip => ("", b""),
    }
}

// Are these the words of the lines?
fn are(lines: &[Line], wanted: &[(&str, &str)]) -> bool {
    if lines.len() != wanted.len() {
        return false;
    }
    for (place, line) in lines.iter().enumerate() {
        let said = words(line);
        if said.0 != wanted[place].0 || said.1 != wanted[place].1.as_bytes() {
            return false;
        }
    }
    true
}

// Are the two logs woven into lines with these words?
fn weaves(rt: &impl Abort, alloc: Global, logs: (&str, &str), wanted: &[(&str, &str)]) -> bool {
    let logs = [log(rt, alloc, logs.0), log(rt, alloc, logs.1)];
    match weave(alloc, logs.as_slice()) {
        Ok(weaving) => are(weaving.lines.items(), wanted),
        Err(_) => false,
    }
}

// Are they stuck behind so many events of each?
fn sticks(rt: &impl Abort, alloc: Global, logs: (&str, &str), counts: &[u32]) -> bool {
    let logs = [log(rt, alloc, logs.0), log(rt, alloc, logs.1)];
    match weave(alloc, logs.as_slice()) {
        Err(WeaveRefused::Stuck(places)) => places.items() == counts,
        _ => false,
    }
}

// Is this line of this log the first bad one?
fn is_bad(rt: &impl Abort, alloc: Global, logs: (&str, &str), number: u32, line: u64) -> bool {
    let logs = [log(rt, alloc, logs.0), log(rt, alloc, logs.1)];
    match weave(alloc, logs.as_slice()) {
        Err(WeaveRefused::BadLog(bad, at)) => bad == number && at == line,
        _ => false,
    }
}

const MAIN: &str =
    "rdlog 1 main\nobject x register\nfork a\nacquire l 2\ncall x read -> 1\nrelease l\njoin a\n";

const SAME_NUMBER: &str =
    "rdlog 1 main\nobject x register\nfork a\nacquire l 1\ncall x read -> 1\nrelease l\njoin a\n";

const A: &str = "rdlog 1 a\nacquire l 1\ncall x write 1 -> nil\nrelease l\n";

const WOVEN: [(&str, &str); 11] = [
    ("rdtrace", ""),
    ("thread", "main"),
    ("object", "x"),
    ("fork", "main"),
    ("acquire", "a"),
    ("call", "a"),
    ("release", "a"),
    ("acquire", "main"),
    ("call", "main"),
    ("release", "main"),
    ("join", "main"),
];

/// Logs are woven in the order that their locks' numbers ask for.
#[test]
fn woven_logs(rt: HostRuntime) {
    let alloc = rt.alloc();
    assert!(rt; weaves(&rt, alloc, (MAIN, A), WOVEN.as_slice()));
    assert!(rt;
        weaves(
            &rt,
            alloc,
            ("rdlog 1 a\n", "rdlog 1 b\n"),
            [("rdtrace", ""), ("thread", "a"), ("thread", "b")].as_slice()
        )
    );
    assert!(rt;
        weaves(
            &rt,
            alloc,
            ("rdlog 1 a\nfork c\njoin c\n", "rdlog 1 b\n"),
            [
                ("rdtrace", ""),
                ("thread", "a"),
                ("thread", "b"),
                ("fork", "a"),
                ("join", "a")
            ]
            .as_slice()
        )
    );
}

/// Where they can't be, the answer is how far each came.
#[test]
fn stuck_logs(rt: HostRuntime) {
    let alloc = rt.alloc();
    // two acquires of one number; main waits for a, which is stuck
    assert!(rt; sticks(&rt, alloc, (SAME_NUMBER, A), [4, 0].as_slice()));
    // two logs of one thread, and an object that is declared twice
    assert!(rt;
        sticks(
            &rt,
            alloc,
            ("rdlog 1 a\nfork b\n", "rdlog 1 a\n"),
            [0, 0].as_slice()
        )
    );
    assert!(rt;
        sticks(
            &rt,
            alloc,
            (
                "rdlog 1 a\nobject x bag\nfork c\n",
                "rdlog 1 b\nobject x bag\n"
            ),
            [0, 0].as_slice()
        )
    );
    // an object that no log declares; a thread that is never begun; a number that comes never
    assert!(rt;
        sticks(
            &rt,
            alloc,
            (
                "rdlog 1 a\nfork c\ncall x read -> 1\n",
                "rdlog 1 b\njoin d\n"
            ),
            [1, 0].as_slice()
        )
    );
    assert!(rt;
        sticks(
            &rt,
            alloc,
            ("rdlog 1 a\nacquire l 1\n", "rdlog 1 b\nacquire l 3\n"),
            [1, 0].as_slice()
        )
    );
}

/// The first bad line is told by its log and its number.
#[test]
fn bad_logs(rt: HostRuntime) {
    let alloc = rt.alloc();
    assert!(rt; is_bad(&rt, alloc, (MAIN, "rdlog 1 a\nacquire l 0\n"), 1, 2));
    assert!(rt; is_bad(&rt, alloc, ("", "rdlog 1 a\nfork\n"), 0, 1));
    assert!(rt; is_bad(&rt, alloc, ("rdlog 1 a\n", "rdlog 1 a\nfork b"), 1, 2));
}
