//! Logs read from files in memory, under limits.

use crate::{LogLimit, LogsUnread, read_logs};
use rd_base::{LimitName, Limits, Word};
use rd_io::MemoryInputs;
use rd_logs::Log;
use std::alloc::Global;
use std::process::Abort;

// Two files, `a` and `b`; which are read, a byte for each name; the numbers of the calls that fail; the limits on a line, on the bytes of a log and
// on lines that aren't skipped; and the logs, each with a `|` behind it, or why they aren't read.
#[derive(Clone, Copy)]
struct Row<'a> {
    first: &'a str,
    second: &'a str,
    names: &'a str,
    failing: &'a [u32],
    limits: (u32, u64, u32),
    answer: Result<&'a str, LogsUnread>,
}

// The limit that a log passes at a line.
fn passed(log: u64, line: u64, name: LimitName, number: u64) -> Result<&'static str, LogsUnread> {
    Err(LogsUnread::Limit(LogLimit {
        log,
        line,
        name,
        number,
    }))
}

// Are these the logs, each with a `|` behind it?
fn are(rt: &impl Abort, alloc: Global, logs: &[Log], text: &str) -> bool {
    let mut joined = Word::new(alloc);
    for log in logs {
        for byte in log.bytes.items() {
            joined.push(*byte).expect(rt, "memory");
        }
        joined.push(b'|').expect(rt, "memory");
    }
    joined.items() == text.as_bytes()
}

// Is the row so, where a read gives so many bytes at most?
fn is_so(rt: &impl Abort, alloc: Global, row: &Row, piece: u32) -> bool {
    let (line, bytes, events) = row.limits;
    assert!(rt; line >= 1 && bytes < u64::MAX && events < u32::MAX && piece >= 1);
    let limits = Limits {
        line,
        bytes,
        events,
        ..Limits::standard()
    };
    let first = Word::from_bytes(alloc, b"a").expect(rt, "memory");
    let second = Word::from_bytes(alloc, b"b").expect(rt, "memory");
    let mut inputs = MemoryInputs::new(alloc, row.failing).expect(rt, "memory");
    inputs
        .add(&first, row.first.as_bytes(), piece)
        .expect(rt, "memory");
    inputs
        .add(&second, row.second.as_bytes(), piece)
        .expect(rt, "memory");
    let mut files = Vec::new(alloc);
    for name in row.names.as_bytes() {
        let word = Word::from_bytes(alloc, &[*name]).expect(rt, "memory");
        files.push(word).expect(rt, "memory");
    }
    match read_logs(alloc, files.as_slice(), &mut inputs, &limits) {
        Ok(logs) => row
            .answer
            .is_ok_and(|text| are(rt, alloc, logs.as_slice(), text)),
        Err(unread) => row.answer == Err(unread),
    }
}

/// The logs are the files' bytes, a rest without a line feed too; a limit is told at the first line that passes it; a failure and a missing file are
/// faults.
#[test]
fn logs(rt: HostRuntime) {
    let alloc = rt.alloc();
    let free = Row {
        first: "rdlog 1 main\nfork a\n",
        second: "\n#\nrdlog 1 a\nfork b\n",
        names: "ab",
        failing: &[],
        limits: (64, 1000, 100),
        answer: Ok("rdlog 1 main\nfork a\n|\n#\nrdlog 1 a\nfork b\n|"),
    };
    let rows = [
        free,
        Row {
            names: "",
            answer: Ok(""),
            ..free
        },
        Row {
            first: "",
            second: "x\ny",
            names: "baab",
            limits: (64, 1000, 2),
            answer: Ok("x\ny|||x\ny|"),
            ..free
        },
        Row {
            limits: (64, 1000, 4),
            ..free
        },
        // the third and the fourth line that aren't skipped stand in the second log
        Row {
            limits: (64, 1000, 3),
            answer: passed(2, 4, LimitName::Events, 3),
            ..free
        },
        Row {
            limits: (64, 1000, 0),
            answer: passed(1, 1, LimitName::Events, 0),
            ..free
        },
        // a line with its line feed has no more bytes than the limit
        Row {
            first: "abc\n",
            second: "a\nabcd\n",
            limits: (4, 1000, 100),
            answer: passed(2, 2, LimitName::Line, 4),
            ..free
        },
        // the limit on bytes is asked for each log
        Row {
            first: "abc\n",
            second: "ab\ncd\n",
            limits: (64, 4, 100),
            answer: passed(2, 2, LimitName::Bytes, 4),
            ..free
        },
        Row {
            names: "ac",
            answer: Err(LogsUnread::Fault),
            ..free
        },
        // nothing is opened behind a log that passes a limit
        Row {
            names: "ac",
            limits: (64, 1000, 1),
            answer: passed(1, 2, LimitName::Events, 1),
            ..free
        },
        Row {
            failing: &[2],
            answer: Err(LogsUnread::Fault),
            ..free
        },
    ];
    for row in rows {
        for piece in [1, 7, 64] {
            assert!(rt; is_so(&rt, alloc, &row, piece));
        }
    }
}
