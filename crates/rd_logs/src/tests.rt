//! Lines of logs, with what each says, and whole logs.

use crate::{LogLine, LogRefused, read_log, read_log_header, read_log_line};
use rd_base::Name;
use rd_event::{LineEvent, LineRefused};
use std::alloc::Global;
use std::process::Abort;

// The name with these bytes.
fn name(rt: &impl Abort, bytes: &[u8]) -> Name {
    Name::from_bytes(bytes).expect(rt, "a name")
}

// The keyword of a line, the names that it says beside its thread, and its number.
fn words(line: &LogLine) -> (&str, &[u8], &[u8], u32) {
    match line {
        LogLine::Object { name, kind } => ("object", name.items(), kind.items(), 0),
        LogLine::Acquire { lock, number } => ("acquire", lock.items(), b"", *number),
        LogLine::Event(LineEvent::Fork { child, .. }) => ("fork", child.items(), b"", 0),
        LogLine::Event(LineEvent::Join { child, .. }) => ("join", child.items(), b"", 0),
        LogLine::Event(LineEvent::Release { lock, .. }) => ("release", lock.items(), b"", 0),
        LogLine::Event(LineEvent::Call { object, method, .. }) => {
            ("call", object.items(), method.items(), 0)
        }
        _ => ("", b"", b"", 0),
    }
}

// Is the text a line of a's log that says these words?
fn says(
    rt: &impl Abort,
    alloc: Global,
    text: &str,
    keyword: &str,
    first: &str,
    second: &str,
    number: u32,
) -> bool {
    let Ok(line) = read_log_line(alloc, &name(rt, b"a"), text.as_bytes()) else {
        return false;
    };
    let said = words(&line);
    said.0 == keyword
        && said.1 == first.as_bytes()
        && said.2 == second.as_bytes()
        && said.3 == number
}

// Is the text refused, whatever thread the log is of?
fn is_refused(rt: &impl Abort, alloc: Global, text: &str) -> bool {
    matches!(
        read_log_line(alloc, &name(rt, b"a"), text.as_bytes()),
        Err(LineRefused::BadLine)
    )
}

/// Each sort of line is read as what it says, in the log of its thread.
#[test]
fn lines(rt: HostRuntime) {
    let alloc = rt.alloc();
    assert!(rt;
        says(
            &rt,
            alloc,
            "object x register",
            "object",
            "x",
            "register",
            0
        )
    );
    assert!(rt; says(&rt, alloc, "fork b", "fork", "b", "", 0));
    assert!(rt; says(&rt, alloc, "join b", "join", "b", "", 0));
    assert!(rt; says(&rt, alloc, "acquire l 1", "acquire", "l", "", 1));
    assert!(rt;
        says(
            &rt,
            alloc,
            "acquire l 4294967295",
            "acquire",
            "l",
            "",
            4294967295
        )
    );
    assert!(rt; says(&rt, alloc, "release l", "release", "l", "", 0));
    assert!(rt; says(&rt, alloc, "call x read -> 1", "call", "x", "read", 0));
    assert!(rt;
        says(
            &rt,
            alloc,
            "call x put \"k\" 2 -> nil",
            "call",
            "x",
            "put",
            0
        )
    );
}

// Does the event begin b by the thread with this name?
fn forks_b(event: &LineEvent, by: &[u8]) -> bool {
    match event {
        LineEvent::Fork { thread, child } => {
            thread.items() == by && child.items() == b"b".as_slice()
        }
        _ => false,
    }
}

// Does it acquire l by the thread with this name?
fn acquires_l(event: &LineEvent, by: &[u8]) -> bool {
    match event {
        LineEvent::Acquire { thread, lock } => {
            thread.items() == by && lock.items() == b"l".as_slice()
        }
        _ => false,
    }
}

/// An event is one of the thread whose log it stands in.
#[test]
fn thread(rt: HostRuntime) {
    let line = read_log_line(rt.alloc(), &name(&rt, b"main"), b"fork b").expect(&rt, "a line");
    match line {
        LogLine::Event(event) => assert!(rt; forks_b(&event, b"main")),
        _ => assert!(rt; false),
    }
}

/// Empty lines and comments are skipped.
#[test]
fn skipped(rt: HostRuntime) {
    let a = name(&rt, b"a");
    assert!(rt; matches!(read_log_line(rt.alloc(), &a, b""), Ok(LogLine::Skip)));
    assert!(rt;
        matches!(
            read_log_line(rt.alloc(), &a, b"# fork b"),
            Ok(LogLine::Skip)
        )
    );
}

// Texts that are no line, with `|` between them: a second header, lines of a trace that name the thread, numbers that are no acquire's, words too few, too
// many or apart in another way.
const NO_LINES: &str = "\
    rdlog 1 a|rdtrace 1|thread a|fork a b|acquire a l|release a l|share l|unshare l|\
    acquire l|acquire l 0|acquire l 01|acquire l 4294967296|acquire l 1 |acquire l -1|acquire l one|\
    fork|fork |fork b |join|release|object x|object x register now|\
    call|call x|call x read|call x read 1|call a x read -> 1 -> 2| fork b|fork  b|forks b";

/// Other bytes are no line.
#[test]
fn no_lines(rt: HostRuntime) {
    for text in NO_LINES.split('|') {
        assert!(rt; is_refused(&rt, rt.alloc(), text));
    }
}

// Does the text begin the log of the thread with this name; of none, where that is empty?
fn begins(text: &str, thread: &str) -> bool {
    match read_log_header(text.as_bytes()) {
        Some(name) => name.items() == thread.as_bytes(),
        None => thread.is_empty(),
    }
}

/// A header says whose log it begins.
#[test]
fn headers(rt: HostRuntime) {
    assert!(rt; begins("rdlog 1 main", "main"));
    assert!(rt; begins("rdlog 1", ""));
    assert!(rt; begins("rdlog 1 ", ""));
    assert!(rt; begins("rdlog 2 main", ""));
    assert!(rt; begins("rdlog 1 main now", ""));
    assert!(rt; begins("rdtrace 1", ""));
}

// A log with lines that are skipped in front of its header, between its lines and behind them.
const LOG: &str =
    "# one run\n\nrdlog 1 main\nobject x register\n# work\nfork b\n\nacquire l 2\n#\n";

/// A log says whose it is, what it declares, and its events in their order, of which an acquire has its number.
#[test]
fn logs(rt: HostRuntime) {
    let log = read_log(rt.alloc(), LOG.as_bytes())
        .ok()
        .expect(&rt, "a log");
    assert!(rt; log.thread.items() == b"main".as_slice());
    assert!(rt; log.objects.len() == 1 && log.objects[0].name.items() == b"x".as_slice());
    assert!(rt; log.objects[0].kind.items() == b"register".as_slice());
    assert!(rt; log.events.len() == 2);
    assert!(rt; forks_b(&log.events[0].event, b"main") && log.events[0].number == 0);
    assert!(rt; acquires_l(&log.events[1].event, b"main") && log.events[1].number == 2);
    let header = read_log(
        rt.alloc(),
        b"rdlog 1 a
",
    )
    .ok()
    .expect(&rt, "a log");
    assert!(rt; header.objects.is_empty() && header.events.is_empty());
}

// Is the text no log, with its first bad line at this number?
fn is_bad_at(alloc: Global, text: &str, number: u64) -> bool {
    match read_log(alloc, text.as_bytes()) {
        Ok(_) => false,
        Err(refused) => refused == LogRefused::BadLine(number),
    }
}

/// A text that is no log is bad at the line that should be its header, says nothing or has no line feed; with no header, behind its last line.
#[test]
fn no_logs(rt: HostRuntime) {
    let alloc = rt.alloc();
    assert!(rt; is_bad_at(alloc, "", 1));
    assert!(rt; is_bad_at(alloc, "\n# none\n", 3));
    assert!(rt; is_bad_at(alloc, "\n# none", 2));
    assert!(rt; is_bad_at(alloc, "fork b\nrdlog 1 a\n", 1));
    assert!(rt; is_bad_at(alloc, "#\nrdlog 2 a\nfork b\n", 2));
    assert!(rt; is_bad_at(alloc, "rdlog 1 a", 1));
    assert!(rt; is_bad_at(alloc, "rdlog 1 a\nfork b", 2));
    assert!(rt; is_bad_at(alloc, "rdlog 1 a\nfork b\n# end", 3));
    assert!(rt; is_bad_at(alloc, "rdlog 1 a\nfork b\nrdlog 1 a\n", 3));
    assert!(rt; is_bad_at(alloc, "rdlog 1 a\n\nforks b\nfork\n", 3));
}
