//! Lines of reads and writes, with what each says.

use crate::{MemLine, read_memory_line};
use rd_event::{LineEvent, LineRefused};
use std::alloc::Global;

// The keyword of a line, and its words.
fn words(line: &MemLine) -> (&str, &[u8], &[u8]) {
    match line {
        MemLine::Header => ("rdmem", b"1", b""),
        MemLine::Thread(name) => ("thread", name.items(), b""),
        MemLine::Event(LineEvent::Fork { thread, child }) => {
            ("fork", thread.items(), child.items())
        }
        MemLine::Event(LineEvent::Join { thread, child }) => {
            ("join", thread.items(), child.items())
        }
        MemLine::Event(LineEvent::Acquire { thread, lock }) => {
            ("acquire", thread.items(), lock.items())
        }
        MemLine::Event(LineEvent::Release { thread, lock }) => {
            ("release", thread.items(), lock.items())
        }
        MemLine::Access {
            thread,
            variable,
            write: false,
        } => ("read", thread.items(), variable.items()),
        MemLine::Access {
            thread,
            variable,
            write: true,
        } => ("write", thread.items(), variable.items()),
        _ => ("", b"", b""),
    }
}

// Is the text read as what its words say?
fn says_its_words(alloc: Global, text: &str) -> bool {
    let Ok(line) = read_memory_line(alloc, text.as_bytes()) else {
        return false;
    };
    let (keyword, first, second) = words(&line);
    let (wanted, rest) = text.split_once(' ').unwrap_or((text, ""));
    let (wanted_first, wanted_second) = rest.split_once(' ').unwrap_or((rest, ""));
    keyword == wanted && first == wanted_first.as_bytes() && second == wanted_second.as_bytes()
}

// Is the text read as a line that is skipped?
fn is_skipped(alloc: Global, text: &str) -> bool {
    matches!(read_memory_line(alloc, text.as_bytes()), Ok(MemLine::Skip))
}

// Is the text refused?
fn is_refused(alloc: Global, text: &str) -> bool {
    matches!(
        read_memory_line(alloc, text.as_bytes()),
        Err(LineRefused::BadLine)
    )
}

// Lines that are a keyword and one word or two, with `|` between them.
const LINES: &str = "\
    rdmem 1|\
    thread main|\
    fork main worker|\
    join main worker|\
    acquire main l$1|\
    release main l$1|\
    read main x|\
    write main x|\
    read read write|\
    write # thread";

/// Each sort of line is read as what it says.
#[test]
fn lines(rt: HostRuntime) {
    let alloc = rt.alloc();
    assert!(rt; is_skipped(alloc, "") && is_skipped(alloc, "# read main x"));
    for text in LINES.split('|') {
        assert!(rt; says_its_words(alloc, text));
    }
}

// Texts that are no line, with `|` between them: other headers, lines of a trace that say nothing here, words too few, too many or
// apart in another way, and bytes that no name has.
const NO_LINES: &str = "\
    rdtrace 1|rdtrace 2|rdmem 2|rdmem 1 |rdmem| rdmem 1|\
    object x dictionary|call main x read -> nil|call main x put 1 -> nil|share main l|unshare main l|\
    read|read |read main|read main |read main x |read main x y|read  main x|write\tmain x|writes main x| write main x|\
    thread|thread |thread main x|fork main|acquire main|\
    write main x=1|read ma/in x";

/// Other bytes are no line.
#[test]
fn no_lines(rt: HostRuntime) {
    for text in NO_LINES.split('|') {
        assert!(rt; is_refused(rt.alloc(), text));
    }
}
