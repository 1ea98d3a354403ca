//! Lines with what they say, and events by numbers.
ghost use Rattle.rd_event.specs.Items.{IsSpellable};

use crate::rows::{Act, Wanted, are, event, slots};
use rd_base::{Slots, SpareList};
use rd_event::{
    Call, Event, Line, LineEvent, LineRefused, read_into, read_line, read_slots_in, spell,
};
use std::alloc::Global;
use std::process::Abort;

// The keyword of a line that is no call, and its words.
fn words(line: &Line) -> (&str, &[u8], &[u8]) {
    match line {
        Line::Header { version: 1 } => ("rdtrace", b"1", b""),
        Line::Header { version: 2 } => ("rdtrace", b"2", b""),
        Line::Thread(name) => ("thread", name.items(), b""),
        Line::Object { name, kind } => ("object", name.items(), kind.items()),
        Line::Event(LineEvent::Fork { thread, child }) => ("fork", thread.items(), child.items()),
        Line::Event(LineEvent::Join { thread, child }) => ("join", thread.items(), child.items()),
        Line::Event(LineEvent::Acquire { thread, lock }) => {
            ("acquire", thread.items(), lock.items())
        }
        Line::Event(LineEvent::Release { thread, lock }) => {
            ("release", thread.items(), lock.items())
        }
        Line::Event(LineEvent::Share { thread, lock }) => ("share", thread.items(), lock.items()),
        Line::Event(LineEvent::Unshare { thread, lock }) => {
            ("unshare", thread.items(), lock.items())
        }
        _ => ("", b"", b""),
    }
}

// Is the line what the words of the text say?
fn says_its_words(line: &Line, text: &str) -> bool {
    let (keyword, first, second) = words(line);
    let (wanted, rest) = text.split_once(' ').unwrap_or((text, ""));
    let (wanted_first, wanted_second) = rest.split_once(' ').unwrap_or((rest, ""));
    keyword == wanted && first == wanted_first.as_bytes() && second == wanted_second.as_bytes()
}

// Is the line spelled so?
fn is_spelled(rt: &impl Abort, alloc: Global, line: &Line, wanted: &str) -> bool
    requires { IsSpellable line.now }
{
    let spelled = spell(alloc, line).expect(rt, "memory");
    spelled.items() == wanted.as_bytes()
}

// Is the line a call with these names and slots?
fn is_call(line: &Line, names: [&str; 3], wanted: &[Wanted]) -> bool {
    match line {
        Line::Event(
            LineEvent::Call {
                thread,
                object,
                method,
                slots,
            },
        ) => {
            thread.items() == names[0].as_bytes()
                && object.items() == names[1].as_bytes()
                && method.items() == names[2].as_bytes()
                && are(wanted, slots.items())
        }
        _ => false,
    }
}

/// What a text is read as.
#[derive(Clone, Copy)]
enum Read<'a> {
    /// no line
    Refused,
    /// a line without an item
    Skipped,
    /// a line that is what its words say
    ItsWords,
    /// a line that is spelled as the text is
    SpelledAsItIs,
    /// a line that is spelled so
    Spelled(&'a str),
    /// a call with these names of a thread, an object and a method, and with these slots
    Call(&'a str, &'a str, &'a str, &'a [Wanted<'a>]),
}

// Is the line of the text this?
fn is_this(rt: &impl Abort, alloc: Global, line: &Line, text: &str, wanted: Read) -> bool
    requires { IsSpellable line.now }
{
    match wanted {
        Read::Refused => false,
        Read::Skipped => matches!(line, Line::Skip),
        Read::ItsWords => says_its_words(line, text),
        Read::SpelledAsItIs => is_spelled(rt, alloc, line, text),
        Read::Spelled(spelling) => is_spelled(rt, alloc, line, spelling),
        Read::Call(thread, object, method, slots) => {
            is_call(line, [thread, object, method], slots)
        }
    }
}

// Is the text read in a version as this?
fn is_read(rt: &impl Abort, alloc: Global, version: u8, text: &str, wanted: Read) -> bool {
    match &read_line(alloc, text.as_bytes(), version) {
        Ok(line) => is_this(rt, alloc, line, text, wanted),
        Err(LineRefused::BadLine) => matches!(wanted, Read::Refused),
        Err(_) => false,
    }
}

// Each of the texts, which have `|` between them, is read in a version as this.
fn are_read(rt: &impl Abort, alloc: Global, version: u8, texts: &str, wanted: Read) {
    for text in texts.split('|') {
        assert!(rt;
            is_read(rt, alloc, version, text, wanted),
            "in version {version} at {text:?}"
        );
    }
}

// Lines that are a keyword and one word or two, with `|` between them. The last name has 64 bytes.
const ITEMS: &str = "\
    rdtrace 1|rdtrace 2|thread p|thread java.util.HashMap@1f2|object o register|fork a b|join a b|\
    acquire p l|release p l|\
    thread aaaaaaaaaaaaaaaaaaaaaaaaaaaaaaaaaaaaaaaaaaaaaaaaaaaaaaaaaaaaaaaa";

// Version 0 stands for the lines before the header.
#[test]
fn reads_each_item(rt: HostRuntime) {
    for version in 0..=2 {
        are_read(&rt, rt.alloc(), version, ITEMS, Read::ItsWords);
    }
}

// Lines of version 2 alone, with `|` between them.
const SHARES: &str = "share p l|unshare p l|share java.util.HashMap@1f2 l";

#[test]
fn reads_shares_in_version_two_alone(rt: HostRuntime) {
    are_read(&rt, rt.alloc(), 2, SHARES, Read::ItsWords);
    are_read(&rt, rt.alloc(), 0, SHARES, Read::Refused);
    are_read(&rt, rt.alloc(), 1, SHARES, Read::Refused);
}

#[test]
fn reads_lines_without_an_item(rt: HostRuntime) {
    // the first is the empty line
    let texts = "|#|#anything|# fork a b";
    are_read(&rt, rt.alloc(), 1, texts, Read::Skipped);
}

// Is the text read into the line as it is read anew?
fn is_read_into(rt: &impl Abort, alloc: Global, text: &str, line: &mut Line) -> bool {
    read_into(alloc, text.as_bytes(), 2, line).expect(rt, "a line");
    *line == read_line(alloc, text.as_bytes(), 2).expect(rt, "a line")
}

// The lines that are read one after another.
const KEPT: &str = "\
    thread p|call p x put \"a\" -> nil|fork p q|# a comment|object o register|rdtrace 1|\
    call p x read -> \"b\"|join p q|acquire p l|release p l|share p l|unshare p l";

#[test]
fn reads_into_a_line_that_is_kept(rt: HostRuntime) {
    let mut line = Line::Skip;
    for text in KEPT.split('|') {
        assert!(rt; is_read_into(&rt, rt.alloc(), text, &mut line), "at {text}");
    }
    let refused = read_into(rt.alloc(), b"fork p", 2, &mut line);
    assert!(rt; refused == Err(LineRefused::BadLine));
}

// Texts that are no line, with `|` between them. The last name has 65 bytes.
const NO_ITEMS: &str = "\
    rdtrace 0|rdtrace 3|rdtrace 12|rdtrace 01|rdtrace 02|rdtrace  1|rdtrace 1 |rdtrace| thread p|thread p |thread|thread |\
    thread  p|thread a/b|thread a\0|thread p\n|Thread p|threads p|object o|objectx y|fork a|\
    fork a b c|fork a  b|fork a b\r|join  b|acquire|acquire p|acquire p l m|acquire  p l|\
    acquire p  l|acquire p l |acquires p l|Acquire p l|release|release p|release p l m|\
    release  p l|release p l |release p \"l\"|release p l/|releases p l|Release p l| # x| |\
    thread aaaaaaaaaaaaaaaaaaaaaaaaaaaaaaaaaaaaaaaaaaaaaaaaaaaaaaaaaaaaaaaaa";

#[test]
fn refuses_what_is_no_item(rt: HostRuntime) {
    are_read(&rt, rt.alloc(), 1, NO_ITEMS, Read::Refused);
    are_read(&rt, rt.alloc(), 2, NO_ITEMS, Read::Refused);
}

// Texts that are no line of version 2 either, with `|` between them.
const NO_SHARES: &str = "\
    share|share |share p|share p |share p l m|share  p l|share p  l|share p l |share p l/|\
    share p/ l|shares p l|Share p l|unshare|unshare p|unshare p l m|unshare  p l|unshare p l |\
    unshare p \"l\"|unshared p l|un share p l|Unshare p l|share\tp l";

#[test]
fn refuses_what_is_no_share(rt: HostRuntime) {
    are_read(&rt, rt.alloc(), 2, NO_SHARES, Read::Refused);
}

/// The text of a call, its thread, object and method, and its slots.
type CallRow = (&'static str, [&'static str; 3], &'static [Wanted<'static>]);

const CALLS: [CallRow; 8] = [
    (
        "call a x write 7 -> nil",
        ["a", "x", "write"],
        &[Wanted::Int(7), Wanted::Nil],
    ),
    (
        "call main x read -> 7",
        ["main", "x", "read"],
        &[Wanted::Int(7)],
    ),
    (
        "call a d put \"k -> \\\"x\" 1 -> nil",
        ["a", "d", "put"],
        &[Wanted::Text(b"k -> \"x"), Wanted::Int(1), Wanted::Nil],
    ),
    (
        "call a d get \"\\\\\" -> \" \\x0a -> \"",
        ["a", "d", "get"],
        &[Wanted::Text(b"\\"), Wanted::Text(b" \n -> ")],
    ),
    (
        "call a d put \"ab\\x1f\" \"\\x7f\" -> \"ab\\\\\"",
        ["a", "d", "put"],
        &[
            Wanted::Text(b"ab\x1f"),
            Wanted::Text(b"\x7f"),
            Wanted::Text(b"ab\\"),
        ],
    ),
    (
        "call a d put 999999999999999999 1000000000000000000 -> -999999999999999999",
        ["a", "d", "put"],
        &[
            Wanted::Int(999_999_999_999_999_999),
            Wanted::Int(1_000_000_000_000_000_000),
            Wanted::Int(-999_999_999_999_999_999),
        ],
    ),
    (
        "call a d put 9223372036854775807 -> -9223372036854775808",
        ["a", "d", "put"],
        &[Wanted::Int(i64::MAX), Wanted::Int(i64::MIN)],
    ),
    (
        "call - - - nil true false 0 -1 \"\" -> \"->\"",
        ["-", "-", "-"],
        &[
            Wanted::Nil,
            Wanted::Bool(true),
            Wanted::Bool(false),
            Wanted::Int(0),
            Wanted::Int(-1),
            Wanted::Text(b""),
            Wanted::Text(b"->"),
        ],
    ),
];

#[test]
fn reads_each_call(rt: HostRuntime) {
    for (text, names, slots) in &CALLS {
        let wanted = Read::Call(names[0], names[1], names[2], slots);
        assert!(rt; is_read(&rt, rt.alloc(), 1, text, wanted), "at {text}");
    }
}

// Are the values of the call read as they are, in the memory of the last?
fn are_read_in(
    rt: &impl Abort,
    alloc: Global,
    text: &str,
    wanted: &[Wanted],
    spare: &mut SpareList,
) -> Slots {
    let read = read_slots_in(alloc, behind_names(rt, text), spare).expect(rt, "values");
    assert!(rt; are(wanted, read.items()), "at {text}");
    read
}

// What stands behind the three names of a call.
fn behind_names<'a>(rt: &impl Abort, text: &'a str) -> &'a [u8] {
    let mut rest = text.as_bytes();
    for _ in 0..4 {
        let space = rest.iter().position(|byte| *byte == b' ');
        rest = &rest[space.expect(rt, "a space") + 1..];
    }
    rest
}

#[test]
fn reads_calls_in_the_memory_of_the_last(rt: HostRuntime) {
    let mut spare = SpareList::new(rt.alloc());
    for (text, _, wanted) in &CALLS {
        let kept = are_read_in(&rt, rt.alloc(), text, wanted, &mut spare);
        for (other, _, values) in &CALLS {
            are_read_in(&rt, rt.alloc(), other, values, &mut spare);
        }
        assert!(rt; are(wanted, kept.items()), "at {text}");
    }
}

// Are values that a copy shares left as they are?
fn are_left(rt: &impl Abort, alloc: Global, kept: &mut Slots, others: &Slots) -> bool {
    let copy = kept.copy(alloc).expect(rt, "memory");
    !kept.assign(others).expect(rt, "memory") && copy == *kept
}

// Are the values of a call written over those of the one before, where neither are more than three?
fn are_written_over(rt: &impl Abort, kept: &mut Slots, others: &Slots) -> bool {
    let few = kept.items().len() <= 3 && others.items().len() <= 3;
    let done = kept.assign(others).expect(rt, "memory");
    done == few && (!done || *kept == *others)
}

#[test]
fn writes_values_over_others(rt: HostRuntime) {
    let mut kept = slots(&rt, rt.alloc(), &[Wanted::Nil]);
    for (text, _, wanted) in &CALLS {
        let others = slots(&rt, rt.alloc(), wanted);
        assert!(rt; are_left(&rt, rt.alloc(), &mut kept, &others), "at {text}");
        assert!(rt; are_written_over(&rt, &mut kept, &others), "at {text}");
        kept = others;
    }
}

// Texts that are no call.
const NO_CALLS: &str = "\
    call|call |call p|call p x|call p x read|call p x read |call p x write 07 -> nil|\
    call p x  read -> nil|call p  x read -> nil|call  p x read -> nil|call p x read  -> nil|\
    call p x read ->  nil|call p x read ->|call p x read -> |call p x -> nil|\
    call p x read nil|call p x read nil->nil|call p x read - > nil|call p x read -> nil |\
    call p x read -> nil\n|call p x read -> nil nil|call p x read -> -> nil|\
    call p x read 1 -> 2 -> 3|call p x put 1 2 3 4 5 6 7 -> nil|call p x write -0 -> nil|\
    call p x write +1 -> nil|call p x write 9223372036854775808 -> nil|\
    call p x write \"a -> nil|call p x write a\" -> nil|call p x write \"a\"b -> nil|\
    call p x write \"a\" \" -> nil|call p x write \"\\x41\" -> nil|\
    call p x write \"\\\" -> nil|call p/ x read -> nil|call p x/ read -> nil|\
    call p x read/ -> nil|Call p x read -> nil|calls p x read -> nil|call p x write 1|\
    call p x write 1 |call p x write 1  -> nil|call p x write 00 -> nil|call p x write - -> nil|\
    call p x write 1x -> nil|call p x write nilx -> nil|call p x write tru -> nil|\
    call p x write falsehood -> nil|call p x write -9223372036854775809 -> nil|\
    call p x write 10000000000000000000 -> nil|call p x write 1000000000000000000x -> nil|\
    call p x write \"a\x1f\" -> nil|call p x write \"\x7f\" -> nil|call p x write \"ab\\\" -> nil|\
    call p x read -> nilx|call p x read -> true |call p x read -> 07|call p x read -> -0|\
    call p x read -> 1 |call p x read -> 1 2|call p x read -> \"a\"b|call p x read -> \"a\" |\
    call p x read -> \"a\" \"b\"|call p x read -> \"a";

#[test]
fn refuses_what_is_no_call(rt: HostRuntime) {
    are_read(&rt, rt.alloc(), 1, NO_CALLS, Read::Refused);
}

// A call with the text, of bytes that are spelled as they are, as its argument and as its result.
fn echo(rt: &impl Abort, alloc: Global, text: &str) -> String {
    let mut line = String::new(alloc);
    write!(line, "call p x echo \"{text}\" -> \"{text}\"").expect(rt, "memory");
    line
}

// Is such a call read as it is where the text fits, and refused elsewhere?
fn is_echo_read(rt: &impl Abort, alloc: Global, text: &str, fits: bool) -> bool {
    let line = echo(rt, alloc, text);
    let slots = [Wanted::Text(text.as_bytes()); 2];
    let echoed = Read::Call("p", "x", "echo", &slots);
    let is_echoed = is_read(rt, alloc, 1, line.as_str(), echoed);
    let is_refused = is_read(rt, alloc, 1, line.as_str(), Read::Refused);
    is_echoed == fits && is_refused != fits
}

#[test]
fn reads_calls_with_texts_of_at_most_255_bytes(rt: HostRuntime) {
    let mut text = String::new(rt.alloc());
    for length in 0..=257 {
        let is_right = is_echo_read(&rt, rt.alloc(), text.as_str(), length <= 255);
        assert!(rt; is_right, "at {length}");
        text.push('b').expect(&rt, "memory");
    }
}

// Lines as they are spelled.
const SPELLED: &str = "\
    |rdtrace 1|rdtrace 2|thread java.util.HashMap@1f2|object o register|fork a b|join a b|\
    acquire p l|release p l|share p l|unshare p l|call a x write 7 -> nil|call main x read -> 7|\
    call a d put \"k -> \\\"x\" 1 -> nil|\
    call a d put -9223372036854775808 -> 9223372036854775807|\
    call a d put \"\\x00\\xff \\\\\" -> \"\"|call a d put 1 2 3 4 5 6 -> true|thread main|\
    object d dictionary|fork main a|fork main b|acquire a l|call a d put \"x\" 1 -> nil|\
    release a l|call b d put \"y\" 2 -> nil|join main a|join main b|call main d size -> 2|\
    call p x write 1 -> nil";

#[test]
fn spells_each_line_as_it_was(rt: HostRuntime) {
    are_read(&rt, rt.alloc(), 2, SPELLED, Read::SpelledAsItIs);
}

#[test]
fn spells_a_skipped_line_as_the_empty_line(rt: HostRuntime) {
    are_read(&rt, rt.alloc(), 2, "# a comment", Read::Spelled(""));
}

// Is a copy of the call equal, with these slots?
fn is_call_copied(rt: &impl Abort, alloc: Global, call: &Call, wanted: &[Wanted]) -> bool {
    let copy = call.copy(alloc).expect(rt, "memory");
    copy == *call && are(wanted, copy.slots.items())
}

// Is a copy of the event equal, and that of its call?
fn is_copied(rt: &impl Abort, alloc: Global, event: &Event, act: Act) -> bool {
    let copy = event.copy(alloc).expect(rt, "memory");
    copy == *event
        && match (event, act) {
            (Event::Call(call), Act::Call(_, _, _, wanted)) => {
                is_call_copied(rt, alloc, call, wanted)
            }
            _ => true,
        }
}

/// Threads with what they do.
const COPIED: [(u32, Act<'static>); 10] = [
    (
        1,
        Act::Call(2, 3, 4, &[Wanted::Text(b"k"), Wanted::Int(-5), Wanted::Nil]),
    ),
    (0, Act::Fork(1)),
    (1, Act::Acquire(0)),
    (
        1,
        Act::Call(0, 0, 0, &[Wanted::Text(b"x"), Wanted::Int(1), Wanted::Nil]),
    ),
    (1, Act::Release(0)),
    (1, Act::Share(0)),
    (1, Act::Unshare(0)),
    (
        2,
        Act::Call(0, 0, 0, &[Wanted::Text(b"y"), Wanted::Int(2), Wanted::Nil]),
    ),
    (0, Act::Join(1)),
    (0, Act::Call(0, 0, 3, &[Wanted::Int(2)])),
];

#[test]
fn copies_are_equal(rt: HostRuntime) {
    for (index, (thread, act)) in COPIED.iter().enumerate() {
        let event = event(&rt, rt.alloc(), *thread, *act);
        assert!(rt; is_copied(&rt, rt.alloc(), &event, *act), "at row {index}");
    }
}

// Are the events of a thread that does the one or the other unequal?
fn differ(rt: &impl Abort, alloc: Global, one: Act, other: Act) -> bool {
    event(rt, alloc, 1, one) != event(rt, alloc, 1, other)
}

#[test]
fn an_acquire_is_no_release(rt: HostRuntime) {
    assert!(rt; differ(&rt, rt.alloc(), Act::Acquire(0), Act::Release(0)));
}

#[test]
fn a_share_is_no_acquire(rt: HostRuntime) {
    assert!(rt; differ(&rt, rt.alloc(), Act::Share(0), Act::Acquire(0)));
    assert!(rt; differ(&rt, rt.alloc(), Act::Share(0), Act::Unshare(0)));
}
