//! Lines, fronts and bytes of inputs, and sinks.
ghost use Rattle.std.specs.Prelude.{◌≡◌, ◌≤◌, None};
ghost use Rattle.rd_base.specs.Limits.{AreUsable};

use rd_base::{Bytes, Limits, Word};
use rd_io::{
    Failed, FrontRefused, Inputs, LineReader, MemoryInputs, MemorySink, Next, ReadEnd, Sink,
    WriteFault, read_front, write_all,
};
use std::alloc::Global;
use std::process::Abort;

fn limits(line: u32, bytes: u64) -> Limits
    requires line { 1 ≤ line }
    requires bytes { bytes ≤ 18446744073709551614 }
    ensures { AreUsable result }
{
    Limits {
        line,
        bytes,
        ..Limits::standard()
    }
}

/// Inputs whose one file was opened, which is their first call.
fn opened(rt: &impl Abort, alloc: Global, text: &[u8], piece: u32, failing: &[u32]) -> MemoryInputs
    requires { 1 ≤ piece }
{
    let name = Word::from_bytes(alloc, b"trace").expect(rt, "memory");
    let mut inputs = MemoryInputs::new(alloc, failing).expect(rt, "memory");
    inputs.add(&name, text, piece).expect(rt, "memory");
    let _ = inputs.open(&name);
    inputs
}

/// A reader with these limits on a line and on all bytes.
fn reader(rt: &impl Abort, alloc: Global, line: u32, bytes: u64) -> LineReader {
    assert!(rt; line >= 1 && bytes < u64::MAX);
    LineReader::new(alloc, &limits(line, bytes)).expect(rt, "memory")
}

/// A text, the limits on a line and on all bytes, how many lines it has, and how they end, with the number and the line
/// then.
#[derive(Clone, Copy)]
struct Case<'a> {
    text: &'a str,
    line: u32,
    bytes: u64,
    lines: u64,
    end: Result<Next, ReadEnd>,
    number: u64,
    last: &'a str,
}

/// Is this the next answer, and does the reader hold this after it?
fn answers(
    reader: &mut LineReader,
    inputs: &mut MemoryInputs,
    answer: Result<Next, ReadEnd>,
    line: &str,
    number: u64,
) -> bool {
    reader.next(inputs) == answer && reader.line() == line.as_bytes() && reader.number() == number
}

/// Is the text read as told, in pieces of so many bytes?
fn is_read(rt: &impl Abort, alloc: Global, case: &Case, piece: u32) -> bool
    requires { 1 ≤ piece }
{
    let mut inputs = opened(rt, alloc, case.text.as_bytes(), piece, &[]);
    let mut reader = reader(rt, alloc, case.line, case.bytes);
    let mut told = reader.number() == 0 && reader.line().is_empty();
    let mut number = 0;
    for line in case.text.split('\n') {
        if number >= case.lines {
            break;
        }
        number += 1;
        told = answers(&mut reader, &mut inputs, Ok(Next::Line), line, number) && told;
    }
    for _ in 0..3 {
        told = answers(&mut reader, &mut inputs, case.end, case.last, case.number) && told;
    }
    told && number == case.lines
}

#[test]
fn lines_whatever_the_pieces(rt: HostRuntime) {
    let cases = [
        Case {
            text: "alpha\n\nbeta gamma\n",
            line: 20,
            bytes: 1000,
            lines: 3,
            end: Ok(Next::End),
            number: 3,
            last: "beta gamma",
        },
        Case {
            text: "",
            line: 20,
            bytes: 1000,
            lines: 0,
            end: Ok(Next::End),
            number: 0,
            last: "",
        },
        Case {
            text: "one\ntwo",
            line: 20,
            bytes: 1000,
            lines: 1,
            end: Err(ReadEnd::NoFinalNewline),
            number: 2,
            last: "two",
        },
        // A line with its line feed may have as many bytes as the limit, and no more.
        Case {
            text: "1234567\nab\n",
            line: 8,
            bytes: 1000,
            lines: 2,
            end: Ok(Next::End),
            number: 2,
            last: "ab",
        },
        Case {
            text: "ab\n12345678\n",
            line: 8,
            bytes: 1000,
            lines: 1,
            end: Err(ReadEnd::LineTooLong),
            number: 2,
            last: "ab",
        },
        // All bytes may be as many as the limit, and no more.
        Case {
            text: "ab\ncd\n",
            line: 8,
            bytes: 6,
            lines: 2,
            end: Ok(Next::End),
            number: 2,
            last: "cd",
        },
        Case {
            text: "ab\ncd\n",
            line: 8,
            bytes: 5,
            lines: 1,
            end: Err(ReadEnd::BytesLimit),
            number: 2,
            last: "ab",
        },
        // A line that is too long is so within the limit on bytes.
        Case {
            text: "abcdef\n",
            line: 4,
            bytes: 4,
            lines: 0,
            end: Err(ReadEnd::LineTooLong),
            number: 1,
            last: "",
        },
        Case {
            text: "abcdef\n",
            line: 4,
            bytes: 3,
            lines: 0,
            end: Err(ReadEnd::BytesLimit),
            number: 1,
            last: "",
        },
    ];
    for case in &cases {
        for piece in [1, 2, 7, 40] {
            assert!(rt;
                is_read(&rt, rt.alloc(), case, piece),
                "in pieces of {piece}"
            );
        }
    }
}

/// The number of the call of `next` in which this call of the input fails, up to the tenth.
fn faulting_call(
    rt: &impl Abort,
    alloc: Global,
    text: &[u8],
    line: u32,
    bytes: u64,
    failing: u32,
) -> Option<u32> {
    let mut inputs = opened(rt, alloc, text, 1000, &[failing]);
    let mut reader = reader(rt, alloc, line, bytes);
    (1..11).find(|_| reader.next(&mut inputs) == Err(ReadEnd::ReadFault))
}

/// Does a reader that ended so read nothing more?
fn is_still(
    rt: &impl Abort,
    alloc: Global,
    text: &[u8],
    bytes: u64,
    unused: u32,
    end: Result<Next, ReadEnd>,
) -> bool {
    let mut inputs = opened(rt, alloc, text, 40, &[unused]);
    let mut reader = reader(rt, alloc, 8, bytes);
    let mut answer = reader.next(&mut inputs);
    if answer == Ok(Next::Line) {
        answer = reader.next(&mut inputs);
    }
    let again = reader.next(&mut inputs);
    let last = reader.next(&mut inputs);
    answer == end && again == end && last == end && inputs.faults() == 0
}

/// After an answer that ends the lines no further call reads. The last call of the input that is made up to that answer,
/// and the next one, which a further read would be, are known; where the latter is to fail, no answer is a fault.
#[test]
fn an_ended_reader_reads_nothing(rt: HostRuntime) {
    let rows = [
        ("ab\n", 1000, 3, 4, Ok(Next::End)),
        ("ab", 1000, 3, 4, Err(ReadEnd::NoFinalNewline)),
        ("12345678\n", 1000, 2, 3, Err(ReadEnd::LineTooLong)),
        ("ab\ncd\n", 5, 2, 3, Err(ReadEnd::BytesLimit)),
    ];
    for (text, bytes, used, unused, end) in rows {
        assert!(rt; faulting_call(&rt, rt.alloc(), text.as_bytes(), 8, bytes, used).is_some());
        assert!(rt;
            is_still(&rt, rt.alloc(), text.as_bytes(), bytes, unused, end),
            "{text}"
        );
    }
}

/// The lines of a text of eleven bytes, behind the one that a fresh reader holds.
const LINES: [&[u8]; 5] = [b"", b"ab", b"cdef", b"", b"g"];

/// Does the next answer give the next line, or leave the last one?
fn holds_the_last(reader: &mut LineReader, inputs: &mut MemoryInputs) -> bool {
    let before = reader.number();
    let number = match reader.next(inputs) {
        Ok(Next::Line) => before.saturating_add(1),
        Ok(Next::End) | Err(ReadEnd::ReadFault) => before,
        Err(_) => return false,
    };
    reader.number() == number && LINES.get(number as usize) == Some(&reader.line())
}

/// Are the lines read by two bytes, where this call fails?
fn goes_on(rt: &impl Abort, alloc: Global, failing: u32) -> bool {
    let mut inputs = opened(rt, alloc, b"ab\ncdef\n\ng\n", 2, &[failing]);
    let mut reader = reader(rt, alloc, 100, 1000);
    let mut held = true;
    for _ in 0..6 {
        held = holds_the_last(&mut reader, &mut inputs) && held;
    }
    let faults = if failing < 9 { 1 } else { 0 };
    held && answers(&mut reader, &mut inputs, Ok(Next::End), "g", 4) && inputs.faults() == faults
}

/// The text has eleven bytes and is read by two, so its reads are the calls 2 to 8, and none is the ninth.
#[test]
fn reading_goes_on_after_a_fault(rt: HostRuntime) {
    for failing in 2..10 {
        assert!(rt;
            goes_on(&rt, rt.alloc(), failing),
            "where call {failing} fails"
        );
    }
}

/// With at most 4 bytes in a line each read is handed 4 bytes less those that are held, so it is known in which call
/// of `next` each read falls.
#[test]
fn each_read_is_handed_all_the_free_room(rt: HostRuntime) {
    let rows = [
        (
            b"abc\ndef\nghi\n".as_slice(),
            1000,
            [Some(1), Some(2), Some(3), Some(4)],
        ),
        (b"a\nbc\nd\n", 1000, [Some(1), Some(2), Some(3), Some(4)]),
        (b"\n\n\n\n\n", 1000, [Some(1), Some(5), Some(6), None]),
        (b"abcd\n", 1000, [Some(1), None, None, None]),
        (b"abc", 2, [Some(1), None, None, None]),
        (b"a\nb\nc", 3, [Some(1), None, None, None]),
    ];
    for (text, bytes, calls) in rows {
        for (index, call) in calls.iter().enumerate() {
            let failing = index as u32 + 2;
            assert!(rt; faulting_call(&rt, rt.alloc(), text, 4, bytes, failing) == *call);
        }
    }
}

/// A call of two inputs, with its answer, and what the room holds then.
#[derive(Clone, Copy)]
enum Step<'a> {
    OpenFirst(Result<(), Failed>),
    OpenSecond(Result<(), Failed>),
    ReadFour(Result<usize, Failed>, &'a [u8; 4]),
    ReadTwo(Result<usize, Failed>, &'a [u8; 2]),
}

/// The names of two inputs, and two rooms.
#[derive(Drop)]
struct Desk {
    first: Word,
    second: Word,
    four: [u8; 4],
    two: [u8; 2],
}

impl Desk {
    fn new(rt: &impl Abort, alloc: Global, first: &[u8], second: &[u8]) -> Desk
        ensures first { result.first ≡ first.now }
        ensures second { result.second ≡ second.now }
    {
        Desk {
            first: Word::from_bytes(alloc, first).expect(rt, "memory"),
            second: Word::from_bytes(alloc, second).expect(rt, "memory"),
            four: [0; 4],
            two: [0; 2],
        }
    }

    /// Has the step this answer?
    fn takes(&mut self, inputs: &mut MemoryInputs, step: Step) -> bool
        ensures files { inputs.new.files ≡ inputs.old.files }
        ensures second { self.new.second ≡ self.old.second }
    {
        match step {
            Step::OpenFirst(answer) => inputs.open(&self.first) == answer,
            Step::OpenSecond(answer) => inputs.open(&self.second) == answer,
            Step::ReadFour(answer, bytes) => {
                inputs.read(&mut self.four) == answer && self.four == *bytes
            }
            Step::ReadTwo(answer, bytes) => {
                inputs.read(&mut self.two) == answer && self.two == *bytes
            }
        }
    }
}

/// Opening and reading are counted together, and a file that is opened again is read from its front.
#[test]
fn inputs_in_memory(rt: HostRuntime) {
    let mut desk = Desk::new(&rt, rt.alloc(), b"first", b"second");
    let mut inputs = MemoryInputs::new(rt.alloc(), &[3, 5]).expect(&rt, "memory");
    inputs.add(&desk.first, b"abcdefg", 3).expect(&rt, "memory");
    for step in [
        Step::ReadFour(Ok(0), b"\0\0\0\0"),
        Step::OpenFirst(Ok(())),
        Step::ReadFour(Err(Failed), b"\0\0\0\0"),
        Step::ReadFour(Ok(3), b"abc\0"),
        Step::OpenFirst(Err(Failed)),
        Step::OpenSecond(Err(Failed)),
    ] {
        assert!(rt; desk.takes(&mut inputs, step));
    }
    inputs.add(&desk.second, b"xy", 1).expect(&rt, "memory");
    for step in [
        Step::ReadTwo(Ok(2), b"de"),
        Step::ReadFour(Ok(2), b"fgc\0"),
        Step::ReadFour(Ok(0), b"fgc\0"),
        Step::OpenFirst(Ok(())),
        Step::ReadFour(Ok(3), b"abc\0"),
        Step::OpenSecond(Ok(())),
        Step::ReadTwo(Ok(1), b"xe"),
        Step::ReadTwo(Ok(1), b"ye"),
        Step::ReadTwo(Ok(0), b"ye"),
    ] {
        assert!(rt; desk.takes(&mut inputs, step));
    }
    assert!(rt; inputs.faults() == 3);
}

/// Is the part taken whole, or nothing of it?
fn is_taken(sink: &mut MemorySink, part: &str) -> Option<bool> {
    match write_all(sink, part.as_bytes()) {
        Ok(()) => Some(true),
        Err(WriteFault { written: 0 }) => Some(false),
        Err(_) => None,
    }
}

#[test]
fn a_sink_in_memory_takes_whole_parts(rt: HostRuntime) {
    let mut sink = MemorySink::new(rt.alloc(), 6, &[2]).expect(&rt, "memory");
    let rows = [
        ("abc", true),
        ("d", false),
        ("defg", false),
        ("", true),
        ("def", true),
        ("g", false),
    ];
    for (part, taken) in rows {
        assert!(rt; is_taken(&mut sink, part) == Some(taken), "{part}");
    }
    assert!(rt; sink.written() == b"abcdef".as_slice() && sink.faults() == 3);
}

/// A sink that takes at most `width` bytes in each of so many writes, and then none.
#[derive(Drop)]
struct Narrow {
    bytes: Bytes,
    width: usize,
    writes: u32,
    faults: u64,
}

impl Sink for Narrow {
    ghost written = { λ _. None };

    ghost faults = { λ sink. sink.faults };

    ghost at_fault = { λ _. None };

    fn write(&mut self, part: &[u8]) -> Result<usize, Failed> {
        let width = if self.writes == 0 { 0 } else { self.width };
        let count = part.len().min(width);
        if count == 0 && !part.is_empty() {
            self.faults = self.faults.saturating_add(1);
            return Ok(0);
        }
        self.writes = self.writes.saturating_sub(1);
        if self.bytes.append(&part[..count]).is_err() {
            self.faults = self.faults.saturating_add(1);
            return Err(Failed);
        }
        Ok(count)
    }
}

/// Does a sink take this of a text, with this answer?
fn takes_a_front(
    alloc: Global,
    width: usize,
    writes: u32,
    front: &str,
    answer: Result<(), WriteFault>,
) -> bool {
    let mut sink = Narrow {
        bytes: Bytes::new(alloc),
        width,
        writes,
        faults: 0,
    };
    let faults = if answer == Ok(()) { 0 } else { 1 };
    write_all(&mut sink, b"abcdefg") == answer
        && sink.bytes.items() == front.as_bytes()
        && sink.faults == faults
}

#[test]
fn a_narrow_sink_takes_several_writes(rt: HostRuntime) {
    let rows = [
        (2, 4, "abcdefg", Ok(())),
        (2, 3, "abcdef", Err(WriteFault { written: 6 })),
        (2, 0, "", Err(WriteFault { written: 0 })),
        (0, 9, "", Err(WriteFault { written: 0 })),
    ];
    for (width, writes, front, answer) in rows {
        assert!(rt;
            takes_a_front(rt.alloc(), width, writes, front, answer),
            "{front}"
        );
    }
}

/// The first `most` bytes of a text are so many, and the others stand behind them.
fn gives_the_front(
    rt: &impl Abort,
    alloc: Global,
    text: &[u8],
    most: u32,
    count: usize,
    piece: u32,
) -> bool
    requires { 1 ≤ piece }
{
    let mut inputs = opened(rt, alloc, text, piece, &[]);
    let front = read_front(alloc, &mut inputs, most).expect(rt, "memory");
    let rest = read_front(alloc, &mut inputs, u32::MAX).expect(rt, "memory");
    front.items().len() == count && text.strip_prefix(front.items()) == Some(rest.items())
}

#[test]
fn the_first_bytes_or_all(rt: HostRuntime) {
    for (most, count) in [(0, 0), (1, 1), (9, 9), (10, 10), (11, 10), (u32::MAX, 10)] {
        for piece in [1, 3, 4096, 1_000_000] {
            let given = gives_the_front(&rt, rt.alloc(), b"0123456789", most, count, piece);
            assert!(rt; given, "{most} in pieces of {piece}");
        }
    }
}

/// A text longer than two pieces that are asked for, and not a whole number of them.
fn long_text(rt: &impl Abort, alloc: Global) -> Vec<u8> {
    let mut text = vec![in alloc; b'x'; 150_000].expect(rt, "memory");
    text[65_535] = b'a';
    text[65_536] = b'b';
    text[149_999] = b'c';
    text
}

#[test]
fn a_long_input(rt: HostRuntime) {
    let text = long_text(&rt, rt.alloc());
    for (most, count) in [(149_999, 149_999), (150_000, 150_000), (150_001, 150_000)] {
        for piece in [1, 3, 4096, 1_000_000] {
            let given = gives_the_front(&rt, rt.alloc(), &text, most, count, piece);
            assert!(rt; given, "{most} in pieces of {piece}");
        }
    }
}

/// Does the front fail, where this call does, exactly if it is so told?
fn fails_as_told(rt: &impl Abort, alloc: Global, failing: u32, told: bool) -> bool {
    let mut inputs = opened(rt, alloc, b"0123456789", 3, &[failing]);
    let fails = match read_front(alloc, &mut inputs, 100) {
        Ok(_) => false,
        Err(FrontRefused::Fault) => true,
        Err(FrontRefused::NoMemory) => return false,
    };
    fails == told && inputs.faults() == u64::from(told)
}

/// The first call opens the file; the reads take ten bytes by three, and one more finds the end.
#[test]
fn a_read_that_fails(rt: HostRuntime) {
    for failing in 2..9 {
        assert!(rt;
            fails_as_told(&rt, rt.alloc(), failing, failing <= 6),
            "{failing}"
        );
    }
}
