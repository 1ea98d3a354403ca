//! Generated traces, line by line.
ghost use Rattle.std.specs.Prelude.{◌≤◌};

use rd_base::{Bytes, NoMemory};
use rd_event::{Line, spell};
use rd_gen::{Generator, calls_in, lines_in};
use std::alloc::Global;
use std::process::Abort;
use std::test::Fail;

// What stands in front of the calls of every trace.
const OPENING: &[u8] = b"rdtrace 1
thread main
object d dictionary
fork main w0
fork main w1
fork main w2
fork main w3
";

// A trace by its number and how many calls it has, and its lines behind the opening ones.
#[derive(Clone, Copy)]
struct Row {
    number: u64,
    count: u32,
    text: &'static [u8],
}

const WITHOUT_A_LOCK: Row = Row {
    number: 1,
    count: 4,
    text: b"call w2 d put 24 4 -> nil
call w1 d get 14 -> nil
call w2 d size -> 1
call w0 d size -> 1
join main w0
join main w1
join main w2
join main w3
call main d size -> 1
",
};

const PUTS_OF_OTHER_KEYS: Row = Row {
    number: 3,
    count: 4,
    text: b"call w1 d put 29 2 -> nil
call w1 d put 15 2 -> nil
call w3 d get 24 -> nil
call w2 d put 9 4 -> nil
join main w0
join main w1
join main w2
join main w3
call main d size -> 3
",
};

const NO_CALLS: Row = Row {
    number: 0,
    count: 0,
    text: b"join main w0
join main w1
join main w2
join main w3
call main d size -> 0
",
};

// An odd number.
const ONE_CALL_OF_THE_LARGEST_NUMBER: Row = Row {
    number: u64::MAX,
    count: 1,
    text: b"call w0 d size -> 0
join main w0
join main w1
join main w2
join main w3
call main d size -> 0
",
};

// The spellings of the lines of a trace with fewer than a hundred.
fn text_of(alloc: Global, number: u64, count: u32) -> Result<Bytes, NoMemory>
    requires { count ≤ 10 }
{
    let mut generator = Generator::new(alloc, number, count);
    let mut text = Bytes::new(alloc);
    let mut line = Line::Skip;
    for _ in 0..100 {
        if !generator.next_into(&mut line)? {
            break;
        }
        text.append(spell(alloc, &line)?.items())?;
        text.push(b'\n')?;
    }
    Ok(text)
}

fn assert_text(rt: &impl Abort, alloc: Global, row: Row)
    requires { row.count ≤ 10 }
{
    let text = text_of(alloc, row.number, row.count).expect(rt, "memory");
    assert!(rt; text.items().starts_with(OPENING));
    assert!(rt; text.items().ends_with(row.text));
    assert_eq!(rt; text.items().len(), OPENING.len() + row.text.len());
}

#[test]
fn the_lines_are_the_worked_ones(rt: HostRuntime) {
    for row in [
        WITHOUT_A_LOCK,
        PUTS_OF_OTHER_KEYS,
        NO_CALLS,
        ONE_CALL_OF_THE_LARGEST_NUMBER,
    ] {
        assert_text(&rt, rt.alloc(), row);
    }
}

#[test]
fn a_lock_has_two_lines_for_each_call(rt: HostRuntime) -> Result<(), Fail> {
    let mut generator = Generator::new(rt.alloc(), 2, 200);
    for _ in 0..612 {
        assert!(rt; generator.next_line()?.is_some());
    }
    assert!(rt; generator.next_line()?.is_none());
    Ok(())
}

#[test]
fn the_counts_are_those_of_the_whole_trace(rt: HostRuntime) {
    assert_eq!(rt; lines_in(2, 200), 612);
    assert_eq!(rt; calls_in(200), 201);
    assert_eq!(rt; lines_in(1, 10_000_000), 10_000_012);
    assert_eq!(rt; lines_in(2, 10_000_000), 30_000_012);
    assert_eq!(rt; calls_in(10_000_000), 10_000_001);
}

#[test]
fn behind_the_last_line_there_is_none(rt: HostRuntime) -> Result<(), Fail> {
    let mut generator = Generator::new(rt.alloc(), 0, 0);
    for _ in 0..12 {
        assert!(rt; generator.next_line()?.is_some());
    }
    for _ in 0..3 {
        assert!(rt; generator.next_line()?.is_none());
    }
    Ok(())
}
