//! Lines one by one behind those before them, and the end.

use crate::rows::gives;
use rd_base::{Name, NoMemory};
use rd_reading::{Known, SpecLineRefused, finish, read_line};
use rd_samples::{push_cause, repeated};
use std::alloc::Global;
use std::process::Abort;

/// The first of the lines that is refused, with its number: they are numbered from `start`. Empty ones are skipped. The kind
/// `dict` is taken.
pub(crate) fn read(
    alloc: Global,
    known: &mut Known,
    text: &str,
    start: usize,
) -> Option<(usize, SpecLineRefused)> {
    let taken = [Name::from_bytes(b"dict").unwrap()];
    for (index, line) in text.split('\n').enumerate() {
        if line.is_empty() || line.len() > 10_000 {
            continue;
        }
        if let Err(refused) = read_line(alloc, &taken, known, line.as_bytes()) {
            return Some((start.wrapping_add(index), refused));
        }
    }
    None
}

// The place and the cause, behind where they are.
fn show(text: &mut String, refused: &SpecLineRefused) -> Result<(), NoMemory> {
    match refused {
        SpecLineRefused::Fault(fault) => push_cause(text, fault.place, &fault.cause),
        SpecLineRefused::NoMemory => Err(NoMemory),
    }
}

// How many kinds the lines say, or why their end is refused.
fn ending(alloc: Global, known: Known) -> Result<String, NoMemory> {
    let mut text = String::new(alloc);
    match finish(known) {
        Ok(spec) => write!(text, "{} kinds", spec.kinds().len())?,
        Err(refused) => {
            text.push_str("end ")?;
            show(&mut text, &refused)?;
        }
    }
    Ok(text)
}

fn refusal(alloc: Global, number: usize, refused: &SpecLineRefused) -> Result<String, NoMemory> {
    let mut text = format!(in alloc; "{number} ")?;
    show(&mut text, refused)?;
    Ok(text)
}

/// What reading the lines gives behind others. They are numbered from `start`.
pub(crate) fn answer(
    alloc: Global,
    first: &str,
    start: usize,
    text: &str,
) -> Result<String, NoMemory> {
    let mut known = Known::new(alloc);
    let mut refused = read(alloc, &mut known, first, 1);
    if refused.is_none() {
        refused = read(alloc, &mut known, text, start);
    }
    match refused {
        Some((number, refused)) => refusal(alloc, number, &refused),
        None => ending(alloc, known),
    }
}

/// Reads the rows' lines behind the first ones.
pub(crate) fn check_rows(
    rt: &impl Abort,
    alloc: Global,
    first: &str,
    start: usize,
    rows: &[(&str, &str)],
) {
    for (text, wanted) in rows {
        gives(
            rt,
            answer(alloc, first, start, text),
            wanted,
            text.as_bytes(),
        );
    }
}

const HEADERS: [(&str, &str); 17] = [
    ("rdspec 1", "0 kinds"),
    ("  rdspec   1 ", "0 kinds"),
    ("", "end 0 Header"),
    ("  ", "1 0 Header"),
    ("rdspec", "1 0 Header"),
    ("rdspec 2", "0 kinds"),
    (" rdspec  2", "0 kinds"),
    ("rdspec 3", "1 0 Header"),
    ("rdspec 01", "1 0 Header"),
    ("rdspec1", "1 0 Header"),
    ("RDSPEC 1", "1 0 Header"),
    ("rdspec\"1\"", "1 0 Header"),
    ("rdspec 1 1", "1 0 Header"),
    ("rdspec 1 \x01", "1 0 Header"),
    ("rdspec\t1", "1 0 Header"),
    ("kind set", "1 0 Header"),
    ("commute m m when true", "1 0 Header"),
];

// Behind the header.
const OUTSIDE: [(&str, &str); 17] = [
    ("rdspec 1", "2 1 Syntax"),
    ("  foo", "2 3 Syntax"),
    ("kind", "2 5 Syntax"),
    ("kind  ", "2 7 Syntax"),
    ("kind a b", "2 8 Syntax"),
    ("kind \"a\"", "2 6 Syntax"),
    ("kind\ta", "2 5 Syntax"),
    ("kind a\t", "2 7 Syntax"),
    ("method", "2 1 Syntax"),
    ("method m", "2 1 Syntax"),
    ("method m x", "2 1 Syntax"),
    ("method m ->", "2 1 Syntax"),
    ("method m x x -> r s", "2 1 Syntax"),
    ("method m 1 -> r", "2 1 Syntax"),
    ("method m x -> nil", "2 1 Syntax"),
    ("commute m m when", "2 1 Syntax"),
    ("commute m m if true", "2 1 Syntax"),
];

// In a kind.
const INSIDE: [(&str, &str); 17] = [
    ("rdspec 1", "3 1 Syntax"),
    ("  foo", "3 3 Syntax"),
    ("kind", "3 5 Syntax"),
    ("kind  ", "3 7 Syntax"),
    ("kind a b", "3 8 Syntax"),
    ("kind \"a\"", "3 6 Syntax"),
    ("kind\ta", "3 5 Syntax"),
    ("kind a\t", "3 7 Syntax"),
    ("method", "3 7 Syntax"),
    ("method m", "3 9 Syntax"),
    ("method m x", "3 11 Syntax"),
    ("method m ->", "3 12 Syntax"),
    ("method m x x -> r s", "3 19 Syntax"),
    ("method m 1 -> r", "3 10 Syntax"),
    ("method m x -> nil", "3 15 Syntax"),
    ("commute m m when", "3 17 Syntax"),
    ("commute m m if true", "3 13 Syntax"),
];

const KINDS: [(&str, &str); 13] = [
    ("kind a\n\n", "1 kinds"),
    ("kind a\nkind b\nkind A", "3 kinds"),
    ("kind dicts\nkind dic\n", "2 kinds"),
    ("kind a\nkind a\n", "3 6 Duplicate"),
    ("kind a\nkind b\n kind  a", "4 8 Duplicate"),
    ("kind dict\n\n", "2 6 KindTaken"),
    ("kind a\nkind dict\n", "3 6 KindTaken"),
    ("kind a\nmethod m -> r\n", "end 0 MissingPair m m"),
    ("kind a\nmethod m -> r\nkind b", "4 0 MissingPair m m"),
    ("kind a\nmethod m -> r\nkind dict", "4 0 MissingPair m m"),
    ("kind a\nmethod m -> r\nkind a", "4 6 Duplicate"),
    ("kind a\nmethod m -> r\nkind a b", "4 8 Syntax"),
    (
        "kind a\nmethod m -> r\nmethod n x -> r",
        "end 0 MissingPair m m",
    ),
];

// Behind the method `get`, which is the first that lacks its pair.
const METHODS: [(&str, &str); 19] = [
    ("method m -> r", "end 0 MissingPair get get"),
    ("method m m -> r", "end 0 MissingPair get get"),
    ("method m get -> set", "end 0 MissingPair get get"),
    ("method m a b c d e f -> r", "end 0 MissingPair get get"),
    ("method get -> r", "4 8 Duplicate"),
    (" method  get x -> r", "4 10 Duplicate"),
    ("method get x x -> r", "4 8 Duplicate"),
    ("method get a b c d e f g -> r", "4 8 Duplicate"),
    ("method m x x -> r", "4 12 Duplicate"),
    ("method m x  x -> r", "4 13 Duplicate"),
    ("method m x y y x -> r", "4 14 Duplicate"),
    ("method m x y x y -> r", "4 14 Duplicate"),
    ("method m x -> x", "4 15 Duplicate"),
    ("method m x y -> x", "4 17 Duplicate"),
    ("method m x y x -> y", "4 14 Duplicate"),
    ("method m a b c d e f g -> r", "4 22 Limit(Arguments, 6)"),
    ("method m a b c d e f g h -> r", "4 22 Limit(Arguments, 6)"),
    ("method m a b c d e f g a -> r", "4 24 Duplicate"),
    ("method m a b c d e f g -> g", "4 27 Duplicate"),
];

#[test]
fn lines_behind_others(rt: HostRuntime) {
    check_rows(&rt, rt.alloc(), "", 1, &HEADERS);
    check_rows(&rt, rt.alloc(), "rdspec 1", 2, &OUTSIDE);
    check_rows(&rt, rt.alloc(), "rdspec 1\nkind set", 3, &INSIDE);
    check_rows(&rt, rt.alloc(), "rdspec 1", 2, &KINDS);
    let method = "rdspec 1\nkind set\nmethod get k -> v";
    check_rows(&rt, rt.alloc(), method, 4, &METHODS);
}

// Lines that are numbered from 0.
#[derive(Clone, Copy)]
enum Lines {
    Kinds,
    Methods,
}

// So many of them, and one more.
const COUNTS: [(Lines, u32, &str, &str); 13] = [
    (Lines::Kinds, 31, "kind k31", "32 kinds"),
    (Lines::Kinds, 32, "", "32 kinds"),
    (Lines::Kinds, 32, "kind k32", "32 6 Limit(Kinds, 32)"),
    (Lines::Kinds, 32, "kind k31", "32 6 Duplicate"),
    (Lines::Kinds, 32, "kind dict", "32 6 KindTaken"),
    (Lines::Kinds, 33, "", "32 6 Limit(Kinds, 32)"),
    (Lines::Methods, 16, "", "end 0 MissingPair m0 m0"),
    (
        Lines::Methods,
        16,
        "method m16 -> r",
        "16 8 Limit(Methods, 16)",
    ),
    (
        Lines::Methods,
        16,
        "method m a b c d e f g -> r",
        "16 8 Limit(Methods, 16)",
    ),
    (Lines::Methods, 16, "method m0 -> r", "16 8 Duplicate"),
    (Lines::Methods, 16, "method m x x -> r", "16 12 Duplicate"),
    (Lines::Methods, 16, "kind b", "16 0 MissingPair m0 m0"),
    (Lines::Methods, 17, "", "16 8 Limit(Methods, 16)"),
];

fn numbered(alloc: Global, lines: Lines, count: u32, last: &str) -> Result<String, NoMemory> {
    let (front, behind) = match lines {
        Lines::Kinds => ("kind k", ""),
        Lines::Methods => ("method m", " -> r"),
    };
    let mut text = String::new(alloc);
    for number in 0..count {
        write!(text, "{front}{number}{behind}\n")?;
    }
    text.push_str(last)?;
    Ok(text)
}

fn answer_behind(alloc: Global, lines: Lines, count: u32, last: &str) -> Result<String, NoMemory> {
    let first = match lines {
        Lines::Kinds => "rdspec 1",
        Lines::Methods => "rdspec 1\nkind set",
    };
    let text = numbered(alloc, lines, count, last)?;
    answer(alloc, first, 0, text.as_str())
}

fn check_counts(rt: &impl Abort, alloc: Global, rows: &[(Lines, u32, &str, &str)]) {
    for (lines, count, last, wanted) in rows {
        let found = answer_behind(alloc, *lines, *count, last);
        gives(rt, found, wanted, last.as_bytes());
    }
}

#[test]
fn counts_of_kinds_and_methods(rt: HostRuntime) {
    check_counts(&rt, rt.alloc(), &COUNTS);
}

// So many tokens behind the `when`.
const LONG: [(&str, u32, &str); 6] = [
    ("commute m m when", 513, "2 13 Limit(Tokens, 512)"),
    ("commute ( m  when", 600, "2 14 Limit(Tokens, 512)"),
    ("commute m m when", 512, "2 1 Syntax"),
    ("commute m m if", 600, "2 1 Syntax"),
    ("commutes m m when", 600, "2 1 Syntax"),
    ("method m m when", 600, "2 1 Syntax"),
];

fn check_long(rt: &impl Abort, alloc: Global, rows: &[(&str, u32, &str)]) {
    for (front, count, wanted) in rows {
        let line = repeated(alloc, front, " (", *count, "").expect(rt, "memory");
        let found = answer(alloc, "rdspec 1", 2, line.as_str());
        gives(rt, found, wanted, front.as_bytes());
        let found = answer(alloc, "", 1, line.as_str());
        gives(rt, found, "1 0 Header", front.as_bytes());
    }
}

#[test]
fn counts_of_tokens(rt: HostRuntime) {
    check_long(&rt, rt.alloc(), &LONG);
}
