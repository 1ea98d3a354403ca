//! Texts of specifications with their refusals.

use crate::rows::gives;
use rd_base::{Bytes, Name, NoMemory};
use rd_samples::{push_cause, push_number, push_times, repeated};
use rd_spec::{ParseRefused, parse};
use std::alloc::Global;
use std::process::Abort;

// A kind with a method of an argument, whose one pair is missing.
const A_METHOD: &str = "rdspec 1\nkind k\nmethod m a -> r\n";

// A kind with two methods, whose pairs are missing.
const TWO_METHODS: &str =
    "rdspec 1\nkind d\nmethod put key value -> prev\nmethod get key -> value\n";

// The names that no kind of a text may have.
const RESERVED: [&[u8]; 8] = [
    b"register",
    b"counter",
    b"set",
    b"dictionary",
    b"bag",
    b"peak",
    b"queue",
    b"tally",
];

fn reserved(alloc: Global) -> Result<Vec<Name>, NoMemory> {
    let mut names = Vec::new(alloc);
    for bytes in RESERVED {
        if let Ok(name) = Name::from_bytes(bytes) {
            names.push(name)?;
        }
    }
    Ok(names)
}

// How many kinds a text says.
fn count(alloc: Global, text: &[u8]) -> Result<usize, ParseRefused> {
    let taken = reserved(alloc)?;
    let spec = parse(alloc, text, taken.as_slice())?;
    Ok(spec.kinds().len())
}

// How many kinds a text says, or its line, place and cause.
fn said(alloc: Global, text: &[u8]) -> Result<String, NoMemory> {
    let mut shown = String::new(alloc);
    match count(alloc, text) {
        Ok(count) => write!(shown, "ok {count}")?,
        Err(ParseRefused::Spec(refused)) => {
            push_number(&mut shown, "", refused.line, " ")?;
            push_cause(&mut shown, refused.place, &refused.cause)?;
        }
        Err(ParseRefused::NoMemory) => return Err(NoMemory),
    }
    Ok(shown)
}

fn answer(alloc: Global, front: &str, row: &[u8]) -> Result<String, NoMemory> {
    let mut text = Bytes::new(alloc);
    text.append(front.as_bytes())?;
    text.append(row)?;
    said(alloc, text.items())
}

// Each row, behind what stands before it.
fn check_rows(rt: &impl Abort, alloc: Global, front: &str, rows: &[(&[u8], &str)]) {
    for (row, wanted) in rows {
        gives(rt, answer(alloc, front, row), wanted, row);
    }
}

const HEADERS: [(&[u8], &str); 26] = [
    (b"", "1 0 Header"),
    (b"\n", "2 0 Header"),
    (b"\n\n", "3 0 Header"),
    (b"# a comment", "2 0 Header"),
    (b"   \n# a\n", "3 0 Header"),
    (b"rdspec 1", "ok 0"),
    (b"rdspec 1\n", "ok 0"),
    (b"  rdspec   1  \n", "ok 0"),
    (b"\n# before\n  \nrdspec 1\n", "ok 0"),
    (b"rdspec 2", "ok 0"),
    (b"rdspec 2\n", "ok 0"),
    (b"rdspec 3\n", "1 0 Header"),
    (b"rdspec 02\n", "1 0 Header"),
    (b"rdspec\n", "1 0 Header"),
    (b"rdspec 1 1\n", "1 0 Header"),
    (b"rdspec \"1\"\n", "1 0 Header"),
    (b"rdspec\"1\"\n", "1 0 Header"),
    (b"rdspec 1\r\n", "1 0 Header"),
    (b"rdspec\t1\n", "1 0 Header"),
    (b"Rdspec 1\n", "1 0 Header"),
    (b"rdspec 01\n", "1 0 Header"),
    (b"(rdspec 1)\n", "1 0 Header"),
    (b" # no comment\nrdspec 1\n", "1 0 Header"),
    (b"kind k\nrdspec 1\n", "1 0 Header"),
    (b"commute m m when true\n", "1 0 Header"),
    (b"rdspec 1 \x01\n", "1 0 Header"),
];

#[test]
fn a_text_begins_with_its_header(rt: HostRuntime) {
    check_rows(&rt, rt.alloc(), "", &HEADERS);
}

const WHOLE: [(&[u8], &str); 29] = [
    (b"rdspec 1\nkind k", "ok 1"),
    (b"rdspec 1\nkind k\n\n# end\n   \n", "ok 1"),
    (b"rdspec 1\nkind a\nkind b\nkind c\n", "ok 3"),
    (b"rdspec 1\nkind k\nmethod m -> r\n", "4 0 MissingPair m m"),
    (
        b"rdspec 1\nkind k\nmethod m -> r\n\n# more",
        "6 0 MissingPair m m",
    ),
    (
        b"rdspec 1\nkind k\nmethod m -> r\nmethod n -> r\ncommute m m when true\ncommute n n when true",
        "7 0 MissingPair m n",
    ),
    (
        b"rdspec 1\nkind k\nmethod m -> r\nmethod n -> r\ncommute m n when true\ncommute n n when true\n",
        "7 0 MissingPair m m",
    ),
    (
        b"rdspec 1\nkind k\nmethod m -> r\nmethod n -> r\ncommute m m when true\ncommute m n when true\n",
        "7 0 MissingPair n n",
    ),
    (
        b"rdspec 1\nkind k\nmethod m -> r\nmethod n -> r\nmethod o -> r\ncommute m m when true\ncommute m n when true\ncommute n n when true\n",
        "9 0 MissingPair m o",
    ),
    (
        b"rdspec 1\nkind k\nmethod m -> r\nkind l\n",
        "4 0 MissingPair m m",
    ),
    (
        b"rdspec 1\nkind k\nmethod m -> r\nkind k\n",
        "4 6 Duplicate",
    ),
    (
        b"rdspec 1\nkind k\nmethod m -> r\nkind queue\n",
        "4 0 MissingPair m m",
    ),
    (
        b"rdspec 1\nkind k\nmethod m -> r\ncommute m m when true\nkind k\n",
        "5 6 Duplicate",
    ),
    (b"rdspec 1\nkind a\nkind b\nkind a\n", "4 6 Duplicate"),
    (
        b"rdspec 1\nkind k\nmethod m -> r\ncommute m m when true\nkind l\nmethod m a -> r\ncommute m m when a@1 = a@1\n",
        "ok 2",
    ),
    (
        b"rdspec 1\nkind k\nmethod n -> r\nmethod m -> r\ncommute m m when true\ncommute n m when true\ncommute n n when true\n",
        "ok 1",
    ),
    (
        b"rdspec 1\nkind when\nmethod true -> r\nmethod 1 -> r\ncommute true 1 when true\ncommute 1 1 when true\ncommute true true when r@1 = r@1\n",
        "ok 1",
    ),
    (
        b"rdspec 1\nkind k\n\nmethod m -> r\n   \n# pairs\ncommute m m when true",
        "ok 1",
    ),
    (
        b"rdspec 1\nkind k\nmethod m -> r\ncommute m m when true\nmethod n -> r\n",
        "5 1 Syntax",
    ),
    (
        b"rdspec 1\nkind k\nmethod m -> r\ncommute m m when true\nkind l\nmethod m -> r\n",
        "7 0 MissingPair m m",
    ),
    (b"rdspec 1\nmethod m -> r\n", "2 1 Syntax"),
    (b"rdspec 1\ncommute m m when true\n", "2 1 Syntax"),
    (b"rdspec 1\nrdspec 1\n", "2 1 Syntax"),
    (b"rdspec 1\nkind k\nrdspec 1\n", "3 1 Syntax"),
    (
        b"rdspec 1\nkind k\nkind register\nkind k\n",
        "3 6 KindTaken",
    ),
    (
        b"rdspec 1\nkind k\ncommute m m when true\n",
        "3 9 UnknownMethod",
    ),
    (b"rdspec 1\nkind k\ndefault true\n", "3 1 Syntax"),
    (b"rdspec 1\nkind k\ndefine m n when a = 1\n", "3 1 Syntax"),
    (
        b"rdspec 1\nkind k\nmethod m a b -> r\nmethod n -> r\ncommute m n when b@1 = r@2\n",
        "5 22 OutsideFragment(CrossRelation)",
    ),
];

#[test]
fn whole_texts(rt: HostRuntime) {
    check_rows(&rt, rt.alloc(), "", &WHOLE);
}

const KINDS: [(&[u8], &str); 30] = [
    (b"kind", "2 5 Syntax"),
    (b"kind ", "2 6 Syntax"),
    (b"kind   ", "2 8 Syntax"),
    (b"kind k l", "2 8 Syntax"),
    (b"kind k (", "2 8 Syntax"),
    (b"kind (", "2 6 Syntax"),
    (b"kind \"k\"", "2 6 Syntax"),
    (b"kind k!", "2 6 Syntax"),
    (b"kind k\r", "2 7 Syntax"),
    (b"kind\tk", "2 5 Syntax"),
    (b"  kind k", "ok 1"),
    (b"kind a_.:$#@-z", "ok 1"),
    (
        b"kind nnnnnnnnnnnnnnnnnnnnnnnnnnnnnnnnnnnnnnnnnnnnnnnnnnnnnnnnnnnnnnnn",
        "ok 1",
    ),
    (
        b"kind nnnnnnnnnnnnnnnnnnnnnnnnnnnnnnnnnnnnnnnnnnnnnnnnnnnnnnnnnnnnnnnnn",
        "2 6 Syntax",
    ),
    (b"kind register", "2 6 KindTaken"),
    (b"kind counter", "2 6 KindTaken"),
    (b"kind set", "2 6 KindTaken"),
    (b"kind dictionary", "2 6 KindTaken"),
    (b"kind  bag", "2 7 KindTaken"),
    (b"kind peak", "2 6 KindTaken"),
    (b"kind queue", "2 6 KindTaken"),
    (b"kind tally", "2 6 KindTaken"),
    (b"kind Set", "ok 1"),
    (b"kinds k", "2 1 Syntax"),
    (b"KIND k", "2 1 Syntax"),
    (b"\"kind\" k", "2 1 Syntax"),
    (b"(kind k)", "2 1 Syntax"),
    (b" # k", "2 2 Syntax"),
    (b"\x00", "2 1 Syntax"),
    (b"kind \x80", "2 6 Syntax"),
];

#[test]
fn lines_of_kinds(rt: HostRuntime) {
    check_rows(&rt, rt.alloc(), "rdspec 1\n", &KINDS);
}

const METHODS: [(&[u8], &str); 31] = [
    (b"method", "4 7 Syntax"),
    (b"method n", "4 9 Syntax"),
    (b"method n ->", "4 12 Syntax"),
    (b"method n -> ", "4 13 Syntax"),
    (b"method n - > r", "4 10 Syntax"),
    (b"method n a b", "4 13 Syntax"),
    (b"method n a b r", "4 15 Syntax"),
    (b"method n -> r s", "4 15 Syntax"),
    (b"method n -> 1", "4 13 Syntax"),
    (b"method n -> true", "4 13 Syntax"),
    (b"method n 1 -> r", "4 10 Syntax"),
    (b"method n _a -> r", "4 10 Syntax"),
    (b"method n nil -> r", "4 10 Syntax"),
    (b"method n a when -> r", "4 12 Syntax"),
    (b"method n a-b -> r", "4 10 Syntax"),
    (b"method n a@1 -> r", "4 10 Syntax"),
    (b"method n \"a\" -> r", "4 10 Syntax"),
    (b"method n (a) -> r", "4 10 Syntax"),
    (b"method -> r", "4 8 Syntax"),
    (b"method n! -> r", "4 8 Syntax"),
    (b"method m -> r", "4 8 Duplicate"),
    (b"method m a a -> a", "4 8 Duplicate"),
    (b"method n a a -> r", "4 12 Duplicate"),
    (b"method n a b a b -> r", "4 14 Duplicate"),
    (b"method n a -> a", "4 15 Duplicate"),
    (b"method n a b -> b", "4 17 Duplicate"),
    (b"method n a b c d e f g -> r", "4 22 Limit(Arguments, 6)"),
    (b"method n a b c d e f g h -> r", "4 22 Limit(Arguments, 6)"),
    (b"method n a b c d e f a -> r", "4 22 Duplicate"),
    (b"method n a b c d e f g -> g", "4 27 Duplicate"),
    (b"method m a b c d e f g -> r", "4 8 Duplicate"),
];

#[test]
fn lines_of_methods(rt: HostRuntime) {
    check_rows(&rt, rt.alloc(), A_METHOD, &METHODS);
}

const BEHIND: [(&[u8], &str); 4] = [
    (b"kind k", "4 6 Duplicate"),
    (b"kind l", "4 0 MissingPair m m"),
    (b"kind set", "4 0 MissingPair m m"),
    (b"kind", "4 5 Syntax"),
];

#[test]
fn a_kind_behind_a_kind(rt: HostRuntime) {
    check_rows(&rt, rt.alloc(), A_METHOD, &BEHIND);
}

const WRONG: [(&[u8], &str); 62] = [
    (b"commute", "4 8 Syntax"),
    (b"commute m", "4 10 Syntax"),
    (b"commute m m", "4 12 Syntax"),
    (b"commute m m true", "4 13 Syntax"),
    (b"commute m m when", "4 17 Syntax"),
    (b"commute m m when ", "4 18 Syntax"),
    (b"commute m ( when true", "4 11 Syntax"),
    (b"commute \"m\" m when true", "4 9 Syntax"),
    (b"commute m m whem true", "4 13 Syntax"),
    (b"commute m m when TRUE", "4 18 Syntax"),
    (b"commute m m when true true", "4 23 Syntax"),
    (b"commute m m when true )", "4 23 Syntax"),
    (b"commute m m when ( true", "4 24 Syntax"),
    (b"commute m m when (true", "4 23 Syntax"),
    (b"commute m m when ()", "4 19 Syntax"),
    (b"commute m m when )", "4 18 Syntax"),
    (b"commute m m when (true))", "4 24 Syntax"),
    (b"commute m m when not", "4 21 Syntax"),
    (b"commute m m when true and", "4 26 Syntax"),
    (b"commute m m when true or", "4 25 Syntax"),
    (b"commute m m when and true", "4 18 Syntax"),
    (b"commute m m when or true", "4 18 Syntax"),
    (b"commute m m when true not true", "4 23 Syntax"),
    (b"commute m m when true or and true", "4 26 Syntax"),
    (b"commute m m when true and or true", "4 27 Syntax"),
    (b"commute m m when a@1", "4 21 Syntax"),
    (b"commute m m when a@1 =", "4 23 Syntax"),
    (b"commute m m when a@1 = ", "4 24 Syntax"),
    (b"commute m m when a@1 = =", "4 24 Syntax"),
    (b"commute m m when a@1 1", "4 22 Syntax"),
    (b"commute m m when a@1=1", "4 18 Syntax"),
    (b"commute m m when a@1 == 1", "4 22 Syntax"),
    (b"commute m m when a@1 > 1", "4 22 Syntax"),
    (b"commute m m when a@1 = 1 = 1", "4 26 Syntax"),
    (b"commute m m when a@1 = not", "4 24 Syntax"),
    (b"commute m m when a = 1", "4 18 Syntax"),
    (b"commute m m when a@3 = 1", "4 18 Syntax"),
    (b"commute m m when a@ = 1", "4 18 Syntax"),
    (b"commute m m when @1 = 1", "4 18 Syntax"),
    (b"commute m m when 1a@1 = 1", "4 18 Syntax"),
    (b"commute m m when true@1 = 1", "4 18 Syntax"),
    (b"commute m m when nil", "4 21 Syntax"),
    (b"commute m m when nil and true", "4 22 Syntax"),
    (b"commute m m when 7", "4 19 Syntax"),
    (b"commute m m when true and = 1", "4 27 Syntax"),
    (b"commute m m when a@1 = 07", "4 24 Syntax"),
    (b"commute m m when a@1 = -0", "4 24 Syntax"),
    (b"commute m m when a@1 = +7", "4 24 Syntax"),
    (b"commute m m when a@1 = 9223372036854775808", "4 24 Syntax"),
    (
        b"commute m m when a@1 = -9223372036854775809",
        "4 24 Syntax",
    ),
    (b"commute m m when a@1 = \"\\x41\"", "4 24 Syntax"),
    (b"commute m m when a@1 = \"\\n\"", "4 24 Syntax"),
    (b"commute m m when a@1 = \"\\xFF\"", "4 24 Syntax"),
    (b"commute m m when a@1 = \"abc", "4 24 Syntax"),
    (b"commute m m when a@1 = \"abc\\\"", "4 24 Syntax"),
    (b"commute m m when a@1 = \"\\\\\"x", "4 28 Syntax"),
    (b"commute m m when a@1 = 1\t", "4 25 Syntax"),
    (b"commute m m when a@1 = 1\r", "4 25 Syntax"),
    (b"commute m m when a@1 \x01 1", "4 22 Syntax"),
    (b"commute \x01 m when", "4 9 Syntax"),
    (b"commute n m when", "4 17 Syntax"),
    (b"commute m n when a@1 =", "4 23 Syntax"),
];

#[test]
fn pairs_with_a_wrong_token(rt: HostRuntime) {
    check_rows(&rt, rt.alloc(), A_METHOD, &WRONG);
}

const FALSE: [(&[u8], &str); 35] = [
    (b"commute m n when true", "4 11 UnknownMethod"),
    (b"commute n m when true", "4 9 UnknownMethod"),
    (b"commute n o when true", "4 9 UnknownMethod"),
    (b"commute  n  n when true", "4 10 UnknownMethod"),
    (b"commute n m when b@1 = 1", "4 9 UnknownMethod"),
    (b"commute n m when 1 = 2", "4 9 UnknownMethod"),
    (b"commute m m when b@1 = 1", "4 18 UnknownVariable"),
    (b"commute m m when 1 = b@2", "4 22 UnknownVariable"),
    (
        b"commute m m when a@1 = 1 and b@2 = 1",
        "4 30 UnknownVariable",
    ),
    (
        b"commute m m when 1 = 2 and b@2 = 1",
        "4 28 UnknownVariable",
    ),
    (b"commute m m when b@1 = c@2", "4 18 UnknownVariable"),
    (b"commute m m when a@1 = c@2", "4 24 UnknownVariable"),
    (b"commute m m when not (b@1 != a@2)", "4 23 UnknownVariable"),
    (b"commute m m when A@1 = 1", "4 18 UnknownVariable"),
    (b"commute m m when 1 = 2", "4 20 NoVariable"),
    (b"commute m m when \"a b\" != nil", "4 24 NoVariable"),
    (b"commute m m when true = false", "4 23 NoVariable"),
    (b"commute m m when a@1 = 1 or 1 < 2", "4 31 NoVariable"),
    (b"commute m m when a@1 = a@2 or 1 < 2", "4 33 NoVariable"),
    (b"commute m m when 1 = 1 and 2 = 2", "4 20 NoVariable"),
    (
        b"commute m m when a@1 = a@2",
        "4 22 OutsideFragment(CrossRelation)",
    ),
    (
        b"commute m m when a@2 = a@1",
        "4 22 OutsideFragment(CrossRelation)",
    ),
    (
        b"commute m m when a@1 < a@2",
        "4 22 OutsideFragment(CrossRelation)",
    ),
    (
        b"commute m m when a@2 <= r@1",
        "4 22 OutsideFragment(CrossRelation)",
    ),
    (
        b"commute m m when not a@1 != a@2",
        "4 18 OutsideFragment(NotOverCross)",
    ),
    (
        b"commute m m when not (true and a@1 != a@2)",
        "4 18 OutsideFragment(NotOverCross)",
    ),
    (
        b"commute m m when not a@1 = a@2",
        "4 26 OutsideFragment(CrossRelation)",
    ),
    (
        b"commute m m when a@1 != a@2 or r@1 != r@2",
        "4 29 OutsideFragment(OrOfCross)",
    ),
    (
        b"commute m m when a@1 != a@2 or r@1 = r@2",
        "4 36 OutsideFragment(CrossRelation)",
    ),
    (
        b"commute m m when (a@1 != a@2 or r@1 = 1) or r@1 != r@2",
        "4 42 OutsideFragment(OrOfCross)",
    ),
    (
        b"commute m m when a@1 != a@2 or not r@1 != r@2",
        "4 32 OutsideFragment(NotOverCross)",
    ),
    (
        b"commute m m when a@1 = 1 or a@1 = 2 or a@1 = 3 or a@1 = 4 or a@1 = 5 or a@1 = 6",
        "4 13 Limit(Predicates, 5)",
    ),
    (
        b"commute m m when a@1 = 1 or a@1 = 2 or a@1 = 3 or a@2 = 4 or a@2 = 5 or a@2 = 6",
        "4 13 Limit(Predicates, 5)",
    ),
    (
        b"commute m m when a@1 = 1 or a@1 = 2 or a@1 = 3 or a@1 = 4 or a@1 = r@1 or r@1 = a@1",
        "4 13 Limit(Predicates, 5)",
    ),
    (
        b"commute  m m when a@1 < 1 or a@1 <= 1 or a@1 = 1 or 1 < a@1 or 1 <= a@1 or 1 = a@1",
        "4 14 Limit(Predicates, 5)",
    ),
];

#[test]
fn pairs_that_say_something_wrong(rt: HostRuntime) {
    check_rows(&rt, rt.alloc(), A_METHOD, &FALSE);
}

const RIGHT: [(&[u8], &str); 29] = [
    (b"commute m m when true", "ok 1"),
    (b"commute   m  m   when   true  ", "ok 1"),
    (b"commute m m when ((true))", "ok 1"),
    (b"commute m m when(true)", "ok 1"),
    (b"commute m m when not not true", "ok 1"),
    (b"commute m m when true = a@1", "ok 1"),
    (b"commute m m when a@1 = false", "ok 1"),
    (b"commute m m when a@1 = nil", "ok 1"),
    (b"commute m m when a@1 = -7", "ok 1"),
    (b"commute m m when a@1 = 9223372036854775807", "ok 1"),
    (b"commute m m when a@1 = -9223372036854775808", "ok 1"),
    (b"commute m m when a@1 = \"\"", "ok 1"),
    (b"commute m m when a@1 = \"x y (z) and\"", "ok 1"),
    (b"commute m m when a@1 = \"\\\"\\\\\\x00\"", "ok 1"),
    (b"commute m m when a@1 = \"a\"and true", "ok 1"),
    (b"commute m m when \"a\" = a@1", "ok 1"),
    (b"commute m m when a@1 != a@2", "ok 1"),
    (b"commute m m when a@2 != r@1", "ok 1"),
    (b"commute m m when a@1 != a@2 and r@1 != r@2", "ok 1"),
    (b"commute m m when a@1 != a@2 or r@1 = 1", "ok 1"),
    (b"commute m m when r@1 = 1 or a@1 != a@2", "ok 1"),
    (
        b"commute m m when (a@1 != a@2 or r@1 = 1) and (r@1 != r@2 or a@2 = 1)",
        "ok 1",
    ),
    (b"commute m m when a@1 != r@1", "ok 1"),
    (b"commute m m when not a@1 != r@1", "ok 1"),
    (b"commute m m when a@1 != 1 or a@2 != 1", "ok 1"),
    (
        b"commute m m when a@1 = 1 or a@1 = 2 or a@1 = 3 or a@1 = 4 or a@1 = 5",
        "ok 1",
    ),
    (
        b"commute m m when a@1 = 1 or a@1 = 2 or a@1 = 3 or a@2 = 4 or a@2 = 5",
        "ok 1",
    ),
    (
        b"commute m m when a@1 = 1 or a@1 = 2 or a@1 = 3 or a@1 = 4 or a@1 = 5 or a@2 = 5",
        "ok 1",
    ),
    (
        b"commute m m when a@1 = 1 or a@1 = 2 or a@1 = 3 or a@1 = 4 or a@1 = 5 or a@1 != 5",
        "ok 1",
    ),
];

#[test]
fn pairs_that_are_right(rt: HostRuntime) {
    check_rows(&rt, rt.alloc(), A_METHOD, &RIGHT);
}

const TWO: [(&[u8], &str); 14] = [
    (b"commute get put when true", "5 13 Syntax"),
    (b"commute get put", "5 13 Syntax"),
    (b"commute get put x", "5 13 Syntax"),
    (b"commute get put when \x01", "5 13 Syntax"),
    (b"commute \x01 put", "5 9 Syntax"),
    (b"commute get size when true", "5 13 UnknownMethod"),
    (b"commute size put when true", "5 9 UnknownMethod"),
    (b"commute put size when value@1 = 1", "5 13 UnknownMethod"),
    (b"commute put get when prev@2 = 1", "5 22 UnknownVariable"),
    (
        b"commute put get when value@2 = prev@1",
        "5 30 OutsideFragment(CrossRelation)",
    ),
    (b"commute get get when prev@1 = 1", "5 22 UnknownVariable"),
    (
        b"commute put get when key@1 != key@2 or value@1 = prev@1",
        "6 0 MissingPair put put",
    ),
    (
        b"commute put get when key@1 != key@2 or value@1 != value@2",
        "5 37 OutsideFragment(OrOfCross)",
    ),
    (
        b"commute put get when key@1 = 1 or key@1 = 2 or key@2 = 1 or key@2 = 2 or key@1 = 3 or key@2 = 3",
        "6 0 MissingPair put put",
    ),
];

#[test]
fn pairs_of_two_methods(rt: HostRuntime) {
    check_rows(&rt, rt.alloc(), TWO_METHODS, &TWO);
}

// A text, words so often behind it, another one, `)` so often, and what is wanted.
type Long = (
    &'static str,
    &'static str,
    u32,
    &'static str,
    u32,
    &'static str,
);

// Behind the method.
const LONG_LINES: [Long; 18] = [
    ("commute m m when a@1 = \"", "t", 255, "\"", 0, "ok 1"),
    (
        "commute m m when a@1 = \"",
        "t",
        256,
        "\"",
        0,
        "4 24 Syntax",
    ),
    ("commute m m when ", "not ", 31, "true", 0, "ok 1"),
    (
        "commute m m when ",
        "not ",
        32,
        "true",
        0,
        "4 13 Limit(FormulaDepth, 32)",
    ),
    ("commute m m when ", "not ", 30, "a@1 != 1", 0, "ok 1"),
    (
        "commute m m when ",
        "not ",
        31,
        "a@1 != 1",
        0,
        "4 13 Limit(FormulaDepth, 32)",
    ),
    (
        "commute m m when (true and true)",
        " and (true and true)",
        15,
        "",
        0,
        "ok 1",
    ),
    ("commute m m when true", " and true", 31, "", 0, "ok 1"),
    (
        "commute m m when true",
        " and true",
        32,
        "",
        0,
        "4 13 Limit(Nodes, 64)",
    ),
    (
        "commute m m when (true and true)",
        " and (true and true)",
        16,
        "",
        0,
        "4 13 Limit(Nodes, 64)",
    ),
    (
        "commute m m when a@1 = a@2",
        " and true",
        33,
        "",
        0,
        "4 22 OutsideFragment(CrossRelation)",
    ),
    ("commute m m when ", "(", 255, "true", 255, "ok 1"),
    (
        "commute m m when ",
        "(",
        256,
        "true",
        256,
        "4 13 Limit(Tokens, 512)",
    ),
    (
        "commute m m when ",
        "x ",
        513,
        "",
        0,
        "4 13 Limit(Tokens, 512)",
    ),
    ("commute m m when ", "x ", 512, "", 0, "4 18 Syntax"),
    (
        "commute m n when ",
        "\x01",
        513,
        "",
        0,
        "4 13 Limit(Tokens, 512)",
    ),
    (
        "commute ( ) when ",
        "\"\" ",
        513,
        "",
        0,
        "4 13 Limit(Tokens, 512)",
    ),
    ("commute m m when \"", "x ", 600, "", 0, "4 18 Syntax"),
];

// A text has at most 1,048,576 bytes.
const LONG_TEXTS: [Long; 2] = [
    ("rdspec 1\n", "#", 1_048_567, "", 0, "ok 0"),
    (
        "rdspec 1\n",
        "#",
        1_048_568,
        "",
        0,
        "0 0 Limit(SpecText, 1048576)",
    ),
];

fn check_long(rt: &impl Abort, alloc: Global, first: &str, rows: &[Long]) {
    for (front, words, count, behind, closes, wanted) in rows {
        let mut line = repeated(alloc, front, words, *count, behind).expect(rt, "memory");
        push_times(&mut line, ")", *closes).expect(rt, "memory");
        gives(
            rt,
            answer(alloc, first, line.as_bytes()),
            wanted,
            wanted.as_bytes(),
        );
    }
}

#[test]
fn long_lines_and_texts(rt: HostRuntime) {
    check_long(&rt, rt.alloc(), A_METHOD, &LONG_LINES);
    check_long(&rt, rt.alloc(), "", &LONG_TEXTS);
}

// Kinds without a method.
fn push_kinds(text: &mut String, count: u32) -> Result<(), NoMemory> {
    for number in 0..count {
        push_number(text, "kind k", number, "\n")?;
    }
    Ok(())
}

// A kind with so many methods, and all pairs of the first 16.
fn push_methods(text: &mut String, count: u32) -> Result<(), NoMemory> {
    text.push_str("kind k\n")?;
    for number in 0..count {
        push_number(text, "method m", number, " -> r\n")?;
    }
    for first in 0..16_u32 {
        for second in first..16 {
            push_number(text, "commute m", first, " ")?;
            push_number(text, "m", second, " when true\n")?;
        }
    }
    Ok(())
}

// So many kinds, or a kind with so many methods.
fn many(alloc: Global, of_methods: bool, count: u32) -> Result<String, NoMemory> {
    let mut text = String::from_str(alloc, "rdspec 1\n")?;
    if of_methods {
        push_methods(&mut text, count)?;
    } else {
        push_kinds(&mut text, count)?;
    }
    said(alloc, text.as_bytes())
}

const COUNTS: [(bool, u32, &str); 4] = [
    (false, 32, "ok 32"),
    (false, 33, "34 6 Limit(Kinds, 32)"),
    (true, 16, "ok 1"),
    (true, 17, "19 8 Limit(Methods, 16)"),
];

fn check_counts(rt: &impl Abort, alloc: Global, rows: &[(bool, u32, &str)]) {
    for (of_methods, count, wanted) in rows {
        gives(
            rt,
            many(alloc, *of_methods, *count),
            wanted,
            wanted.as_bytes(),
        );
    }
}

#[test]
fn limits_on_counts(rt: HostRuntime) {
    check_counts(&rt, rt.alloc(), &COUNTS);
}
