//! Lines with their tokens.

use crate::rows::gives;
use rd_base::NoMemory;
use rd_samples::{push_comma, push_number, read_bytes, repeated};
use rd_tokens::{Token, law_of_tokens, tokens};
use std::alloc::Global;
use std::process::Abort;

// The place, the length and the sort of each token.
fn show(text: &mut String, tokens: &[Token]) -> Result<(), NoMemory> {
    for token in tokens {
        push_comma(text)?;
        push_number(text, "", token.place, " ")?;
        push_number(text, "", token.length, " ")?;
        write!(text, "{:?}", token.sort)?;
    }
    Ok(())
}

fn answer(alloc: Global, line: &[u8]) -> Result<String, NoMemory> {
    if line.len() > 1000 {
        return Err(NoMemory);
    }
    let found = tokens(alloc, line)?;
    let mut text = String::new(alloc);
    show(&mut text, found.items())?;
    Ok(text)
}

fn check_rows(rt: &impl Abort, alloc: Global, rows: &[(&[u8], &str)]) {
    for (line, wanted) in rows {
        gives(rt, answer(alloc, line), wanted, line);
    }
}

const ROWS: [(&[u8], &str); 34] = [
    (b"", ""),
    (b"   ", ""),
    (
        b"commute m n when a@1 != b@2",
        "1 7 Word, 9 1 Word, 11 1 Word, 13 4 Word, 18 3 Word, 22 2 Word, 25 3 Word",
    ),
    (b"(a)", "1 1 Open, 2 1 Word, 3 1 Close"),
    (b"((", "1 1 Open, 2 1 Open"),
    (
        b"a(b)c",
        "1 1 Word, 2 1 Open, 3 1 Word, 4 1 Close, 5 1 Word",
    ),
    (b"a  ", "1 1 Word"),
    (b"  !~", "3 2 Word"),
    (b"a\tb", "1 1 Word, 2 1 Wrong, 3 1 Word"),
    (b"ab\r", "1 2 Word, 3 1 Wrong"),
    (
        b"~\x7f\x80\xff",
        "1 1 Word, 2 1 Wrong, 3 1 Wrong, 4 1 Wrong",
    ),
    // what is quoted
    (b"\"\"", "1 2 Text"),
    (b"\"a b\"", "1 5 Text"),
    (b"\"(\"", "1 3 Text"),
    (b"a\"b\"c", "1 1 Word, 2 3 Text, 5 1 Word"),
    (b"\\\"a\"", "1 1 Word, 2 3 Text"),
    (b"\"\\\\\"", "1 4 Text"),
    (b"\"a\\\"b\"", "1 6 Text"),
    (b"\"\\\\\"\"b\"", "1 4 Text, 5 3 Text"),
    (b"\"\\x00\"", "1 6 Text"),
    (b"\"\\x41\"", "1 6 Wrong"),
    (b"\"\\x0A\"", "1 6 Wrong"),
    (b"\"\\q\"", "1 4 Wrong"),
    (b"\"a\tb\"", "1 5 Wrong"),
    (b"\"a\x80\"", "1 4 Wrong"),
    (b"\"", "1 1 Wrong"),
    (b"\"\\", "1 2 Wrong"),
    (b"\"\\\"", "1 3 Wrong"),
    (b"\"ab", "1 3 Wrong"),
    (b"\"\"\"", "1 2 Text, 3 1 Wrong"),
    (b"(\"a) b", "1 1 Open, 2 5 Wrong"),
    (b"\"a\" \"b ", "1 3 Text, 5 3 Wrong"),
    (b"\"\\q\"a", "1 4 Wrong, 5 1 Word"),
    (b"nil 12", "1 3 Word, 5 2 Word"),
];

#[test]
fn cuts(rt: HostRuntime) {
    check_rows(&rt, rt.alloc(), &ROWS);
}

// A text has at most 255 bytes.
const LONG: [(u32, &str); 2] = [(255, "1 257 Text"), (256, "1 258 Wrong")];

fn check_long(rt: &impl Abort, alloc: Global, rows: &[(u32, &str)]) {
    for (count, wanted) in rows {
        let line = repeated(alloc, "\"", "a", *count, "\"").expect(rt, "memory");
        gives(
            rt,
            answer(alloc, line.as_bytes()),
            wanted,
            wanted.as_bytes(),
        );
    }
}

#[test]
fn cuts_long_texts(rt: HostRuntime) {
    check_long(&rt, rt.alloc(), &LONG);
}

// The bytes of each token.
fn parts(alloc: Global, line: &[u8]) -> Result<String, NoMemory> {
    let mut text = String::new(alloc);
    if line.len() > 1000 {
        return Err(NoMemory);
    }
    for token in tokens(alloc, line)?.items() {
        push_comma(&mut text)?;
        text.push_str(read_bytes(token.bytes(line)))?;
    }
    Ok(text)
}

#[test]
fn gives_the_bytes_of_each_token(rt: HostRuntime) {
    law_of_tokens();
    let line = b" kind (a) \"b c\" \"d";
    let wanted = "kind, (, a, ), \"b c\", \"d";
    gives(&rt, parts(rt.alloc(), line), wanted, line);
}
