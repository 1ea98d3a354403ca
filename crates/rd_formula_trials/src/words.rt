//! Words, terms and a line's marks.

use crate::rows::gives;
use rd_base::{NoMemory, Value};
use rd_grammar::{Leaf, Mark, Sign, Symbol};
use rd_samples::{push_comma, push_number, read_bytes};
use rd_tokens::{Dialect, Marks, Said, Sort, marks, read_term, symbol, tokens};
use std::alloc::Global;
use std::process::Abort;

const WORDS: [(&[u8], Symbol); 57] = [
    (b"not", Symbol::Not),
    (b"and", Symbol::And),
    (b"or", Symbol::Or),
    (b"true", Symbol::Leaf(Leaf::Truth(true))),
    (b"false", Symbol::Leaf(Leaf::Truth(false))),
    (b"=", Symbol::Sign(Sign::Equal)),
    (b"!=", Symbol::Sign(Sign::Different)),
    (b"<", Symbol::Sign(Sign::Less)),
    (b"<=", Symbol::Sign(Sign::AtMost)),
    (b"nots", Symbol::Other),
    (b"no", Symbol::Other),
    (b"And", Symbol::Other),
    (b"TRUE", Symbol::Other),
    (b"when", Symbol::Other),
    (b"==", Symbol::Other),
    (b"<>", Symbol::Other),
    (b"!", Symbol::Other),
    (b">", Symbol::Other),
    (b"=<", Symbol::Other),
    (b"<==", Symbol::Other),
    (b"a@1", Symbol::Term),
    (b"a@2", Symbol::Term),
    (b"Z_9@2", Symbol::Term),
    (b"trues@1", Symbol::Term),
    (b"Not@1", Symbol::Term),
    (b"z__@1", Symbol::Term),
    (
        b"abcdefghijklmnopabcdefghijklmnopabcdefghijklmnopabcdefghijklmnop@1",
        Symbol::Term,
    ),
    (
        b"abcdefghijklmnopabcdefghijklmnopabcdefghijklmnopabcdefghijklmnopq@1",
        Symbol::Other,
    ),
    (b"x", Symbol::Other),
    (b"a@", Symbol::Other),
    (b"a@0", Symbol::Other),
    (b"a@3", Symbol::Other),
    (b"a@12", Symbol::Other),
    (b"a@1@1", Symbol::Other),
    (b"a@@1", Symbol::Other),
    (b"@1", Symbol::Other),
    (b"1@1", Symbol::Other),
    (b"9a@1", Symbol::Other),
    (b"_a@1", Symbol::Other),
    (b"a.b@1", Symbol::Other),
    (b"a-b@1", Symbol::Other),
    (b"a@1=1", Symbol::Other),
    (b"true@1", Symbol::Other),
    (b"nil@1", Symbol::Other),
    (b"or@2", Symbol::Other),
    (b"when@1", Symbol::Other),
    (b"nil", Symbol::Term),
    (b"nill", Symbol::Other),
    (b"0", Symbol::Term),
    (b"-1", Symbol::Term),
    (b"-9223372036854775808", Symbol::Term),
    (b"9223372036854775807", Symbol::Term),
    (b"9223372036854775808", Symbol::Other),
    (b"07", Symbol::Other),
    (b"-0", Symbol::Other),
    (b"+7", Symbol::Other),
    (b"-", Symbol::Other),
];

fn check_words(rt: &impl Abort, dialect: Dialect, rows: &[(&[u8], Symbol)]) {
    for (bytes, wanted) in rows {
        assert!(rt;
            symbol(dialect, Sort::Word, bytes) == *wanted,
            "at {bytes:?}"
        );
    }
}

#[test]
fn tells_what_each_word_is(rt: HostRuntime) {
    check_words(&rt, Dialect::Sided, &WORDS);
}

// Where names may be used, a variable with its side is a leaf; all else is as above.
const NAMED: [(&[u8], Symbol); 9] = [
    (b"a@1", Symbol::Leaf(Leaf::Name)),
    (b"Z_9@2", Symbol::Leaf(Leaf::Name)),
    (b"a@3", Symbol::Other),
    (b"a", Symbol::Other),
    (b"when@1", Symbol::Other),
    (b"true", Symbol::Leaf(Leaf::Truth(true))),
    (b"nil", Symbol::Term),
    (b"-1", Symbol::Term),
    (b"!=", Symbol::Sign(Sign::Different)),
];

// In a definition a variable without a side is a term, and one with a side is nothing.
const UNSIDED: [(&[u8], Symbol); 10] = [
    (b"a", Symbol::Term),
    (b"Z_9", Symbol::Term),
    (b"a@1", Symbol::Other),
    (b"a@2", Symbol::Other),
    (b"when", Symbol::Other),
    (b"9a", Symbol::Other),
    (b"not", Symbol::Not),
    (b"false", Symbol::Leaf(Leaf::Truth(false))),
    (b"nil", Symbol::Term),
    (b"7", Symbol::Term),
];

#[test]
fn tells_what_each_word_is_in_version_2(rt: HostRuntime) {
    check_words(&rt, Dialect::Named, &NAMED);
    check_words(&rt, Dialect::Unsided, &UNSIDED);
}

const OTHERS: [(Sort, &[u8], Symbol); 6] = [
    (Sort::Open, b"(", Symbol::Open),
    (Sort::Close, b")", Symbol::Close),
    (Sort::Text, b"\"true\"", Symbol::Term),
    (Sort::Wrong, b"\"\\x41\"", Symbol::Other),
    (Sort::Wrong, b"\"a", Symbol::Other),
    (Sort::Wrong, b"\t", Symbol::Other),
];

fn check_others(rt: &impl Abort, rows: &[(Sort, &[u8], Symbol)]) {
    for (sort, bytes, wanted) in rows {
        assert!(rt;
            symbol(Dialect::Sided, *sort, bytes) == *wanted,
            "at {bytes:?}"
        );
    }
}

#[test]
fn tells_what_other_tokens_are(rt: HostRuntime) {
    check_others(&rt, &OTHERS);
}

// What a term says.
fn term(alloc: Global, dialect: Dialect, bytes: &[u8]) -> Result<String, NoMemory> {
    let mut text = String::new(alloc);
    match read_term(alloc, dialect, bytes)? {
        Some(said) => show(&mut text, &said)?,
        None => text.push_str("no term")?,
    }
    Ok(text)
}

fn show(text: &mut String, said: &Said) -> Result<(), NoMemory> {
    match said {
        Said::Variable { side, name } => write!(text, "{} {side:?}", read_bytes(name.items()))?,
        Said::Value(Value::Nil) => text.push_str("nil")?,
        Said::Value(Value::Bool(value)) => write!(text, "bool {value}")?,
        Said::Value(Value::Int(value)) => write!(text, "int {value}")?,
        Said::Value(Value::Text(value)) => write!(text, "text {}", read_bytes(value.items()))?,
    }
    Ok(())
}

const TERMS: [(&[u8], &str); 16] = [
    (b"a@1", "a First"),
    (b"a@2", "a Second"),
    (b"Z_9@2", "Z_9 Second"),
    (b"nil", "nil"),
    (b"true", "bool true"),
    (b"false", "bool false"),
    (b"-12", "int -12"),
    (b"\"a@1\"", "text a@1"),
    (b"", "no term"),
    (b"a", "no term"),
    (b"a@3", "no term"),
    (b"when@1", "no term"),
    (b"not", "no term"),
    (b"=", "no term"),
    (b"07", "no term"),
    (b"\"a", "no term"),
];

fn check_terms(rt: &impl Abort, alloc: Global, dialect: Dialect, rows: &[(&[u8], &str)]) {
    for (bytes, wanted) in rows {
        gives(rt, term(alloc, dialect, bytes), wanted, bytes);
    }
}

const UNSIDED_TERMS: [(&[u8], &str); 7] = [
    (b"a", "a First"),
    (b"Z_9", "Z_9 First"),
    (b"a@1", "no term"),
    (b"nil", "nil"),
    (b"true", "bool true"),
    (b"12", "int 12"),
    (b"when", "no term"),
];

#[test]
fn reads_terms(rt: HostRuntime) {
    check_terms(&rt, rt.alloc(), Dialect::Sided, &TERMS);
    check_terms(&rt, rt.alloc(), Dialect::Named, &TERMS);
    check_terms(&rt, rt.alloc(), Dialect::Unsided, &UNSIDED_TERMS);
}

// The marks, each with the number of its token.
fn show_marks(text: &mut String, marks: &[Mark]) -> Result<(), NoMemory> {
    for mark in marks {
        push_comma(text)?;
        write!(text, "{:?}", mark.symbol)?;
        push_number(text, " ", mark.token, "")?;
    }
    Ok(())
}

fn marks_of(alloc: Global, line: &[u8]) -> Result<Marks, NoMemory> {
    if line.len() > 1000 {
        return Err(NoMemory);
    }
    let found = tokens(alloc, line)?;
    if found.items().len() > 1000 {
        return Err(NoMemory);
    }
    marks(alloc, Dialect::Sided, line, found.items())
}

fn shown_marks(alloc: Global, line: &[u8]) -> Result<String, NoMemory> {
    let marks = marks_of(alloc, line)?;
    let mut text = String::new(alloc);
    show_marks(&mut text, marks.items())?;
    Ok(text)
}

fn check_marks(rt: &impl Abort, alloc: Global, rows: &[(&[u8], &str)]) {
    for (line, wanted) in rows {
        gives(rt, shown_marks(alloc, line), wanted, line);
    }
}

const LINES: [(&[u8], &str); 2] = [
    (
        b"not a@1 != \"or (\" or (b@2=1 <= true)\t",
        "Not 0, Term 1, Sign(Different) 2, Term 3, Or 4, Open 5, Other 6, Sign(AtMost) 7, Leaf(Truth(true)) 8, Close 9, Other 10",
    ),
    (b"", ""),
];

#[test]
fn marks_lines(rt: HostRuntime) {
    check_marks(&rt, rt.alloc(), &LINES);
}
