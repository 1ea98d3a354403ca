//! The canonical words of formulas, and words with their text.
ghost use Rattle.std.specs.Prelude.{◌≡◌, IfOk};
ghost use Rattle.rd_ecl.specs.Formulas.{Fits, tree_of};

use crate::formula_texts::read;
use crate::rows::gives;
use rd_base::{Bytes, Name, NoMemory};
use rd_ecl::{Formula, Rel};
use rd_print::{PrintedWord, Words, append_text, law_of_texts, words};
use rd_samples::{push_comma, read_bytes};
use rd_tokens::Sort;
use std::alloc::Global;
use std::process::Abort;

// The words of a formula of methods with these variables.
fn words_of(alloc: Global, formula: &Formula) -> Result<Words, NoMemory>
    requires { Fits (tree_of formula.now) 2 2 }
{
    let first = [
        Name::from_bytes(b"value").unwrap(),
        Name::from_bytes(b"prev").unwrap(),
    ];
    let second = [
        Name::from_bytes(b"key").unwrap(),
        Name::from_bytes(b"value").unwrap(),
    ];
    words(alloc, formula, &first, &second)
}

// The words with a space between them.
fn written(alloc: Global, words: &[PrintedWord]) -> Result<String, NoMemory> {
    let mut text = String::new(alloc);
    for word in words {
        if !text.is_empty() {
            text.push_str(" ")?;
        }
        text.push_str(read_bytes(word.bytes.items()))?;
    }
    Ok(text)
}

// A relation between slot 1 of side 1 and slot 0 of side 2; none says that they differ.
fn between(rel: Option<Rel>, flipped: bool) -> Formula
    ensures { Fits (tree_of result) 2 2 }
{
    match rel {
        Some(rel) => Formula::Mixed {
            rel,
            flipped,
            first: 1,
            second: 0,
        },
        None => Formula::Cross {
            first: 1,
            second: 0,
        },
    }
}

// The relation, or what is not so.
fn relation(
    alloc: Global,
    rel: Option<Rel>,
    flipped: bool,
    negated: bool,
) -> Result<String, NoMemory> {
    let mut formula = between(rel, flipped);
    if negated {
        formula = Formula::Not(Box::new(alloc, formula)?);
    }
    let words = words_of(alloc, &formula)?;
    written(alloc, words.items())
}

const RELATIONS: [(Option<Rel>, bool, &str, &str); 5] = [
    (None, false, "prev@1 != key@2", "not prev@1 != key@2"),
    (Some(Rel::Eq), false, "prev@1 = key@2", "not prev@1 = key@2"),
    (Some(Rel::Eq), true, "key@2 = prev@1", "not key@2 = prev@1"),
    (Some(Rel::Lt), true, "key@2 < prev@1", "not key@2 < prev@1"),
    (
        Some(Rel::Le),
        false,
        "prev@1 <= key@2",
        "not prev@1 <= key@2",
    ),
];

fn check_relations(rt: &impl Abort, alloc: Global, rows: &[(Option<Rel>, bool, &str, &str)]) {
    for (rel, flipped, straight, negated) in rows {
        let found = relation(alloc, *rel, *flipped, false);
        gives(rt, found, straight, straight.as_bytes());
        let found = relation(alloc, *rel, *flipped, true);
        gives(rt, found, negated, negated.as_bytes());
    }
}

#[test]
fn writes_relations_between_the_sides(rt: HostRuntime) {
    check_relations(&rt, rt.alloc(), &RELATIONS);
}

// The words of the formula that a line says.
fn words_in(alloc: Global, line: &str) -> Result<Words, NoMemory> {
    let first = [
        Name::from_bytes(b"value").unwrap(),
        Name::from_bytes(b"prev").unwrap(),
    ];
    let second = [
        Name::from_bytes(b"key").unwrap(),
        Name::from_bytes(b"value").unwrap(),
    ];
    match read(alloc, line.as_bytes(), 0, &first, &second) {
        Ok(formula) => words_of(alloc, &formula),
        Err(_) => Err(NoMemory),
    }
}

fn again(alloc: Global, line: &str) -> Result<String, NoMemory> {
    let words = words_in(alloc, line)?;
    written(alloc, words.items())
}

const LINES: [(&str, &str); 27] = [
    ("((true))", "true"),
    ("false", "false"),
    ("value@1 = prev@1", "value@1 = prev@1"),
    ("key@2 < value@2", "key@2 < value@2"),
    ("5 <= value@2", "5 <= value@2"),
    ("value@1 = nil", "value@1 = nil"),
    ("true != prev@1", "true != prev@1"),
    ("value@1 = -70", "value@1 = -70"),
    (
        "value@1 =\"say \\\"no\\\" (\\x0a\"",
        "value@1 = \"say \\\"no\\\" (\\x0a\"",
    ),
    ("not (value@1 = prev@1)", "value@1 != prev@1"),
    ("not value@1 != prev@1", "not value@1 != prev@1"),
    ("not (not value@1 = prev@1)", "not value@1 != prev@1"),
    ("not value@1 < prev@1", "not value@1 < prev@1"),
    ("value@2 != value@1", "value@1 != value@2"),
    (
        "value@1 = prev@1 and key@2 = value@2",
        "value@1 = prev@1 and key@2 = value@2",
    ),
    (
        "(value@1 = prev@1 or true) and false",
        "( value@1 = prev@1 or true ) and false",
    ),
    ("(true and false) and true", "true and false and true"),
    ("true and (false and true)", "true and ( false and true )"),
    ("true and (false or true)", "true and ( false or true )"),
    ("true or (false or true)", "true or ( false or true )"),
    ("(true or false) or true", "true or false or true"),
    ("true or (false and true)", "true or false and true"),
    ("(true and false) or true", "true and false or true"),
    ("not (true and false)", "not ( true and false )"),
    ("not (true or false)", "not ( true or false )"),
    ("not (not true)", "not not true"),
    (
        "(not true) and (not (key@2 = 1))",
        "not true and key@2 != 1",
    ),
];

fn check_lines(rt: &impl Abort, alloc: Global, rows: &[(&str, &str)]) {
    for (line, wanted) in rows {
        gives(rt, again(alloc, line), wanted, line.as_bytes());
    }
}

#[test]
fn writes_what_was_read(rt: HostRuntime) {
    check_lines(&rt, rt.alloc(), &LINES);
}

// The sort of each word.
fn sorts(alloc: Global, line: &str) -> Result<String, NoMemory> {
    let mut text = String::new(alloc);
    for word in words_in(alloc, line)?.items() {
        push_comma(&mut text)?;
        write!(text, "{:?}", word.sort)?;
    }
    Ok(text)
}

#[test]
fn tells_each_words_sort(rt: HostRuntime) {
    let line = "not (true and value@1 = \"(\")";
    let wanted = "Word, Open, Word, Word, Word, Word, Text, Close";
    gives(&rt, sorts(rt.alloc(), line), wanted, line.as_bytes());
}

const SORTS: [(&str, Sort); 5] = [
    ("Open", Sort::Open),
    ("Close", Sort::Close),
    ("Word", Sort::Word),
    ("Text", Sort::Text),
    ("Wrong", Sort::Wrong),
];

fn sort_of(rt: &impl Abort, sorts: &[(&str, Sort)], name: &str) -> Sort {
    for (word, sort) in sorts {
        if *word == name {
            return *sort;
        }
    }
    panic!(rt; "a sort")
}

// A sort, a space and the bytes.
fn word(rt: &impl Abort, alloc: Global, said: &str) -> Result<PrintedWord, NoMemory> {
    let (sort, text) = said.split_once(' ').expect(rt, "a word");
    let mut bytes = Bytes::new(alloc);
    bytes.append(text.as_bytes())?;
    let sort = sort_of(rt, &SORTS, sort);
    Ok(PrintedWord { sort, bytes })
}

fn words_said(rt: &impl Abort, alloc: Global, said: &str) -> Result<Vec<PrintedWord>, NoMemory> {
    let mut words = Vec::new(alloc);
    for part in said.split(", ") {
        if !part.is_empty() {
            words.push(word(rt, alloc, part)?)?;
        }
    }
    Ok(words)
}

// The text of the words, behind the front.
fn text_behind(alloc: Global, front: &str, words: &[PrintedWord]) -> Result<String, NoMemory> {
    let mut text = Bytes::new(alloc);
    text.append(front.as_bytes())?;
    append_text(&mut text, words)?;
    Ok(String::from_str(alloc, read_bytes(text.items()))?)
}

// What stands before, and the words with their sorts.
const TEXTS: [(&str, &str, &str); 14] = [
    ("", "", ""),
    ("", "Word true", "true"),
    ("", "Word prev@1, Word !=, Word key@2", "prev@1 != key@2"),
    (
        "",
        "Word not, Open (, Word a@1, Word =, Word 1, Word or, Word b@1, Word =, Word 2, Close )",
        "not (a@1 = 1 or b@1 = 2)",
    ),
    (
        "",
        "Open (, Open (, Word true, Close ), Word or, Word false, Close )",
        "((true) or false)",
    ),
    ("", "Open (, Close )", "()"),
    ("", "Close ), Open (", ") ("),
    ("", "Close ), Close )", "))"),
    (
        "",
        "Open (, Text \"(\", Word =, Text \") \", Close )",
        "(\"(\" = \") \")",
    ),
    ("", "Text \"a\", Text \"b\"", "\"a\" \"b\""),
    ("", "Word a, Wrong \t", "a \t"),
    ("", "Word not, Word true", "not true"),
    ("when ", "Word not, Word true", "when not true"),
    ("(", "Word not, Word true", "(not true"),
];

fn check_texts(rt: &impl Abort, alloc: Global, rows: &[(&str, &str, &str)]) {
    for (front, said, wanted) in rows {
        let words = words_said(rt, alloc, said).expect(rt, "memory");
        let found = text_behind(alloc, front, words.as_slice());
        gives(rt, found, wanted, said.as_bytes());
    }
}

#[test]
fn writes_words_one_space_apart(rt: HostRuntime) {
    law_of_texts();
    check_texts(&rt, rt.alloc(), &TEXTS);
}
