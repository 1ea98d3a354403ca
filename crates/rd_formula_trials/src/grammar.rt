//! Formulas by their marks: what is read of them, and the first wrong mark.
ghost use Rattle.std.specs.Prelude.{◌≤◌, length};

use crate::rows::gives;
use rd_base::{MOST_TOKENS, NoMemory};
use rd_grammar::{Leaf, Mark, Parsed, Sign, Symbol, parse_formula};
use rd_samples::{push_number, push_times, repeated};
use std::alloc::Global;
use std::process::Abort;

const SYMBOLS: [(&str, Symbol); 13] = [
    ("(", Symbol::Open),
    (")", Symbol::Close),
    ("not", Symbol::Not),
    ("and", Symbol::And),
    ("or", Symbol::Or),
    ("true", Symbol::Leaf(Leaf::Truth(true))),
    ("false", Symbol::Leaf(Leaf::Truth(false))),
    ("name", Symbol::Leaf(Leaf::Name)),
    ("=", Symbol::Sign(Sign::Equal)),
    ("!=", Symbol::Sign(Sign::Different)),
    ("<", Symbol::Sign(Sign::Less)),
    ("<=", Symbol::Sign(Sign::AtMost)),
    ("?", Symbol::Other),
];

// What the word is. A word that is nothing else is a term.
fn symbol_of(symbols: &[(&str, Symbol)], word: &str) -> Symbol {
    for (text, symbol) in symbols {
        if *text == word {
            return *symbol;
        }
    }
    Symbol::Term
}

// The marks of words with a space between them, numbered from 0.
fn marks_of(alloc: Global, words: &str) -> Result<Vec<Mark>, NoMemory> {
    let mut marks = Vec::new(alloc);
    let mut token = 0;
    for word in words.split(' ') {
        if word.is_empty() || token == u32::MAX {
            continue;
        }
        let symbol = symbol_of(&SYMBOLS, word);
        marks.push(Mark { symbol, token })?;
        token += 1;
    }
    Ok(marks)
}

fn show_relation(
    text: &mut String,
    left: u32,
    sign: Sign,
    token: u32,
    right: u32,
) -> Result<(), NoMemory> {
    push_number(text, "[", left, " ")?;
    write!(text, "{sign:?}")?;
    push_number(text, "@", token, " ")?;
    push_number(text, "", right, "]")
}

// What stands before the number of its token.
fn word_of(formula: &Parsed) -> &'static str {
    match formula {
        Parsed::Leaf { leaf, .. } => match leaf {
            Leaf::Truth(true) => "true@",
            Leaf::Truth(false) => "false@",
            Leaf::Name => "name@",
        },
        Parsed::Relation { .. } => "@",
        Parsed::Not { .. } => "not@",
        Parsed::And { .. } => " and@",
        Parsed::Or { .. } => " or@",
    }
}

// The formula with all its parentheses, and the number of each node's token behind an @.
fn show(text: &mut String, formula: &Parsed) -> Result<(), NoMemory> {
    match formula {
        Parsed::Leaf { token, .. } => push_number(text, word_of(formula), *token, ""),
        Parsed::Relation {
            left,
            sign,
            token,
            right,
        } => show_relation(text, *left, *sign, *token, *right),
        Parsed::Not { token, inner } => {
            push_number(text, word_of(formula), *token, " ")?;
            show(text, inner)
        }
        Parsed::And { left, token, right } | Parsed::Or { left, token, right } => {
            text.push_str("(")?;
            show(text, left)?;
            push_number(text, word_of(formula), *token, " ")?;
            show(text, right)?;
            Ok(text.push_str(")")?)
        }
    }
}

// What reading the marks gives.
fn read(alloc: Global, marks: &[Mark]) -> Result<String, NoMemory>
    requires { length marks.now ≤ MOST_TOKENS }
{
    let mut text = String::new(alloc);
    match parse_formula(alloc, marks) {
        Ok(formula) => show(&mut text, &formula)?,
        Err(refused) => write!(text, "{refused}")?,
    }
    Ok(text)
}

fn answer(alloc: Global, words: &str) -> Result<String, NoMemory> {
    let marks = marks_of(alloc, words)?;
    if marks.len() > MOST_TOKENS {
        return Err(NoMemory);
    }
    read(alloc, marks.as_slice())
}

fn check_rows(rt: &impl Abort, alloc: Global, rows: &[(&str, &str)]) {
    for (words, wanted) in rows {
        gives(rt, answer(alloc, words), wanted, words.as_bytes());
    }
}

const ROWS: [(&str, &str); 53] = [
    ("true", "true@0"),
    ("false", "false@0"),
    ("a = b", "[0 Equal@1 2]"),
    ("a != b", "[0 Different@1 2]"),
    ("a < b", "[0 Less@1 2]"),
    ("a <= b", "[0 AtMost@1 2]"),
    ("true = true", "[0 Equal@1 2]"),
    ("true = a", "[0 Equal@1 2]"),
    ("a != false", "[0 Different@1 2]"),
    ("( a = b )", "[1 Equal@2 3]"),
    ("not a = b", "not@0 [1 Equal@2 3]"),
    ("not not true", "not@0 not@1 true@2"),
    ("not ( true or false )", "not@0 (true@2 or@3 false@4)"),
    ("not true and false", "(not@0 true@1 and@2 false@3)"),
    ("not true or false", "(not@0 true@1 or@2 false@3)"),
    ("true and not false", "(true@0 and@1 not@2 false@3)"),
    ("a = b and c = d", "([0 Equal@1 2] and@3 [4 Equal@5 6])"),
    (
        "a = b or c = d and e = f",
        "([0 Equal@1 2] or@3 ([4 Equal@5 6] and@7 [8 Equal@9 10]))",
    ),
    (
        "a = b and c = d or e = f",
        "(([0 Equal@1 2] and@3 [4 Equal@5 6]) or@7 [8 Equal@9 10])",
    ),
    (
        "true and false and true",
        "((true@0 and@1 false@2) and@3 true@4)",
    ),
    (
        "true or false or true",
        "((true@0 or@1 false@2) or@3 true@4)",
    ),
    (
        "true and ( false and true )",
        "(true@0 and@1 (false@3 and@4 true@5))",
    ),
    (
        "true or ( false or true )",
        "(true@0 or@1 (false@3 or@4 true@5))",
    ),
    (
        "( true or false ) and true",
        "((true@1 or@2 false@3) and@5 true@6)",
    ),
    ("true = a and false", "([0 Equal@1 2] and@3 false@4)"),
    (
        "true or false and a < b or true",
        "((true@0 or@1 (false@2 and@3 [4 Less@5 6])) or@7 true@8)",
    ),
    // with the number of marks before the first wrong one
    ("", "wrong at mark 0"),
    ("not", "wrong at mark 1"),
    ("(", "wrong at mark 1"),
    ("a", "wrong at mark 1"),
    ("a =", "wrong at mark 2"),
    ("true =", "wrong at mark 2"),
    ("true and", "wrong at mark 2"),
    ("( true", "wrong at mark 2"),
    ("true )", "wrong at mark 1"),
    ("( true ) )", "wrong at mark 3"),
    ("true and = a", "wrong at mark 2"),
    ("a = true = b", "wrong at mark 3"),
    ("true = a = b", "wrong at mark 3"),
    ("a and true", "wrong at mark 1"),
    ("a )", "wrong at mark 1"),
    ("a b", "wrong at mark 1"),
    ("a = b c", "wrong at mark 3"),
    ("true true", "wrong at mark 1"),
    ("true a", "wrong at mark 1"),
    ("true not", "wrong at mark 1"),
    ("true ( true )", "wrong at mark 1"),
    ("( )", "wrong at mark 1"),
    ("or true", "wrong at mark 0"),
    ("= a", "wrong at mark 0"),
    ("a < ( b )", "wrong at mark 2"),
    ("? = a", "wrong at mark 0"),
    ("true ?", "wrong at mark 1"),
];

#[test]
fn reads(rt: HostRuntime) {
    check_rows(&rt, rt.alloc(), &ROWS);
}

// `true` with so many parentheses before and behind it.
const NESTED: [(u32, u32, &str); 3] = [
    (200, 200, "true@200"),
    (200, 199, "wrong at mark 400"),
    (200, 201, "wrong at mark 401"),
];

fn nested(alloc: Global, opens: u32, closes: u32) -> Result<String, NoMemory> {
    let mut words = repeated(alloc, "", "( ", opens, "true")?;
    push_times(&mut words, " )", closes)?;
    answer(alloc, words.as_str())
}

fn check_nested(rt: &impl Abort, alloc: Global, rows: &[(u32, u32, &str)]) {
    for (opens, closes, wanted) in rows {
        gives(
            rt,
            nested(alloc, *opens, *closes),
            wanted,
            wanted.as_bytes(),
        );
    }
}

#[test]
fn nests(rt: HostRuntime) {
    check_nested(&rt, rt.alloc(), &NESTED);
}
