//! Lines by their form: what they say, or their first wrong token.

use crate::rows::gives;
use rd_base::{Name, NoMemory};
use rd_ecl::{Method, Names};
use rd_grammar::{Leaf, Parsed};
use rd_lines::Stage::{self, Defaulted, Definitions, Methods, Outside, Pairs};
use rd_lines::{Form, FormRefused, Version, read_form};
use rd_samples::{push_number, read_bytes};
use rd_tokens::tokens;
use std::alloc::Global;
use std::process::Abort;

// The methods `put`, `get` and `size`.
fn declared(alloc: Global) -> Result<Vec<Method>, NoMemory> {
    let mut methods = Vec::new(alloc);
    for word in ["put", "get", "size"] {
        if let Ok(name) = Name::from_bytes(word.as_bytes()) {
            let variables = Names::new(alloc);
            methods.push(Method { name, variables })?;
        }
    }
    Ok(methods)
}

// What a line of at most 516 tokens says behind these methods.
#[tactic(auto, using(rd_lines::proofs::LineLemmas::short_line))]
fn read(alloc: Global, version: Version, stage: Stage, line: &str) -> Result<Form, FormRefused> {
    if line.len() > 10_000 {
        return Err(FormRefused::NoMemory);
    }
    let methods = declared(alloc)?;
    let found = tokens(alloc, line.as_bytes())?;
    if found.items().len() > 516 {
        return Err(FormRefused::NoMemory);
    }
    read_form(
        alloc,
        version,
        stage,
        methods.as_slice(),
        line.as_bytes(),
        found.items(),
    )
}

// What joins the parts of the formula, and the number of its token.
fn show_top(text: &mut String, formula: &Parsed) -> Result<(), NoMemory> {
    let (node, token) = match formula {
        Parsed::Leaf { leaf, token } => match leaf {
            Leaf::Truth(_) => (" by truth at ", token),
            Leaf::Name => (" by name at ", token),
        },
        Parsed::Relation { token, .. } => (" by relation at ", token),
        Parsed::Not { token, .. } => (" by not at ", token),
        Parsed::And { token, .. } => (" by and at ", token),
        Parsed::Or { token, .. } => (" by or at ", token),
    };
    push_number(text, node, *token, "")
}

// A name behind a word.
fn push_name(text: &mut String, word: &str, name: &Name) -> Result<(), NoMemory> {
    text.push_str(word)?;
    text.push_str(read_bytes(name.items()))?;
    Ok(())
}

fn push_names(text: &mut String, names: &Names) -> Result<(), NoMemory> {
    for name in names.items() {
        push_name(text, " ", name)?;
    }
    Ok(())
}

fn show(text: &mut String, form: &Form) -> Result<(), NoMemory> {
    match form {
        Form::Kind(name) => push_name(text, "kind ", name),
        Form::Method {
            name,
            arguments,
            result: answer,
        } => {
            push_name(text, "method ", name)?;
            text.push_str(":")?;
            push_names(text, arguments)?;
            push_name(text, " gives ", answer)
        }
        Form::Commute {
            first,
            second,
            formula,
        } => {
            push_name(text, "", first)?;
            push_name(text, " and ", second)?;
            show_top(text, formula)
        }
        Form::Define {
            method,
            name,
            formula,
        } => {
            push_name(text, "", method)?;
            push_name(text, " has ", name)?;
            show_top(text, formula)
        }
        Form::Default(value) => Ok(write!(text, "default {value}")?),
    }
}

// What reading the line gives.
fn answer(alloc: Global, version: Version, stage: Stage, line: &str) -> Result<String, NoMemory> {
    let mut text = String::new(alloc);
    match read(alloc, version, stage, line) {
        Ok(form) => show(&mut text, &form)?,
        Err(refused) => write!(text, "{refused}")?,
    }
    Ok(text)
}

const ROWS: [(Stage, &str, &str); 48] = [
    (Outside, "kind set", "kind set"),
    (Methods, "  kind   set  ", "kind set"),
    (Pairs, "kind kind", "kind kind"),
    (Methods, "method size -> n", "method size: gives n"),
    (
        Methods,
        "method put key value -> prev",
        "method put: key value gives prev",
    ),
    (Methods, "method true x -> x", "method true: x gives x"),
    (
        Methods,
        "method a.b:c$d#e@f-g -> r",
        "method a.b:c$d#e@f-g: gives r",
    ),
    (
        Methods,
        "commute put put when true",
        "put and put by truth at 0",
    ),
    (
        Pairs,
        "commute put size when not ( k@1 = k@2 ) or true",
        "put and size by or at 6",
    ),
    (
        Pairs,
        "commute when when when k@1 != k@2",
        "when and when by relation at 1",
    ),
    (
        Pairs,
        "commute other put when false and true",
        "other and put by and at 1",
    ),
    // with the number of tokens before the first wrong one
    (Outside, "", "wrong at token 0"),
    (Outside, "set", "wrong at token 0"),
    (Outside, "kinds set", "wrong at token 0"),
    (Outside, "\"kind\" set", "wrong at token 0"),
    (Outside, "method size -> n", "wrong at token 0"),
    (Pairs, "method size -> n", "wrong at token 0"),
    (Outside, "commute put put when true", "wrong at token 0"),
    (Outside, "kind", "wrong at token 1"),
    (Outside, "kind (", "wrong at token 1"),
    (Outside, "kind a+b", "wrong at token 1"),
    (Outside, "kind set set", "wrong at token 2"),
    (Methods, "method", "wrong at token 1"),
    (Methods, "method -> -> n", "wrong at token 1"),
    (Methods, "method ->", "wrong at token 1"),
    (Methods, "method size", "wrong at token 2"),
    (Methods, "method size key", "wrong at token 3"),
    (Methods, "method size when -> n", "wrong at token 2"),
    (Methods, "method size 1 -> n", "wrong at token 2"),
    (Methods, "method size key nil -> n", "wrong at token 3"),
    (Methods, "method size - > n", "wrong at token 2"),
    (Methods, "method size ->", "wrong at token 3"),
    (Methods, "method size -> true", "wrong at token 3"),
    (Methods, "method size -> ->", "wrong at token 3"),
    (
        Methods,
        "method put key value -> prev next",
        "wrong at token 6",
    ),
    (Pairs, "commute", "wrong at token 1"),
    (Pairs, "commute (", "wrong at token 1"),
    (Pairs, "commute put", "wrong at token 2"),
    (Pairs, "commute put )", "wrong at token 2"),
    (Pairs, "commute get put", "wrong at token 2"),
    (Pairs, "commute size get when true", "wrong at token 2"),
    (Pairs, "commute put get", "wrong at token 3"),
    (Pairs, "commute put get if true", "wrong at token 3"),
    (Pairs, "commute put get when", "wrong at token 4"),
    (Pairs, "commute put get when when", "wrong at token 4"),
    (Pairs, "commute put get when true or", "wrong at token 6"),
    (
        Pairs,
        "commute put get when k@1 = ( k@2 )",
        "wrong at token 6",
    ),
    (Pairs, "commute put get when true )", "wrong at token 5"),
];

fn check_rows(rt: &impl Abort, alloc: Global, version: Version, rows: &[(Stage, &str, &str)]) {
    for (stage, line, wanted) in rows {
        gives(
            rt,
            answer(alloc, version, *stage, line),
            wanted,
            line.as_bytes(),
        );
    }
}

#[test]
fn lines_that_are_right_and_wrong(rt: HostRuntime) {
    check_rows(&rt, rt.alloc(), Version::One, &ROWS);
}

// Definitions, defaults and used names, where they may stand and where not.
const OF_VERSION_2: [(Stage, &str, &str); 36] = [
    (
        Methods,
        "define put same when value = prev",
        "put has same by relation at 1",
    ),
    (
        Definitions,
        "define put none when not found and true",
        "wrong at token 6",
    ),
    (
        Definitions,
        "define when x when true",
        "when has x by truth at 0",
    ),
    (Defaulted, "define put same when true", "wrong at token 0"),
    (Pairs, "define put same when true", "wrong at token 0"),
    (Outside, "define put same when true", "wrong at token 0"),
    (Methods, "define", "wrong at token 1"),
    (Methods, "define \"put\" same when true", "wrong at token 1"),
    (Methods, "define put", "wrong at token 2"),
    (Methods, "define put same@1 when true", "wrong at token 2"),
    (Methods, "define put nil when true", "wrong at token 2"),
    (Methods, "define put 9 when true", "wrong at token 2"),
    (Methods, "define put same", "wrong at token 3"),
    (Methods, "define put same where true", "wrong at token 3"),
    (Methods, "define put same when", "wrong at token 4"),
    (
        Methods,
        "define put same when value@1 = 1",
        "wrong at token 4",
    ),
    (Methods, "define put same when value", "wrong at token 5"),
    (
        Methods,
        "define put same when value and true",
        "wrong at token 5",
    ),
    (Methods, "default true", "default true"),
    (Definitions, "  default  false ", "default false"),
    (Defaulted, "default false", "default false"),
    (Pairs, "default true", "wrong at token 0"),
    (Outside, "default true", "wrong at token 0"),
    (Methods, "default", "wrong at token 1"),
    (Methods, "default maybe", "wrong at token 1"),
    (Methods, "default (true)", "wrong at token 1"),
    (Defaulted, "default true true", "wrong at token 2"),
    (Definitions, "method put a -> r", "wrong at token 0"),
    (Defaulted, "method put a -> r", "wrong at token 0"),
    (Definitions, "kind next", "kind next"),
    (
        Defaulted,
        "commute put get when same@1",
        "put and get by name at 0",
    ),
    (
        Methods,
        "commute put put when same@1 and same@2",
        "put and put by and at 1",
    ),
    (
        Pairs,
        "commute put put when same@1 = 1 or a@2",
        "put and put by or at 3",
    ),
    (
        Pairs,
        "commute put put when same@1 same@2",
        "wrong at token 5",
    ),
    (Pairs, "commute put put when same", "wrong at token 4"),
    (Pairs, "commute put put when (same@1", "wrong at token 6"),
];

#[test]
fn lines_of_version_2(rt: HostRuntime) {
    check_rows(&rt, rt.alloc(), Version::Two, &OF_VERSION_2);
}

// The same are wrong in version 1.
const NOT_IN_VERSION_1: [(Stage, &str, &str); 5] = [
    (Methods, "define put same when true", "wrong at token 0"),
    (Methods, "default true", "wrong at token 0"),
    (Pairs, "commute put get when same@1", "wrong at token 5"),
    (
        Pairs,
        "commute put get when same@1 and true",
        "wrong at token 5",
    ),
    (Pairs, "commute put get when (same@1)", "wrong at token 6"),
];

#[test]
fn version_1_has_none_of_them(rt: HostRuntime) {
    check_rows(&rt, rt.alloc(), Version::One, &NOT_IN_VERSION_1);
}
