//! Texts of specifications that are printed again.

use crate::rows::gives;
use rd_base::{NoMemory, Value};
use rd_ecl::{Formula, KindSpec, Rel, Spec, Term};
use rd_print::{formula_text, law_of_printed_texts, print, print_kind};
use rd_samples::read_bytes;
use rd_spec::parse;
use std::alloc::Global;
use std::process::Abort;

const BARE: &str = "rdspec 1\nkind k";

// The methods of a cell: `put` answers what was there, `get` what is there.
const CELL: &str = "rdspec 1\nkind cell\nmethod put value -> prev\nmethod get -> value\n\
    commute put put when (value@1 = prev@1) and (value@2 = prev@2)\n\
    commute put get when not (not (value@1 = prev@1))\ncommute get get when (true)\n";

// A kind of maps: `put` takes a key and a value, and answers the value that was there.
const MAP: &str =
    "rdspec 1\nkind map.1\nmethod put key value -> prev\ncommute put put when (key@1 != key@2)\n";

const LOG: &str = "rdspec 1\nkind log\nmethod add text -> done\n\
    commute add add when ((text@1 = done@1) or (false)) and ((true) or (text@2 = \"a \\\"(\\\"\"))\n";

const MAP_AND_LOG: &str =
    "rdspec 1\nkind map.1\nmethod put key value -> prev\ncommute put put when (key@1 != key@2)\n\
    kind log\nmethod add text -> done\n\
    commute add add when ((text@1 = done@1) or (false)) and ((true) or (text@2 = \"a \\\"(\\\"\"))\n";

fn read(alloc: Global, text: &str) -> Result<Spec, NoMemory> {
    parse(alloc, text.as_bytes(), &[]).map_err(|_| NoMemory)
}

// The text that is printed.
fn printed(alloc: Global, text: &str) -> Result<String, NoMemory> {
    let spec = read(alloc, text)?;
    let found = print(alloc, &spec)?;
    Ok(String::from_str(alloc, read_bytes(found.items()))?)
}

const PRINTED_CELL: &str = "rdspec 1\nkind cell\nmethod put value -> prev\nmethod get -> value\n\
    commute put put when value@1 = prev@1 and value@2 = prev@2\n\
    commute put get when not value@1 != prev@1\ncommute get get when true\n";

const TEXTS: [(&str, &str); 6] = [
    ("rdspec 1", "rdspec 1\n"),
    (BARE, "rdspec 1\nkind k\n"),
    (CELL, PRINTED_CELL),
    (
        MAP_AND_LOG,
        "rdspec 1\nkind map.1\nmethod put key value -> prev\ncommute put put when key@1 != key@2\n\
         kind log\nmethod add text -> done\n\
         commute add add when (text@1 = done@1 or false) and (true or text@2 = \"a \\\"(\\\"\")\n",
    ),
    (
        "rdspec 1\nkind cell\nmethod put value -> prev\nmethod get -> value\ncommute get get when (true)\n\
         commute put get when not (value@1 != prev@1)\ncommute put put when ( value@1 = prev@1 ) and value@2 = prev@2\n",
        PRINTED_CELL,
    ),
    (PRINTED_CELL, PRINTED_CELL),
];

fn check_texts(rt: &impl Abort, alloc: Global, rows: &[(&str, &str)]) {
    for (text, wanted) in rows {
        gives(rt, printed(alloc, text), wanted, text.as_bytes());
    }
}

#[test]
fn prints_specifications(rt: HostRuntime) {
    law_of_printed_texts();
    check_texts(&rt, rt.alloc(), &TEXTS);
}

// The text of the first kind that is printed.
fn printed_kind(alloc: Global, text: &str) -> Result<String, NoMemory> {
    let spec = read(alloc, text)?;
    let found = match spec.kinds().first() {
        Some(kind) => print_kind(alloc, kind)?,
        None => return Err(NoMemory),
    };
    Ok(String::from_str(alloc, read_bytes(found.items()))?)
}

const KINDS: [(&str, &str); 2] = [
    (BARE, "rdspec 1\nkind k\n"),
    (
        MAP,
        "rdspec 1\nkind map.1\nmethod put key value -> prev\ncommute put put when key@1 != key@2\n",
    ),
];

fn check_kinds(rt: &impl Abort, alloc: Global, rows: &[(&str, &str)]) {
    for (text, wanted) in rows {
        gives(rt, printed_kind(alloc, text), wanted, text.as_bytes());
    }
}

#[test]
fn prints_one_kind(rt: HostRuntime) {
    check_kinds(&rt, rt.alloc(), &KINDS);
}

// What a node of a formula is.
fn node(formula: &Formula) -> &'static str {
    match formula {
        Formula::True => "True",
        Formula::False => "False",
        Formula::Atom { .. } => "Atom",
        Formula::Cross { .. } => "Cross",
        Formula::Mixed { .. } => "Mixed",
        Formula::Not(_) => "Not",
        Formula::And(_, _) => "And",
        Formula::Or(_, _) => "Or",
    }
}

// The formulas below one, the second only of `and` and `or`.
fn below(formula: &Formula) -> (Option<&Formula>, Option<&Formula>) {
    match formula {
        Formula::Not(inner) => (Some(inner), None),
        Formula::And(left, right) | Formula::Or(left, right) => (Some(left), Some(right)),
        _ => (None, None),
    }
}

fn show_term(text: &mut String, term: &Term) -> Result<(), NoMemory> {
    match term {
        Term::Slot(slot) => write!(text, "Slot({slot})")?,
        Term::Const(Value::Text(value)) => {
            write!(text, "Const(Text(Text {{ bytes: {:?} }}))", value.items())?
        }
        Term::Const(_) => text.push_str("Const")?,
    }
    Ok(())
}

// A formula without those below it.
fn show_leaf(text: &mut String, formula: &Formula) -> Result<(), NoMemory> {
    match formula {
        Formula::Atom {
            side,
            rel,
            left,
            right,
        } => {
            let rel = match rel {
                Rel::Eq => "Eq",
                Rel::Lt => "Lt",
                Rel::Le => "Le",
            };
            write!(text, "Atom {{ side: {side:?}, rel: {rel}, left: ")?;
            show_term(text, left)?;
            text.push_str(", right: ")?;
            show_term(text, right)?;
            text.push_str(" }")?;
        }
        Formula::Cross { first, second } => {
            write!(text, "Cross {{ first: {first}, second: {second} }}")?
        }
        _ => text.push_str(node(formula))?,
    }
    Ok(())
}

// A formula with those right below it.
fn show_inner(text: &mut String, formula: &Formula) -> Result<(), NoMemory> {
    let (Some(first), second) = below(formula) else {
        return show_leaf(text, formula);
    };
    text.push_str(node(formula))?;
    text.push_str("(")?;
    show_leaf(text, first)?;
    if let Some(second) = second {
        text.push_str(", ")?;
        show_leaf(text, second)?;
    }
    Ok(text.push_str(")")?)
}

// A formula that has at most two others above each of its relations.
fn show_tree(text: &mut String, formula: &Formula) -> Result<(), NoMemory> {
    let (Some(first), second) = below(formula) else {
        return show_leaf(text, formula);
    };
    text.push_str(node(formula))?;
    text.push_str("(")?;
    show_inner(text, first)?;
    if let Some(second) = second {
        text.push_str(", ")?;
        show_inner(text, second)?;
    }
    Ok(text.push_str(")")?)
}

// The text of a pair, and its formula as a tree.
fn pair_of(alloc: Global, kind: &KindSpec, first: u8, second: u8) -> Result<String, NoMemory> {
    if first > second || usize::from(second) >= kind.methods().len() {
        return Err(NoMemory);
    }
    let found = formula_text(alloc, kind, first, second)?;
    let mut shown = String::from_str(alloc, read_bytes(found.items()))?;
    shown.push_str(": ")?;
    show_tree(&mut shown, kind.formula(first, second))?;
    Ok(shown)
}

// The same of the first kind of a text.
fn pair(alloc: Global, text: &str, first: u8, second: u8) -> Result<String, NoMemory> {
    let spec = read(alloc, text)?;
    match spec.kinds().first() {
        Some(kind) => pair_of(alloc, kind, first, second),
        None => Err(NoMemory),
    }
}

const PAIRS: [(&str, u8, u8, &str); 5] = [
    (
        CELL,
        0,
        0,
        "put put when value@1 = prev@1 and value@2 = prev@2: And(Atom { side: First, rel: Eq, left: Slot(0), right: Slot(1) }, Atom { side: Second, rel: Eq, left: Slot(0), right: Slot(1) })",
    ),
    (
        CELL,
        0,
        1,
        "put get when not value@1 != prev@1: Not(Not(Atom { side: First, rel: Eq, left: Slot(0), right: Slot(1) }))",
    ),
    (CELL, 1, 1, "get get when true: True"),
    (
        LOG,
        0,
        0,
        "add add when (text@1 = done@1 or false) and (true or text@2 = \"a \\\"(\\\"\"): And(Or(Atom { side: First, rel: Eq, left: Slot(0), right: Slot(1) }, False), Or(True, Atom { side: Second, rel: Eq, left: Slot(0), right: Const(Text(Text { bytes: [97, 32, 34, 40, 34] })) }))",
    ),
    (
        MAP,
        0,
        0,
        "put put when key@1 != key@2: Cross { first: 0, second: 0 }",
    ),
];

fn check_pairs(rt: &impl Abort, alloc: Global, rows: &[(&str, u8, u8, &str)]) {
    for (text, first, second, wanted) in rows {
        gives(
            rt,
            pair(alloc, text, *first, *second),
            wanted,
            wanted.as_bytes(),
        );
    }
}

#[test]
fn writes_one_pair(rt: HostRuntime) {
    check_pairs(&rt, rt.alloc(), &PAIRS);
}
