//! Formulas by their text: what is read of them, what it means, and the first thing that is wrong.
ghost use Rattle.std.specs.Prelude.{◌≡◌, ◌≤◌, length, IfOk};
ghost use Rattle.rd_ecl.specs.Formulas.{Fits, nodes, tree_of};

use crate::rows::gives;
use rd_base::{Name, NoMemory, Text, Value};
use rd_definitions::Definitions;
use rd_ecl::Formula;
use rd_formulas::{FormulaRefused, Scope, read_formula};
use rd_samples::{push_number, repeated};
use rd_tokens::{Dialect, tokens};
use std::alloc::Global;
use std::process::Abort;

/// What is said behind the first tokens of a line, of methods with these variables.
pub(crate) fn read(
    alloc: Global,
    line: &[u8],
    front: usize,
    first: &[Name],
    second: &[Name],
) -> Result<Formula, FormulaRefused>
    requires first { length first.now ≤ 7 }
    requires second { length second.now ≤ 7 }
    ensures fits { IfOk result (λ formula. Fits (tree_of formula) (length first.now) (length second.now)) }
    ensures few { IfOk result (λ formula. nodes (tree_of formula) ≤ 512) }
{
    if line.len() > 10_000 {
        return Err(FormulaRefused::NoMemory);
    }
    let found = tokens(alloc, line)?;
    if found.items().len() < front || found.items().len() > 512 + front {
        return Err(FormulaRefused::NoMemory);
    }
    let none = Definitions::new(alloc);
    let scope = Scope {
        dialect: Dialect::Sided,
        line,
        tokens: &found.items()[front..],
        first,
        second,
        first_definitions: &none,
        second_definitions: &none,
    };
    read_formula(alloc, &scope)
}

// What is said behind `commute put put when `, of the `put` of a dictionary.
fn said(alloc: Global, text: &str) -> Result<Formula, FormulaRefused>
    ensures fits { IfOk result (λ formula. Fits (tree_of formula) 3 3) }
    ensures few { IfOk result (λ formula. nodes (tree_of formula) ≤ 512) }
{
    let Ok(line) = format!(in alloc; "commute put put when {text}") else {
        return Err(FormulaRefused::NoMemory);
    };
    let put = [
        Name::from_bytes(b"key").unwrap(),
        Name::from_bytes(b"value").unwrap(),
        Name::from_bytes(b"prev").unwrap(),
    ];
    read(alloc, line.as_bytes(), 4, &put, &put)
}

// Its nodes and levels.
fn size(alloc: Global, text: &str) -> Result<(u32, u32), FormulaRefused> {
    let formula = said(alloc, text)?;
    Ok((formula.nodes(), formula.levels()))
}

// How large it is, or its refusal.
fn answer(alloc: Global, text: &str) -> Result<String, NoMemory> {
    let mut shown = String::new(alloc);
    match size(alloc, text) {
        Ok((nodes, levels)) => {
            push_number(&mut shown, "", nodes, " nodes, ")?;
            push_number(&mut shown, "", levels, " levels")?;
        }
        Err(refused) => write!(shown, "{refused:?}")?,
    }
    Ok(shown)
}

fn check_rows(rt: &impl Abort, alloc: Global, rows: &[(&str, &str)]) {
    for (text, wanted) in rows {
        gives(rt, answer(alloc, text), wanted, text.as_bytes());
    }
}

const ROWS: [(&str, &str); 53] = [
    ("true", "1 nodes, 1 levels"),
    ("key@1 != key@2", "1 nodes, 1 levels"),
    ("value@1 = prev@1", "1 nodes, 1 levels"),
    ("value@1 != prev@1", "2 nodes, 2 levels"),
    ("not value@1 != prev@1", "3 nodes, 3 levels"),
    ("not (value@1 != prev@1)", "3 nodes, 3 levels"),
    ("not true", "2 nodes, 2 levels"),
    ("value@1 = true", "1 nodes, 1 levels"),
    ("true = value@1", "1 nodes, 1 levels"),
    ("true != prev@2 and true", "4 nodes, 3 levels"),
    ("value@2 = \"a \\\"b\\\" (c) and\"", "1 nodes, 1 levels"),
    ("nil = prev@1 or -3 <= value@1", "3 nodes, 2 levels"),
    ("((true))", "1 nodes, 1 levels"),
    (
        "key@1 != key@2 or value@1 = prev@1 and value@2 = prev@2",
        "5 nodes, 3 levels",
    ),
    ("(key@1 != key@2 or true) and (false)", "5 nodes, 3 levels"),
    ("true or true or true", "5 nodes, 3 levels"),
    ("true or (true or true)", "5 nodes, 3 levels"),
    // too early an end
    ("", "Syntax { place: 22 }"),
    ("not", "Syntax { place: 25 }"),
    ("key@1 =", "Syntax { place: 29 }"),
    ("key@1", "Syntax { place: 27 }"),
    ("nil", "Syntax { place: 25 }"),
    ("(true", "Syntax { place: 27 }"),
    ("true or  ", "Syntax { place: 31 }"),
    // a wrong token
    ("true)", "Syntax { place: 26 }"),
    ("nil and true", "Syntax { place: 26 }"),
    ("key@1 and true", "Syntax { place: 28 }"),
    ("true and = 1", "Syntax { place: 31 }"),
    ("true true", "Syntax { place: 27 }"),
    ("key@1 = true = prev@1", "Syntax { place: 35 }"),
    ("key@1=1", "Syntax { place: 22 }"),
    ("(  key@1!=key@2 )", "Syntax { place: 25 }"),
    ("key@3 = 1", "Syntax { place: 22 }"),
    ("key@1 == 1", "Syntax { place: 28 }"),
    ("key = 1", "Syntax { place: 22 }"),
    ("key@1 = 07", "Syntax { place: 30 }"),
    ("key@1 = \"a", "Syntax { place: 30 }"),
    ("true\t", "Syntax { place: 26 }"),
    ("not not (true or) and b@1 = 1", "Syntax { place: 38 }"),
    // a variable that the method doesn't have
    ("b@1 = 1", "UnknownVariable { place: 22 }"),
    ("1 = key@1 or 1 < found@2", "UnknownVariable { place: 39 }"),
    ("1 = 2 and b@1 = 1", "UnknownVariable { place: 32 }"),
    // no variable
    ("1 = 2", "NoVariable { place: 24 }"),
    (
        "key@1 != key@2 and (nil < \"x\")",
        "NoVariable { place: 46 }",
    ),
    ("1 = 2 or key@1 = key@2", "NoVariable { place: 24 }"),
    // outside the fragment
    (
        "key@1 = key@2",
        "OutsideFragment { place: 28, reason: CrossRelation }",
    ),
    (
        "key@2 < key@1",
        "OutsideFragment { place: 28, reason: CrossRelation }",
    ),
    (
        "not (key@1 != key@2)",
        "OutsideFragment { place: 22, reason: NotOverCross }",
    ),
    (
        "key@1 != key@2 or value@1 != value@2",
        "OutsideFragment { place: 37, reason: OrOfCross }",
    ),
    (
        "not key@1 != key@2 or key@1 = key@2",
        "OutsideFragment { place: 22, reason: NotOverCross }",
    ),
    (
        "value@1 != prev@1 and key@1 = key@2",
        "OutsideFragment { place: 50, reason: CrossRelation }",
    ),
    (
        "key@1 != key@2 or not (true or value@2 != value@1)",
        "OutsideFragment { place: 40, reason: NotOverCross }",
    ),
    (
        "true and (key@2 != key@1 or value@1 != key@2 and true)",
        "OutsideFragment { place: 47, reason: OrOfCross }",
    ),
];

#[test]
fn formulas_that_are_read_and_refused(rt: HostRuntime) {
    check_rows(&rt, rt.alloc(), &ROWS);
}

// 64 nodes and 32 levels are the most that a pair's formula may have.
const LARGE: [(&str, &str, u32, &str, &str); 6] = [
    ("not true", " and true", 31, "", "64 nodes, 33 levels"),
    ("true", " and true", 32, "", "65 nodes, 33 levels"),
    ("true", " and true", 31, "", "63 nodes, 32 levels"),
    ("", "not ", 31, "true", "32 nodes, 32 levels"),
    ("", "not ", 32, "true", "33 nodes, 33 levels"),
    // 512 tokens, of which each second is an `and`, and one more
    ("not true", " and true", 255, "", "512 nodes, 257 levels"),
];

fn check_large(rt: &impl Abort, alloc: Global, rows: &[(&str, &str, u32, &str, &str)]) {
    for (front, words, count, behind, wanted) in rows {
        let text = repeated(alloc, front, words, *count, behind).expect(rt, "memory");
        gives(rt, answer(alloc, text.as_str()), wanted, wanted.as_bytes());
    }
}

#[test]
fn nodes_and_levels_at_their_limits(rt: HostRuntime) {
    check_large(&rt, rt.alloc(), &LARGE);
}

// Does the formula hold of two calls?
fn holds(rt: &impl Abort, alloc: Global, text: &str, a: &[Value; 3], b: &[Value; 3]) -> bool {
    let formula = said(alloc, text).expect(rt, text);
    formula.holds(a, b)
}

fn call(key: i64, value: i64, previous: i64) -> [Value; 3] {
    [Value::Int(key), Value::Int(value), Value::Int(previous)]
}

// The slots of both calls, and whether the formula holds of them.
type Calls = (&'static str, i64, i64, i64, i64, i64, i64, bool);

const CALLS: [Calls; 14] = [
    (
        "key@1 != key@2 or value@1 = prev@1 and value@2 = prev@2",
        1,
        5,
        5,
        1,
        6,
        6,
        true,
    ),
    (
        "key@1 != key@2 or value@1 = prev@1 and value@2 = prev@2",
        1,
        5,
        4,
        1,
        6,
        6,
        false,
    ),
    (
        "key@1 != key@2 or value@1 = prev@1 and value@2 = prev@2",
        1,
        5,
        4,
        2,
        6,
        1,
        true,
    ),
    ("not value@1 != prev@1", 1, 5, 5, 1, 2, 3, true),
    ("not value@1 != prev@1", 1, 5, 4, 1, 2, 2, false),
    ("value@2 < 3", 1, 9, 9, 1, 2, 9, true),
    ("value@2 < 3", 1, 2, 9, 1, 3, 9, false),
    ("3 <= value@1", 1, 3, 9, 1, 2, 9, true),
    ("key@2 != value@1", 4, 7, 1, 7, 4, 2, false),
    ("key@2 != value@1", 4, 7, 1, 4, 7, 2, true),
    ("true = value@1", 1, 1, 1, 1, 1, 1, false),
    ("false or true and false or true", 1, 1, 1, 1, 1, 1, true),
    (
        "(false or true) and (false or false)",
        1,
        1,
        1,
        1,
        1,
        1,
        false,
    ),
    ("not false and false", 1, 1, 1, 1, 1, 1, false),
];

fn check_calls(rt: &impl Abort, alloc: Global, rows: &[Calls]) {
    for (text, key, value, previous, key_2, value_2, previous_2, wanted) in rows {
        let (a, b) = (
            call(*key, *value, *previous),
            call(*key_2, *value_2, *previous_2),
        );
        assert!(rt; holds(rt, alloc, text, &a, &b) == *wanted, "{text}");
    }
}

#[test]
fn what_formulas_mean(rt: HostRuntime) {
    check_calls(&rt, rt.alloc(), &CALLS);
}

#[test]
fn what_a_text_means(rt: HostRuntime) {
    let said = "value@2 = \"a \\\"b\\\" (c) and\"";
    let text = Text::from_bytes(rt.alloc(), b"a \"b\" (c) and").expect(&rt, "a text");
    let (a, b) = (call(1, 2, 3), [Value::Nil, Value::Text(text), Value::Nil]);
    assert!(rt; holds(&rt, rt.alloc(), said, &a, &b));
    assert!(rt; !holds(&rt, rt.alloc(), said, &b, &a));
}
