//! Texts of version 2: definitions, defaults and used names, their causes, and the limits behind expansion.

use crate::judging::{answer, check_rows};
use crate::rows::gives;
use rd_samples::repeated;
use std::alloc::Global;
use std::process::Abort;

const CELL: &str = "rdspec 2\nkind cell\nmethod put value -> prev\nmethod get -> value";

const RIGHT: [(&str, &str); 9] = [
    (
        "define put same when value = prev\ndefault true\ncommute put put when same@1 and same@2\ncommute put get when same@1",
        "1 kinds",
    ),
    ("default false", "1 kinds"),
    ("default true\nkind next", "2 kinds"),
    (
        "default true\nkind next\nmethod m -> r\ndefault false",
        "2 kinds",
    ),
    (
        "define put same when true\ndefine get same when value = 1\ndefault true\ncommute put get when same@1 or same@2",
        "1 kinds",
    ),
    (
        "commute put put when true\ncommute put get when true\ncommute get get when true",
        "1 kinds",
    ),
    (
        "define put a when value = 1 and not (prev = nil or 2 < value)\ndefault true\ncommute put put when (a@2 or not a@1) and value@1 != value@2",
        "1 kinds",
    ),
    // the names of methods and kinds are apart from those of definitions
    (
        "define put put when true\ndefine put cell when true\ndefault true",
        "1 kinds",
    ),
    // it isn't used
    ("define get odd when value = 1\ndefault true", "1 kinds"),
];

const REFUSED: [(&str, &str); 44] = [
    // definitions
    ("define post same when true", "5 8 UnknownMethod"),
    ("define put same when val = 1", "5 22 UnknownVariable"),
    ("define get same when prev = 1", "5 22 UnknownVariable"),
    ("define put same when 1 = 2", "5 24 NoVariable"),
    ("define put value when true", "5 12 Duplicate"),
    ("define put prev when true", "5 12 Duplicate"),
    (
        "define put same when true\ndefine put same when true",
        "6 12 Duplicate",
    ),
    ("define put same when value@1 = 1", "5 22 Syntax"),
    ("define put same when value", "5 27 Syntax"),
    (
        "define put same when true\ndefine put both when same",
        "6 26 Syntax",
    ),
    (
        "define put same when true\ndefine put both when same = 1",
        "6 22 UnknownVariable",
    ),
    // the first of two
    ("define post value when val = 1", "5 8 UnknownMethod"),
    ("define post same when 1 = 2", "5 8 UnknownMethod"),
    ("define put value when val = 1", "5 23 UnknownVariable"),
    ("define put value when 1 = 2", "5 25 NoVariable"),
    (
        "define put same when 1 = 2 and val = 1",
        "5 32 UnknownVariable",
    ),
    // used names
    ("commute put get when other@1", "5 22 UnknownVariable"),
    ("commute put get when value@1", "5 22 UnknownVariable"),
    (
        "define put same when true\ncommute put get when same@2",
        "6 22 UnknownVariable",
    ),
    (
        "define get full when value = 1\ncommute put get when full@1",
        "6 22 UnknownVariable",
    ),
    (
        "define put same when true\ncommute put get when same@1 = 1",
        "6 22 UnknownVariable",
    ),
    (
        "define put same when true\ncommute put get when same@1 and val@1 = 1",
        "6 33 UnknownVariable",
    ),
    (
        "commute put get when 1 = 2 or other@1",
        "5 31 UnknownVariable",
    ),
    (
        "define put same when true\ncommute put get when same@1 and 1 = 2",
        "6 35 NoVariable",
    ),
    ("commute put get when same", "5 22 Syntax"),
    // outside the fragment, at the same word as without a name
    (
        "define put same when true\ncommute put put when same@1 or value@1 = value@2",
        "6 40 OutsideFragment(CrossRelation)",
    ),
    (
        "define put same when value = 1 and prev = 2\ncommute put put when not (same@1 and value@1 != value@2)",
        "6 22 OutsideFragment(NotOverCross)",
    ),
    (
        "define put same when value = 1 and prev = 2\ncommute put put when value@1 != value@2 and same@1 or value@1 != prev@2",
        "6 52 OutsideFragment(OrOfCross)",
    ),
    (
        "commute put put when true\ncommute put put when value@1 = value@2",
        "6 30 OutsideFragment(CrossRelation)",
    ),
    // defaults
    ("default true\ndefault true", "6 1 Duplicate"),
    ("default true\n  default false", "6 3 Duplicate"),
    ("default true\ndefault maybe", "6 9 Syntax"),
    ("default true\ndefault true true", "6 14 Syntax"),
    (
        "default true\ncommute put put when true\ndefault true",
        "7 1 Syntax",
    ),
    ("commute put put when true\ndefault true", "6 1 Syntax"),
    ("default", "5 8 Syntax"),
    // the order of lines
    ("default true\nmethod m -> r", "6 1 Syntax"),
    ("default true\ndefine put a when true", "6 1 Syntax"),
    ("define put a when true\nmethod m -> r", "6 1 Syntax"),
    (
        "commute put put when true\ndefine put a when true",
        "6 1 Syntax",
    ),
    ("rdspec 2", "5 1 Syntax"),
    // a default leaves no pair missing, and a pair with a line may not have another
    ("kind next", "5 0 MissingPair put put"),
    (
        "commute put put when true\ncommute get get when true",
        "end 0 MissingPair put get",
    ),
    (
        "default true\ncommute put get when true\ncommute put get when true",
        "7 9 Duplicate",
    ),
];

#[test]
fn texts_of_version_2(rt: HostRuntime) {
    check_rows(&rt, rt.alloc(), CELL, 5, &RIGHT);
    check_rows(&rt, rt.alloc(), CELL, 5, &REFUSED);
}

const OUTSIDE: [(&str, &str); 4] = [
    ("default true", "2 1 Syntax"),
    ("define put same when true", "2 1 Syntax"),
    ("kind e\ndefault true", "1 kinds"),
    ("kind e\ndefine m same when true", "3 8 UnknownMethod"),
];

#[test]
fn outside_of_a_kind(rt: HostRuntime) {
    check_rows(&rt, rt.alloc(), "rdspec 2", 2, &OUTSIDE);
}

// The lines with one relation and so many more behind it, then the rest. A definition of n relations has 2 n - 1 nodes on n levels.
const LIMITS: [(&str, u32, &str, &str); 16] = [
    // a definition of its own: 63 nodes, 64, 65; 32 levels, 33
    (
        "define put a when value = prev",
        31,
        "\ndefault true",
        "1 kinds",
    ),
    (
        "define put a when (true or true) and value = prev",
        29,
        "\ndefault true",
        "1 kinds",
    ),
    (
        "define put a when value = prev",
        32,
        "",
        "5 14 Limit(Nodes, 64)",
    ),
    (
        "define put a when not (value = prev",
        31,
        ")",
        "5 14 Limit(FormulaDepth, 32)",
    ),
    // before a name that is there
    (
        "define put value when value = prev",
        32,
        "",
        "5 12 Duplicate",
    ),
    // a pair: 63 nodes, 64, 65, each with two uses
    (
        "define put a when value = prev",
        15,
        "\ndefault true\ncommute put put when a@1 and a@2",
        "1 kinds",
    ),
    (
        "define put b when value = prev\ndefine put a when value = prev",
        15,
        "\ndefault true\ncommute put put when a@1 and not a@2",
        "1 kinds",
    ),
    (
        "define put b when true\ndefine put a when value = prev",
        15,
        "\ndefault true\ncommute put put when not a@1 and not a@2",
        "8 17 Limit(Nodes, 64)",
    ),
    (
        "define put a when value = prev",
        16,
        "\ndefault true\ncommute put put when a@1 and a@2",
        "7 17 Limit(Nodes, 64)",
    ),
    // levels: 16 of the name, and 16 or 17 above it
    (
        "define put a when value = prev",
        15,
        "\ndefault true\ncommute put put when not not not not not not not not not not not not not not not not a@1",
        "1 kinds",
    ),
    (
        "define put a when value = prev",
        15,
        "\ndefault true\ncommute put put when not not not not not not not not not not not not not not not not not a@1",
        "7 17 Limit(FormulaDepth, 32)",
    ),
    // nodes before levels, and a pair that is there before both
    (
        "define put a when value = prev",
        31,
        "\ndefault true\ncommute put put when not not a@1",
        "7 17 Limit(Nodes, 64)",
    ),
    (
        "define put a when value = prev",
        31,
        "\ncommute put put when true\ncommute put put when a@1 and a@2",
        "7 9 Duplicate",
    ),
    // what is outside the fragment is told before the size
    (
        "define put a when value = prev",
        31,
        "\ncommute put put when a@1 and a@2 and value@1 = value@2",
        "6 46 OutsideFragment(CrossRelation)",
    ),
    // predicates of put: five by names, then a sixth; a definition alone counts none
    (
        "define put a when value = 1 and value = 2 and value = 3 and value = 4 and value = prev",
        1,
        "\ndefault true\ncommute put put when a@1\ncommute put get when value@1 = 5",
        "8 17 Limit(Predicates, 5)",
    ),
    (
        "define put a when value = 1 and value = 2 and value = 3 and value = 4 and value = 5 and value = 6 and value = prev",
        1,
        "\ndefault true\ncommute put get when not a@1",
        "7 17 Limit(Predicates, 5)",
    ),
];

fn check_limits(rt: &impl Abort, alloc: Global, rows: &[(&str, u32, &str, &str)]) {
    for (front, count, rest, wanted) in rows {
        let text = repeated(alloc, front, " and value = prev", *count, rest).expect(rt, "memory");
        gives(
            rt,
            answer(alloc, CELL, 5, text.as_str()),
            wanted,
            front.as_bytes(),
        );
    }
}

#[test]
fn limits_behind_expansion(rt: HostRuntime) {
    check_limits(&rt, rt.alloc(), &LIMITS);
}

// So many tokens behind the `when`, in both versions.
const LONG: [(&str, u32, &str, &str); 5] = [
    (
        "define m n when",
        513,
        "2 12 Limit(Tokens, 512)",
        "2 1 Syntax",
    ),
    (
        "define ( m  when",
        600,
        "2 13 Limit(Tokens, 512)",
        "2 1 Syntax",
    ),
    ("define m n when", 512, "2 1 Syntax", "2 1 Syntax"),
    ("default m n when", 600, "2 1 Syntax", "2 1 Syntax"),
    (
        "commute m n when",
        513,
        "2 13 Limit(Tokens, 512)",
        "2 13 Limit(Tokens, 512)",
    ),
];

fn check_long(rt: &impl Abort, alloc: Global, rows: &[(&str, u32, &str, &str)]) {
    for (front, count, second, first) in rows {
        let line = repeated(alloc, front, " (", *count, "").expect(rt, "memory");
        gives(
            rt,
            answer(alloc, "rdspec 2", 2, line.as_str()),
            second,
            front.as_bytes(),
        );
        gives(
            rt,
            answer(alloc, "rdspec 1", 2, line.as_str()),
            first,
            front.as_bytes(),
        );
    }
}

#[test]
fn tokens_of_a_definition(rt: HostRuntime) {
    check_long(&rt, rt.alloc(), &LONG);
}
