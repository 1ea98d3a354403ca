//! Lines of pairs in a kind that has one: what they say, or the first thing that is wrong beside their form.
ghost use Rattle.std.specs.Prelude.{IfOk};
ghost use Rattle.rd_ecl.specs.Formulas.{tree_of};
ghost use Rattle.rd_ecl.specs.Specified.{MayPair};

use crate::judging::read;
use crate::rows::gives;
use rd_base::NoMemory;
use rd_lines::{Form, Stage, Version, read_form};
use rd_open_kind::OpenKind;
use rd_pairs::{Pair, judge_pair};
use rd_reading::{Known, SpecLineRefused};
use rd_samples::{push_cause, push_number, repeated};
use rd_tokens::tokens;
use std::alloc::Global;
use std::process::Abort;

// What judging a line of a pair gives.
fn judge(alloc: Global, opened: &OpenKind, line: &[u8]) -> Result<Pair, SpecLineRefused>
    ensures { IfOk result (λ pair. MayPair opened.now.kind pair.first pair.second (tree_of pair.formula)) }
{
    if line.len() > 10_000 {
        return Err(SpecLineRefused::NoMemory);
    }
    let found = tokens(alloc, line)?;
    if found.items().len() > 516 {
        return Err(SpecLineRefused::NoMemory);
    }
    match read_form(
        alloc,
        Version::One,
        Stage::Methods,
        opened.draft().methods(),
        line,
        found.items(),
    ) {
        Ok(
            Form::Commute {
                first,
                second,
                formula,
            },
        ) => judge_pair(
            alloc,
            Version::One,
            opened,
            line,
            found.items(),
            (&first, &second),
            &formula,
        ),
        _ => Err(SpecLineRefused::NoMemory),
    }
}

// The methods of the pair, and how many nodes its formula has.
fn size(alloc: Global, opened: &OpenKind, line: &[u8]) -> Result<(u8, u8, u32), SpecLineRefused> {
    let pair = judge(alloc, opened, line)?;
    Ok((pair.first, pair.second, pair.formula.nodes()))
}

// What was found, in words.
fn shown(alloc: Global, opened: &OpenKind, line: &str) -> Result<String, NoMemory> {
    let mut text = String::new(alloc);
    match size(alloc, opened, line.as_bytes()) {
        Ok((first, second, nodes)) => {
            push_number(&mut text, "", u32::from(first), " and ")?;
            push_number(&mut text, "", u32::from(second), " by ")?;
            push_number(&mut text, "", nodes, " nodes")?;
        }
        Err(SpecLineRefused::Fault(fault)) => push_cause(&mut text, fault.place, &fault.cause)?,
        Err(SpecLineRefused::NoMemory) => return Err(NoMemory),
    }
    Ok(text)
}

const THINGS: &str = "rdspec 1\nkind things\nmethod m a -> r\nmethod p x y -> z\nmethod s -> v";

// What is found in a line of a pair, behind a line that sets another one.
fn answer(alloc: Global, before: &str, line: &str) -> Result<String, NoMemory> {
    let mut known = Known::new(alloc);
    if read(alloc, &mut known, THINGS, 1).is_some()
        || read(alloc, &mut known, before, 6).is_some()
    {
        return Err(NoMemory);
    }
    match &known.block {
        Some(block) => shown(alloc, &block.opened, line),
        None => Err(NoMemory),
    }
}

fn check_rows(rt: &impl Abort, alloc: Global, before: &str, rows: &[(&str, &str)]) {
    for (line, wanted) in rows {
        gives(rt, answer(alloc, before, line), wanted, line.as_bytes());
    }
}

const RIGHT: [(&str, &str); 6] = [
    ("commute m m when true", "0 and 0 by 1 nodes"),
    ("commute m p when a@1 != x@2", "0 and 1 by 1 nodes"),
    (
        "commute m s when v@2 = 1 and nil = r@1",
        "0 and 2 by 3 nodes",
    ),
    (
        "commute p p when x@1 != x@2 or y@1 = z@1 and y@2 = z@2",
        "1 and 1 by 5 nodes",
    ),
    (
        "  commute  p  s  when  x@1  !=  \"a b\"  ",
        "1 and 2 by 2 nodes",
    ),
    ("commute p p when (not (x@1 = true))", "1 and 1 by 2 nodes"),
];

#[test]
fn pairs_that_are_right(rt: HostRuntime) {
    check_rows(&rt, rt.alloc(), "commute s s when true", &RIGHT);
}

const REFUSED: [(&str, &str); 32] = [
    // unknown methods
    ("commute m n when true", "11 UnknownMethod"),
    ("commute n m when true", "9 UnknownMethod"),
    ("commute n n when true", "9 UnknownMethod"),
    ("commute n q when true", "9 UnknownMethod"),
    ("  commute   m   q when true", "17 UnknownMethod"),
    // before an unknown variable, a bare relation, what is outside, and a pair that is set
    ("commute m q when b@1 = 1", "11 UnknownMethod"),
    ("commute q p when 1 = 2 and a@1 = x@2", "9 UnknownMethod"),
    // unknown variables
    ("commute m m when b@1 = 1", "18 UnknownVariable"),
    ("commute m m when a@1 = b@2", "24 UnknownVariable"),
    (
        "commute m m when a@1 = b@2 and c@1 = 1",
        "24 UnknownVariable",
    ),
    ("commute m s when v@1 = 1", "18 UnknownVariable"),
    ("commute m s when a@1 = 1 or a@2 = 1", "29 UnknownVariable"),
    (
        "commute p s when not (x@1 != 2 or b@2 = x@1)",
        "35 UnknownVariable",
    ),
    // before a bare relation, what is outside, and a pair that is set
    ("commute m m when 1 = 2 and b@1 = 1", "28 UnknownVariable"),
    (
        "commute m m when a@1 = a@2 and b@1 = 1",
        "32 UnknownVariable",
    ),
    ("commute m p when x@1 = 1", "18 UnknownVariable"),
    // relations without a variable
    ("commute m m when 1 = 2", "20 NoVariable"),
    ("commute m m when true = false", "23 NoVariable"),
    ("commute m m when \"a@1\" != \"b@1\"", "24 NoVariable"),
    (
        "commute m m when a@1 = 1 or 1 < 2 or nil = nil",
        "31 NoVariable",
    ),
    // before what is outside, and a pair that is set
    ("commute m m when a@1 = a@2 or 1 <= 2", "33 NoVariable"),
    ("commute m p when 1 = 2", "20 NoVariable"),
    // outside the fragment
    (
        "commute m m when a@1 = a@2",
        "22 OutsideFragment(CrossRelation)",
    ),
    (
        "commute m m when true and a@2 < r@1",
        "31 OutsideFragment(CrossRelation)",
    ),
    (
        "commute m m when not a@1 != a@2",
        "18 OutsideFragment(NotOverCross)",
    ),
    (
        "commute m m when a@1 != a@2 or r@1 != r@2",
        "29 OutsideFragment(OrOfCross)",
    ),
    (
        "commute m m when not a@1 != a@2 or a@1 = a@2",
        "18 OutsideFragment(NotOverCross)",
    ),
    (
        "commute m m when a@1 < a@2 and not a@1 != a@2",
        "22 OutsideFragment(CrossRelation)",
    ),
    // before a pair that is set
    (
        "commute m p when a@1 = x@2",
        "22 OutsideFragment(CrossRelation)",
    ),
    // a pair that is set
    ("commute m p when true", "9 Duplicate"),
    ("   commute m p when a@1 != x@2", "12 Duplicate"),
    // before the limits
    (
        "commute m p when a@1 = 1 or a@1 = 2 or a@1 = 3 or a@1 = 4 or a@1 = 5 or a@1 = 6",
        "9 Duplicate",
    ),
];

#[test]
fn pairs_that_are_refused(rt: HostRuntime) {
    check_rows(&rt, rt.alloc(), "commute m p when a@1 != x@2", &REFUSED);
}

const RELATIONS: [(&str, &str); 11] = [
    ("commute m m when a@1 = 4 or a@1 = 5", "0 and 0 by 3 nodes"),
    (
        "commute m m when a@1 = 4 or a@1 = 5 or a@1 = 6",
        "13 Limit(Predicates, 5)",
    ),
    ("commute m m when a@1 = 4 or a@2 = 5", "0 and 0 by 3 nodes"),
    // the two sides of a method with itself count together
    (
        "commute m m when a@1 = 4 or a@2 = 5 or a@2 = 6",
        "13 Limit(Predicates, 5)",
    ),
    // each relation counts once
    (
        "commute m m when a@1 = 4 or a@2 = 5 or a@2 = 4 or a@1 = 3",
        "0 and 0 by 7 nodes",
    ),
    (
        "commute m m when a@1 = 4 or a@2 = 5 or 5 = a@2",
        "13 Limit(Predicates, 5)",
    ),
    (
        "commute  m s when v@2 = 1 or v@2 = 2 or v@2 = 3 or v@2 = 4 or v@2 = 5",
        "0 and 2 by 9 nodes",
    ),
    (
        "commute  m s when v@2 = 1 or v@2 = 2 or v@2 = 3 or v@2 = 4 or v@2 = 5 or v@2 = 6",
        "14 Limit(Predicates, 5)",
    ),
    (
        "commute m s when a@1 != 4 and r@1 != 5 and v@2 < 1",
        "0 and 2 by 7 nodes",
    ),
    (
        "commute m s when a@1 != 4 and r@1 != 5 and a@1 <= 1",
        "13 Limit(Predicates, 5)",
    ),
    (
        "commute p p when x@1 = 1 or x@1 = 2 or x@1 = 3 or x@1 = 4 or x@1 = 5",
        "1 and 1 by 9 nodes",
    ),
];

#[test]
fn relations_of_a_method(rt: HostRuntime) {
    let before = "commute m p when a@1 = 1 or a@1 = 2 or a@1 = 3";
    check_rows(&rt, rt.alloc(), before, &RELATIONS);
}

const LARGE: [(&str, &str, u32, &str, &str); 15] = [
    (
        "commute m m when ",
        "true or ",
        31,
        "not true",
        "0 and 0 by 64 nodes",
    ),
    (
        "commute m m when ",
        "true or ",
        31,
        "not not true",
        "13 Limit(Nodes, 64)",
    ),
    (
        "commute m m when ",
        "true or ",
        32,
        "true",
        "13 Limit(Nodes, 64)",
    ),
    (
        "commute m m when ",
        "not ",
        31,
        "true",
        "0 and 0 by 32 nodes",
    ),
    (
        "commute m m when ",
        "not ",
        32,
        "true",
        "13 Limit(FormulaDepth, 32)",
    ),
    (
        "commute m m when ",
        "not ",
        64,
        "true",
        "13 Limit(Nodes, 64)",
    ),
    // `!=` on one side is two nodes on two levels
    (
        "commute m m when ",
        "true or ",
        31,
        "a@1 != 1",
        "0 and 0 by 64 nodes",
    ),
    (
        "commute m m when ",
        "true or ",
        31,
        "not a@1 != 1",
        "13 Limit(Nodes, 64)",
    ),
    (
        "commute m m when ",
        "not ",
        30,
        "a@1 != 1",
        "0 and 0 by 32 nodes",
    ),
    (
        "commute m m when ",
        "not ",
        31,
        "a@1 != 1",
        "13 Limit(FormulaDepth, 32)",
    ),
    (
        "commute m m when ",
        "not ",
        31,
        "a@1 = 1",
        "0 and 0 by 32 nodes",
    ),
    // what is outside the fragment is told before
    (
        "commute m m when ",
        "true or ",
        40,
        "a@1 = a@2",
        "342 OutsideFragment(CrossRelation)",
    ),
    (
        "commute m m when ",
        "not ",
        40,
        "a@1 != a@2",
        "174 OutsideFragment(NotOverCross)",
    ),
    (
        "commute m m when ",
        "true or ",
        40,
        "1 = 2",
        "340 NoVariable",
    ),
    (
        "commute m p when ",
        "a@1 = 1 or not ",
        32,
        "true",
        "13 Limit(Nodes, 64)",
    ),
];

fn check_large(rt: &impl Abort, alloc: Global, rows: &[(&str, &str, u32, &str, &str)]) {
    for (front, words, count, behind, wanted) in rows {
        let line = repeated(alloc, front, words, *count, behind).expect(rt, "memory");
        let found = answer(alloc, "commute s s when true", line.as_str());
        gives(rt, found, wanted, wanted.as_bytes());
    }
}

#[test]
fn large_formulas(rt: HostRuntime) {
    check_large(&rt, rt.alloc(), &LARGE);
}
