//! The same for kinds that are drawn.

use crate::calls::tells;
use crate::merging::keeps_conflicts;
use rd_base::NoMemory;
use rd_reading::parse;
use std::alloc::Global;
use std::process::Abort;

// Numbers that are drawn.
#[derive(Clone, Copy)]
struct Draw {
    number: u32,
}

impl Draw {
    fn next(&mut self) -> usize {
        self.number = self.number.wrapping_mul(25173).wrapping_add(13849) % 65536;
        (self.number / 64) as usize
    }
}

const CROSSING: [&str; 6] = [
    "a@1 != a@2",
    "b@1 != a@2",
    "a@1 != b@2",
    "r@1 != r@2",
    "b@1 != r@2",
    "(r@1 != a@2 and b@1 != b@2)",
];

// Five relations of a side at most.
const SIDED: [&str; 9] = [
    "a@1 = 0",
    "a@2 = 0",
    "a@1 = r@1",
    "a@2 = r@2",
    "b@1 < 1",
    "b@2 <= a@2",
    "not b@1 <= a@1",
    "(r@1 = true or r@2 = true)",
    "false",
];

fn one_of<'a>(words: &[&'a str], number: usize) -> &'a str {
    match words.get(number % 9) {
        Some(word) => *word,
        None => "b@2 < 1",
    }
}

// A part in the fragment: a crossing one, a sided one, or the `or` of both in either order.
fn push_part(text: &mut String, draw: &mut Draw) -> Result<(), NoMemory> {
    let crossing = one_of(&CROSSING, draw.next());
    let sided = one_of(&SIDED, draw.next());
    match draw.next() % 4 {
        0 => text.push_str(crossing)?,
        1 => text.push_str(sided)?,
        2 => write!(text, "({crossing} or {sided})")?,
        _ => write!(text, "({sided} or {crossing})")?,
    }
    Ok(())
}

// One to three parts, all of which have to hold.
fn push_formula(text: &mut String, draw: &mut Draw) -> Result<(), NoMemory> {
    push_part(text, draw)?;
    for _ in 0..draw.next() % 3 {
        text.push_str(" and ")?;
        push_part(text, draw)?;
    }
    text.push_str("\n")?;
    Ok(())
}

const PAIRS: [&str; 3] = ["p p", "p q", "q q"];

fn kind_text(alloc: Global, draw: &mut Draw) -> Result<String, NoMemory> {
    let mut text = String::from_str(
        alloc,
        "rdspec 1\nkind drawn\nmethod p a b -> r\nmethod q a b -> r\n",
    )?;
    for pair in PAIRS {
        write!(text, "commute {pair} when ")?;
        push_formula(&mut text, draw)?;
    }
    Ok(text)
}

#[test]
fn calls_of_drawn_kinds(rt: HostRuntime) {
    let mut draw = Draw { number: 7 };
    for _ in 0u32..20 {
        let text = kind_text(rt.alloc(), &mut draw).expect(&rt, "memory");
        let spec = parse(rt.alloc(), text.as_bytes(), &[]).expect(&rt, "a specification");
        let kind = spec.kinds().first().expect(&rt, "a kind");
        tells(&rt, rt.alloc(), kind);
        keeps_conflicts(&rt, rt.alloc(), kind);
    }
}
