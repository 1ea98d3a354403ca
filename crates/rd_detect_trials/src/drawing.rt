//! Lines that are drawn.

use crate::kinds::USED;
use std::process::Abort;

/// Of what the events of a trace are drawn: how many threads there may be, how many keys, how many kinds of objects from the first on, and one
/// in how many events is a join.
#[derive(Clone, Copy)]
pub struct Sizes {
    pub threads: u32,
    pub keys: u32,
    pub kinds: u32,
    pub joins: u32,
}

/// Numbers that look random, the same in each run.
#[derive(Drop)]
pub struct Random {
    pub state: u32,
}

impl Random {
    /// A number below this one, or 0.
    pub fn below(&mut self, end: u32) -> u32 {
        self.state = self.state.wrapping_mul(1_103_515_245).wrapping_add(12_345);
        (self.state / 65_536) % end.max(1)
    }

    // `true` or `false`.
    fn truth(&mut self) -> &'static str {
        if self.below(3) == 0 { "false" } else { "true" }
    }

    // A value, or none.
    fn content(&mut self) -> &'static str {
        match self.below(4) {
            0 => "nil",
            1 => "1",
            _ => "2",
        }
    }
}

fn append(rt: &impl Abort, text: &mut String, part: &str) {
    text.push_str(part).expect(rt, "memory");
}

// A call of the dictionary.
fn append_dictionary(rt: &impl Abort, text: &mut String, random: &mut Random, key: u32) {
    let (value, before) = (random.content(), random.content());
    match random.below(8) {
        0 => append(rt, text, "o0 size -> 1"),
        1 | 2 => write!(text, "o0 get {key} -> {value}").expect(rt, "memory"),
        _ => write!(text, "o0 put {key} {value} -> {before}").expect(rt, "memory"),
    }
}

// A call of the set.
fn append_set(rt: &impl Abort, text: &mut String, random: &mut Random, key: u32) {
    let truth = random.truth();
    match random.below(8) {
        0 => append(rt, text, "o1 size -> 1"),
        1 | 2 => write!(text, "o1 contains {key} -> {truth}").expect(rt, "memory"),
        3 | 4 => write!(text, "o1 remove {key} -> {truth}").expect(rt, "memory"),
        _ => write!(text, "o1 add {key} -> {truth}").expect(rt, "memory"),
    }
}

// A call of the register.
fn append_register(rt: &impl Abort, text: &mut String, random: &mut Random) {
    let (value, before) = (random.content(), random.content());
    match random.below(4) {
        0 => write!(text, "o2 write {value} -> nil").expect(rt, "memory"),
        1 => write!(text, "o2 swap {value} -> {before}").expect(rt, "memory"),
        _ => write!(text, "o2 read -> {value}").expect(rt, "memory"),
    }
}

// A call of the counter.
fn append_counter(rt: &impl Abort, text: &mut String, random: &mut Random) {
    let amount = random.below(3);
    match random.below(4) {
        0 => append(rt, text, "o3 get -> 1"),
        _ => write!(text, "o3 add {amount} -> nil").expect(rt, "memory"),
    }
}

// A value: nil, a truth value, a text, or mostly one of so many integers.
fn append_value(rt: &impl Abort, text: &mut String, random: &mut Random, integers: u32) {
    let integer = random.below(integers);
    match random.below(12) {
        0 => append(rt, text, "nil"),
        1 => append(rt, text, "true"),
        2 => append(rt, text, "\"a b\""),
        3 => append(rt, text, "\"\""),
        _ => write!(text, "{integer}").expect(rt, "memory"),
    }
}

// Calls of the objects of the kinds of the specification. A value comes for each question mark, and behind the end.
const SPECIFIED: [&str; 8] = [
    "o4 move ? ? -> ",
    "o4 look ? -> ",
    "o5 raise ? ? -> ",
    "o5 read ? -> ",
    "o5 reset -> ",
    "o6 open -> ",
    "o6 close -> ",
    "o7 link ? ? -> ",
];

// One of them.
fn append_specified(rt: &impl Abort, text: &mut String, random: &mut Random, integers: u32) {
    let number = random.below(8) as usize;
    let call = SPECIFIED.get(number).copied().expect(rt, "a call");
    for part in call.split('?') {
        append(rt, text, part);
        append_value(rt, text, random, integers);
    }
}

// A call of one of the objects of the kinds that are built in, mostly of those that have keys.
fn append_shipped(rt: &impl Abort, text: &mut String, random: &mut Random, keys: u32) {
    let key = random.below(keys);
    match random.below(8) {
        0 => append_register(rt, text, random),
        1 => append_counter(rt, text, random),
        2 | 3 | 4 => append_set(rt, text, random, key),
        _ => append_dictionary(rt, text, random, key),
    }
}

// A call of one of the objects.
fn append_call(rt: &impl Abort, text: &mut String, random: &mut Random, sizes: Sizes) {
    if random.below(sizes.kinds) < USED {
        append_shipped(rt, text, random, sizes.keys);
    } else {
        append_specified(rt, text, random, sizes.keys);
    }
}

/// The lines before the roots, with a semicolon between two: an object of each kind that is built in.
pub const HEAD: &str =
    "rdtrace 1;object o0 dictionary;object o1 set;object o2 register;object o3 counter";

/// What stands behind these lines for an object of each other kind.
pub const MORE_OBJECTS: &str = ";object o4 pair;object o5 level;object o6 gate;object o7 link";

/// An event, or a call with a lock taken before it and given back after it, with a semicolon between two. Each may follow or not.
pub fn append_events(rt: &impl Abort, text: &mut String, random: &mut Random, sizes: Sizes) {
    let (thread, other) = (random.below(sizes.threads), random.below(sizes.threads));
    let lock = random.below(2);
    if random.below(sizes.joins) == 0 {
        return write!(text, "join t{thread} t{other}").expect(rt, "memory");
    }
    match random.below(16) {
        0 | 1 => write!(text, "fork t{thread} t{other}").expect(rt, "memory"),
        2 => write!(text, "acquire t{thread} l{lock}").expect(rt, "memory"),
        3 | 4 => write!(text, "release t{thread} l{lock}").expect(rt, "memory"),
        5..=9 => {
            write!(text, "acquire t{thread} l{lock};call t{thread} ").expect(rt, "memory");
            append_call(rt, text, random, sizes);
            write!(text, ";release t{thread} l{lock}").expect(rt, "memory");
        }
        _ => {
            write!(text, "call t{thread} ").expect(rt, "memory");
            append_call(rt, text, random, sizes);
        }
    }
}
