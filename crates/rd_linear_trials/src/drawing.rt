//! Lines that are drawn.

use std::process::Abort;

/// Numbers that look random, the same in each run.
#[derive(Drop)]
pub struct Random {
    pub state: u32,
}

impl Random {
    /// A number below this one, or 0.
    pub fn below(&mut self, end: u32) -> u32 {
        self.state = self.state.wrapping_mul(1_103_515_245).wrapping_add(12_345);
        (self.state / 65_536) % end.max(1)
    }

    /// Any number, often a small one.
    pub fn number(&mut self) -> u64 {
        let number = u64::from(self.below(65_536)).wrapping_mul(65_537);
        match self.below(4) {
            0 => number % 8,
            1 => number % 65_536,
            2 => number,
            _ => u64::MAX.wrapping_sub(number),
        }
    }
}

// What a line says, and of what: a thread or a lock.
const SAID: [(&str, &str); 14] = [
    ("fork", "t"),
    ("fork", "t"),
    ("join", "t"),
    ("acquire", "l"),
    ("acquire", "l"),
    ("release", "l"),
    ("release", "l"),
    ("release", "l"),
    ("share", "l"),
    ("share", "l"),
    ("share", "l"),
    ("unshare", "l"),
    ("unshare", "l"),
    ("unshare", "l"),
];

/// A line of an event of one of so many threads. It may follow or not.
pub fn draw(rt: &impl Abort, text: &mut String, random: &mut Random, threads: u32) {
    let thread = random.below(threads);
    let drawn = random.below(16) as usize;
    let Some((verb, what)) = SAID.get(drawn) else {
        return write!(text, "call t{thread} o read -> nil").expect(rt, "memory");
    };
    let other = random.below(if *what == "l" { 2 } else { threads });
    write!(text, "{verb} t{thread} {what}{other}").expect(rt, "memory");
}
