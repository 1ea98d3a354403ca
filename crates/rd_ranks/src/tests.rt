//! What each of many has, set and unset, against lists by hand and a plain list.
ghost use Rattle.std.specs.Prelude.{◌≡◌, length};

use crate::Ranks;
use std::alloc::Global;
use std::process::Abort;

// What each has, as ranks and as a plain list.
#[derive(Drop)]
struct Both {
    ranks: Ranks,
    plain: Vec<Option<u32>>,
    ghost same: { length ranks ≡ length plain.items },
}

impl Both {
    // None of so many has anything.
    fn new(rt: &impl Abort, alloc: Global, count: u32) -> Both {
        let mut plain = Vec::new(alloc);
        plain.resize(count as usize, None).expect(rt, "memory");
        Both {
            ranks: Ranks::new(alloc, count as usize).expect(rt, "memory"),
            plain,
        }
    }

    fn set(&mut self, rt: &impl Abort, at: usize, given: Option<u32>) {
        assert!(rt; at < self.plain.len(), "{at}");
        self.ranks.set(at, given);
        self.plain[at] = given;
    }

    // Those that have something in the plain list, with what they have.
    fn found(&self, rt: &impl Abort, alloc: Global) -> Vec<(usize, u32)> {
        let mut found = Vec::new(alloc);
        for (at, given) in self.plain.iter().enumerate() {
            if let Some(value) = given {
                found.push((at, *value)).expect(rt, "memory");
            }
        }
        found
    }
}

// Do the ranks find these, and no others?
fn finds(ranks: &Ranks, found: &[(usize, u32)]) -> bool {
    ranks.count() == found.len()
        && found
            .iter()
            .enumerate()
            .all(|(position, one)| ranks.nth(position) == Some(*one))
        && ranks.nth(found.len()).is_none()
        && ranks.nth(usize::MAX).is_none()
}

// Of how many, what is set one after another, and what is found then.
#[derive(Clone, Copy)]
struct Row<'a> {
    count: u32,
    changes: &'a [(usize, Option<u32>)],
    found: &'a [(usize, u32)],
}

fn has_row(rt: &impl Abort, alloc: Global, row: &Row) {
    let mut both = Both::new(rt, alloc, row.count);
    for (at, given) in row.changes {
        both.set(rt, *at, *given);
    }
    assert!(rt;
        finds(&both.ranks, row.found),
        "{:?} of {}",
        row.found,
        row.count
    );
}

/// None, one, the last, the first, and those at the halves of a tree.
#[test]
fn rows(rt: HostRuntime) {
    let rows = [
        Row {
            count: 0,
            changes: &[],
            found: &[],
        },
        Row {
            count: 1,
            changes: &[],
            found: &[],
        },
        Row {
            count: 1,
            changes: &[(0, Some(7))],
            found: &[(0, 7)],
        },
        Row {
            count: 1,
            changes: &[(0, Some(7)), (0, Some(8))],
            found: &[(0, 8)],
        },
        Row {
            count: 1,
            changes: &[(0, Some(7)), (0, None), (0, None)],
            found: &[],
        },
        Row {
            count: 2,
            changes: &[(1, Some(4)), (0, Some(9))],
            found: &[(0, 9), (1, 4)],
        },
        Row {
            count: 2,
            changes: &[(0, Some(9)), (1, Some(4)), (0, None)],
            found: &[(1, 4)],
        },
        Row {
            count: 3,
            changes: &[(2, Some(5)), (0, Some(6)), (1, Some(3)), (1, None)],
            found: &[(0, 6), (2, 5)],
        },
        Row {
            count: 5,
            changes: &[(4, Some(0)), (3, Some(u32::MAX)), (0, Some(2))],
            found: &[(0, 2), (3, u32::MAX), (4, 0)],
        },
        Row {
            count: 5,
            changes: &[(4, Some(0)), (3, Some(9)), (0, Some(2)), (3, None)],
            found: &[(0, 2), (4, 0)],
        },
        Row {
            count: 64,
            changes: &[(63, Some(1)), (31, Some(2)), (32, Some(3)), (0, Some(4))],
            found: &[(0, 4), (31, 2), (32, 3), (63, 1)],
        },
        Row {
            count: 100,
            changes: &[(99, Some(9)), (64, Some(8)), (63, Some(7)), (99, None)],
            found: &[(63, 7), (64, 8)],
        },
    ];
    for row in &rows {
        has_row(&rt, rt.alloc(), row);
    }
}

// Sets one, and looks at all.
fn change(rt: &impl Abort, alloc: Global, both: &mut Both, at: u32, given: Option<u32>) {
    both.set(rt, at as usize, given);
    let found = both.found(rt, alloc);
    assert!(rt;
        finds(&both.ranks, found.as_slice()),
        "{at} of {}",
        both.plain.len()
    );
}

// Sets one after another in leaps, and then unsets every other one.
fn goes_along(rt: &impl Abort, alloc: Global, count: u32) {
    let mut both = Both::new(rt, alloc, count);
    for turn in 0..count {
        let at = u64::from(turn) * 37 % u64::from(count);
        change(rt, alloc, &mut both, at as u32, Some(turn));
    }
    for turn in 0..count / 2 {
        change(rt, alloc, &mut both, turn * 2, None);
    }
}

/// Each change is seen at each position.
#[test]
fn changes(rt: HostRuntime) {
    for count in [1, 2, 3, 5, 64, 100] {
        goes_along(&rt, rt.alloc(), count);
    }
}
