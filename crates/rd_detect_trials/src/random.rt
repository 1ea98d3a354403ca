//! Traces that are drawn: at each call both detectors name the same earlier call.
ghost use Rattle.std.specs.Prelude.{◌≡◌, ◌<◌};

use crate::drawing::{HEAD, MORE_OBJECTS, Random, Sizes, append_events};
use crate::kinds::{ALL, SHIPPED, USED};
use crate::trial::{Taken, Trial};
use rd_base::Steps;
use std::alloc::Global;
use std::marker::Brand;
use std::process::Abort;
use std::sync::ledger::{Blank, Ledger};

// How many calls raced, and how many didn't.
#[derive(Clone, Copy)]
struct Count {
    races: u32,
    quiet: u32,
}

impl Count {
    // Counts a call.
    fn add(&mut self, is_race: bool) {
        self.races = self.races.wrapping_add(u32::from(is_race));
        self.quiet = self.quiet.wrapping_add(u32::from(!is_race));
    }
}

// The calls of objects of each kind, and behind how many calls there were fewer cells than before.
#[derive(Drop)]
struct Tally {
    kinds: [Count; ALL as usize],
    sweeps: u32,
}

impl Tally {
    // Counts a call of an object of this kind.
    fn add(&mut self, kind: u32, is_race: bool, before: u128, after: u128) {
        // there are no objects of the kinds between
        let place = if kind < USED {
            kind
        } else {
            kind.wrapping_sub(SHIPPED - USED)
        };
        if let Some(count) = self.kinds.get_mut(place as usize) {
            count.add(is_race);
        }
        self.sweeps = self.sweeps.wrapping_add(u32::from(after < before));
    }
}

// Takes a line, where it may follow.
fn takes<L: Ledger>(
    rt: &impl Abort,
    trial: &mut Trial,
    line: &str,
    tally: &mut Tally,
    steps: &mut Steps<L>,
) {
    let before = trial.cells();
    if let Taken::Call(kind, race) = trial.take(rt, line, steps) {
        tally.add(kind, race.is_some(), before, trial.cells());
    }
}

// Draws lines, each of which may follow or not.
fn draws<L: Ledger>(
    rt: &impl Abort,
    alloc: Global,
    trial: &mut Trial,
    random: &mut Random,
    sizes: Sizes,
    tally: &mut Tally,
    steps: &mut Steps<L>,
) {
    let mut lines = String::new(alloc);
    append_events(rt, &mut lines, random, sizes);
    for line in lines.as_str().split(';') {
        takes(rt, trial, line, tally, steps);
    }
}

// What traces are drawn: with so many roots, so many threads or up to so many more, so many keys, objects of so many kinds from the first on,
// one in so many events a join, and of so many lines, each of which may follow or not.
#[derive(Clone, Copy)]
struct Batch {
    roots: u32,
    threads: u32,
    more: u32,
    keys: u32,
    kinds: u32,
    joins: u32,
    lines: u32,
}

// Takes the lines before the events.
fn begins<L: Ledger>(
    rt: &impl Abort,
    alloc: Global,
    trial: &mut Trial,
    batch: Batch,
    steps: &mut Steps<L>,
) {
    let mut lines = String::new(alloc);
    lines.push_str(HEAD).expect(rt, "memory");
    if batch.kinds > USED {
        lines.push_str(MORE_OBJECTS).expect(rt, "memory");
    }
    for root in 0..batch.roots {
        write!(lines, ";thread t{root}").expect(rt, "memory");
    }
    for line in lines.as_str().split(';') {
        assert!(rt;
            matches!(trial.take(rt, line, steps), Taken::Quiet),
            "{line}"
        );
    }
}

// The next trace.
fn is_agreed<L: Ledger>(
    rt: &impl Abort,
    alloc: Global,
    random: &mut Random,
    batch: Batch,
    tally: &mut Tally,
    steps: &mut Steps<L>,
) {
    let more = random.below(batch.more.wrapping_add(1));
    let sizes = Sizes {
        threads: batch.threads.wrapping_add(more),
        keys: batch.keys,
        kinds: batch.kinds,
        joins: batch.joins,
    };
    let mut trial = Trial::new(rt, alloc);
    begins(rt, alloc, &mut trial, batch, steps);
    for _ in 0..batch.lines {
        draws(rt, alloc, &mut trial, random, sizes, tally, steps);
    }
}

// Of objects of each of the kinds so many calls race at least, and as many don't.
fn are_enough(rt: &impl Abort, tally: &Tally, kinds: u32, wanted: u32) {
    let mut kind = 0u32;
    for count in tally.kinds.iter().take(kinds as usize) {
        let (races, quiet) = (count.races, count.quiet);
        assert!(rt;
            races >= wanted && quiet >= wanted,
            "kind {kind}: {races} races, {quiet} calls that don't race"
        );
        kind = kind.wrapping_add(1);
    }
}

// So many traces. Of objects of each kind so many calls race at least, as many don't, and so many leave fewer cells than there were.
fn are_agreed<L: Ledger>(
    rt: &impl Abort,
    alloc: Global,
    blank: Blank,
    batch: Batch,
    traces: u32,
    wanted: (u32, u32),
)
    requires name { blank.name ≡ L.name }
    requires parts { blank.parts ≡ L.parts }
    requires some { 0 < blank.parts }
{
    let mut steps = Steps::<L>::new(blank);
    let mut random = Random { state: batch.lines };
    let mut tally = Tally {
        kinds: [Count { races: 0, quiet: 0 }; ALL as usize],
        sweeps: 0,
    };
    for _ in 0..traces {
        is_agreed(rt, alloc, &mut random, batch, &mut tally, &mut steps);
    }
    are_enough(rt, &tally, batch.kinds, wanted.0);
    let sweeps = tally.sweeps;
    assert!(rt; sweeps >= wanted.1, "{sweeps} sweeps");
}

fn tries(rt: &impl Abort, alloc: Global, batch: Batch, traces: u32, wanted: (u32, u32)) {
    are_agreed::<Brand>(rt, alloc, Blank::new(1), batch, traces, wanted);
}

#[test]
fn few_keys(rt: HostRuntime) {
    let batch = Batch {
        roots: 2,
        threads: 2,
        more: 4,
        keys: 3,
        kinds: USED,
        joins: 16,
        lines: 100,
    };
    tries(&rt, rt.alloc(), batch, 400, (150, 0));
}

#[test]
fn many_keys(rt: HostRuntime) {
    let batch = Batch {
        roots: 2,
        threads: 2,
        more: 4,
        keys: 60,
        kinds: USED,
        joins: 64,
        lines: 500,
    };
    tries(&rt, rt.alloc(), batch, 200, (1_500, 300));
}

#[test]
fn many_threads(rt: HostRuntime) {
    let batch = Batch {
        roots: 4,
        threads: 40,
        more: 0,
        keys: 30,
        kinds: USED,
        joins: 16,
        lines: 1500,
    };
    tries(&rt, rt.alloc(), batch, 100, (300, 50));
}

#[test]
fn specified_kinds(rt: HostRuntime) {
    let batch = Batch {
        roots: 2,
        threads: 2,
        more: 4,
        keys: 3,
        kinds: ALL,
        joins: 16,
        lines: 150,
    };
    tries(&rt, rt.alloc(), batch, 200, (40, 20));
}

#[test]
fn specified_kinds_with_many_keys(rt: HostRuntime) {
    let batch = Batch {
        roots: 2,
        threads: 2,
        more: 4,
        keys: 40,
        kinds: ALL,
        joins: 64,
        lines: 500,
    };
    tries(&rt, rt.alloc(), batch, 100, (100, 200));
}
