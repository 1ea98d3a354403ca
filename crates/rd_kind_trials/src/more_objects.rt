//! Bags, peaks, queues and tallies that run calls.

use crate::objects::{Step, runs};
use crate::samples::{built_in, kind_at};
use rd_more::{Bag, Peak, Queue, Tally};

const BAG: [Step<'static>; 6] = [
    (0, "1", "nil", "state o counts 1 1\n"),
    (1, "1", "true", "state o counts\n"),
    (1, "1", "false", "state o counts\n"),
    (2, "1", "0", "state o counts\n"),
    (0, "nil", "nil", "state o counts nil 1\n"),
    (0, "nil", "nil", "state o counts nil 2\n"),
];

const PEAK: [Step<'static>; 6] = [
    (1, "", "nil", "state o one nil\n"),
    (0, "5", "nil", "state o one 5\n"),
    (0, "3", "5", "state o one 5\n"),
    (1, "", "5", "state o one 5\n"),
    (0, "\"x\"", "refused", "state o one 5\n"),
    (0, "nil", "refused", "state o one 5\n"),
];

// Of what can be raised the least is above nothing.
const LEAST_PEAK: [Step<'static>; 3] = [
    (
        0,
        "-9223372036854775808",
        "nil",
        "state o one -9223372036854775808\n",
    ),
    (0, "-1", "-9223372036854775808", "state o one -1\n"),
    (0, "-1", "-1", "state o one -1\n"),
];

const QUEUE: [Step<'static>; 8] = [
    (1, "", "nil", "state o row\n"),
    (0, "nil", "refused", "state o row\n"),
    (0, "-2", "nil", "state o row -2\n"),
    (0, "-1", "nil", "state o row -2 -1\n"),
    (0, "-2", "nil", "state o row -2 -1 -2\n"),
    (1, "", "-2", "state o row -1 -2\n"),
    (2, "", "2", "state o row -1 -2\n"),
    (1, "", "-1", "state o row -2\n"),
];

const TALLY: [Step<'static>; 5] = [
    (0, "1", "nil", "state o counts 1 1\n"),
    (0, "2", "nil", "state o counts 1 1 2 1\n"),
    (1, "1", "1", ""),
    (2, "", "2", "state o counts 1 1 2 1\n"),
    (1, "3", "0", ""),
];

// A state has items rising by value, however they came, and none that is there no more.
const FALLING_BAG: [Step<'static>; 10] = [
    (0, "\"b\"", "nil", ""),
    (0, "\"ab\"", "nil", ""),
    (0, "7", "nil", ""),
    (0, "-7", "nil", ""),
    (0, "true", "nil", ""),
    (0, "nil", "nil", ""),
    (0, "7", "nil", ""),
    (1, "\"ab\"", "true", ""),
    (2, "7", "2", ""),
    (1, "true", "true", "state o counts nil 1 -7 1 7 2 \"b\" 1\n"),
];

#[test]
fn runs_of_bags(rt: HostRuntime) {
    let spec = built_in(&rt, rt.alloc());
    let bag = kind_at(&rt, &spec, 4);
    runs::<Bag>(&rt, rt.alloc(), bag, &BAG);
    runs::<Bag>(&rt, rt.alloc(), bag, &FALLING_BAG);
}

#[test]
fn runs_of_peaks(rt: HostRuntime) {
    let spec = built_in(&rt, rt.alloc());
    let peak = kind_at(&rt, &spec, 5);
    runs::<Peak>(&rt, rt.alloc(), peak, &PEAK);
    runs::<Peak>(&rt, rt.alloc(), peak, &LEAST_PEAK);
}

#[test]
fn runs_of_queues(rt: HostRuntime) {
    let spec = built_in(&rt, rt.alloc());
    runs::<Queue>(&rt, rt.alloc(), kind_at(&rt, &spec, 6), &QUEUE);
}

#[test]
fn runs_of_tallies(rt: HostRuntime) {
    let spec = built_in(&rt, rt.alloc());
    runs::<Tally>(&rt, rt.alloc(), kind_at(&rt, &spec, 7), &TALLY);
}
