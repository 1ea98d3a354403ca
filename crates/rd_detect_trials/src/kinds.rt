//! The kinds that the objects of traces are of.
ghost use Rattle.std.specs.Prelude.{◌≡◌, ◌≢◌, ◌<◌, ◌^◌, AllPairs, length};
ghost use Rattle.rd_ecl.specs.Kinds.{kind_names, kinds_of};

use rd_classes::merge;
use rd_ecl::{KindSpec, Spec, Valuation};
use rd_kinds::{reserved, shipped};
use rd_points::Table;
use rd_reading::parse;
use std::alloc::Global;
use std::process::Abort;

/// How many kinds are built in.
pub const SHIPPED: u32 = 8;

/// Of how many of these there are objects: of the first.
pub const USED: u32 = 4;

/// Of how many kinds there are objects, with those of the specification.
pub const ALL: u32 = 8;

// The kinds of the specification. A move touches one class of points with two of its slots. The methods of a level have predicates that
// compare with constants. Of a gate some calls never commute and some always do, and all points are plain. The formula of a link is asked in
// both directions, which say different things.
const TEXT: &str = "rdspec 1
kind pair
method move from to -> done
method look key -> found
commute move move when from@1 != from@2 and from@1 != to@2 and to@1 != from@2 and to@1 != to@2
commute move look when from@1 != key@2 and to@1 != key@2
commute look look when true
kind level
method raise key amount -> done
method read key -> amount
method reset -> done
commute raise raise when key@1 != key@2 or amount@1 = 0 or 2 <= amount@2
commute raise read when key@1 != key@2 or amount@1 = 0 or amount@2 = nil
commute raise reset when amount@1 < 1
commute read read when true
commute read reset when amount@1 = \"a b\" or amount@1 = nil
commute reset reset when false
kind gate
method open -> done
method close -> done
commute open open when true
commute open close when false
commute close close when done@1 = true
kind link
method link from to -> done
commute link link when from@1 != to@2 or done@1 = nil
";

/// The kinds that are built in, then those of the specification.
pub fn all_kinds(rt: &impl Abort, alloc: Global) -> Spec
    ensures few { length result < 2 ^ 32 }
    ensures different { AllPairs (λ x y. x ≢ y) (kind_names (kinds_of result)) }
{
    let said = parse(alloc, TEXT.as_bytes(), &reserved()).expect(rt, "a specification");
    let built_in = shipped(alloc).expect(rt, "memory");
    built_in.append(said).expect(rt, "memory")
}

// The first method of a kind touches one class with two slots, where no predicate of it holds.
fn touches_twice(rt: &impl Abort, alloc: Global, kind: &KindSpec) -> bool {
    let table = Table::compile(alloc, kind).expect(rt, "memory");
    let merged = merge(alloc, table).ok().expect(rt, "memory");
    match merged.touches(0, Valuation { bits: 0 }).as_slice() {
        [first, second] => first.class == second.class && first.slot != second.slot,
        _ => false,
    }
}

#[test]
fn two_slots_of_a_move_touch_one_class(rt: HostRuntime) {
    let spec = all_kinds(&rt, rt.alloc());
    let kind = spec.kinds().get(SHIPPED as usize).expect(&rt, "a kind");
    assert!(rt; touches_twice(&rt, rt.alloc(), kind));
}
