//! A slow detector: a list of all calls.
ghost use Rattle.std.specs.Prelude.{◌≡◌, ◌<◌, IsTrue, length};
ghost use Rattle.rd_ecl.specs.Specified.{slots_at};

use rd_base::Steps;
use rd_clock::Stamp;
use rd_ecl::{KindSpec, Spec};
use rd_event::Call;
use std::alloc::Global;
use std::process::Abort;
use std::sync::ledger::Ledger;

/// An earlier call that races with one: its place, and the two methods in the order in which their kind has them.
pub type Found = (u32, u8, u8);

// A call, its place, and its own number in its thread.
#[derive(Drop)]
struct Seen {
    place: u32,
    number: u32,
    call: Call,
}

// Does the kind have this method, with so many slots?
fn has_slots(kind: &KindSpec, method: u8, count: usize) -> bool
    ensures { IsTrue result
        → (method < length kind.now.methods) × (slots_at kind.now.methods method ≡ count) }
{
    match kind.methods().get(usize::from(method)) {
        Some(method) => method.variables.items().len() == count,
        None => false,
    }
}

// Do the formulas say that two calls of a kind commute?
fn commute(rt: &impl Abort, kind: &KindSpec, first: &Call, second: &Call) -> bool {
    let (a, b) = (first.slots.items(), second.slots.items());
    assert!(rt; has_slots(kind, first.method, a.len()));
    assert!(rt; has_slots(kind, second.method, b.len()));
    kind.commute(first.method, a, second.method, b)
}

impl Seen {
    // Does a later call with this stamp race with it?
    fn meets<L: Ledger>(
        &self,
        rt: &impl Abort,
        spec: &Spec,
        call: &Call,
        stamp: &Stamp,
        steps: &mut Steps<L>,
    ) -> bool {
        if self.call.object != call.object
            || stamp.clock.covers(self.call.thread, self.number, steps)
        {
            return false;
        }
        let kind = spec.kinds().get(call.kind as usize).expect(rt, "a kind");
        !commute(rt, kind, &self.call, call)
    }
}

/// All calls so far, from the first on.
#[derive(Drop)]
pub struct Listing {
    alloc: Global,
    calls: Vec<Seen>,
}

impl Listing {
    /// No call.
    pub fn new(alloc: Global) -> Listing {
        Listing {
            alloc,
            calls: Vec::new(alloc),
        }
    }

    // The latest call that races with one.
    fn latest<L: Ledger>(
        &self,
        rt: &impl Abort,
        spec: &Spec,
        call: &Call,
        stamp: &Stamp,
        steps: &mut Steps<L>,
    ) -> Option<Found> {
        let mut latest = None;
        for seen in &self.calls {
            if seen.meets(rt, spec, call, stamp, steps) {
                let (one, other) = (seen.call.method, call.method);
                latest = Some((seen.place, one.min(other), one.max(other)));
            }
        }
        latest
    }

    /// Takes the call at a place, with its stamp, and answers which races with it.
    pub fn call<L: Ledger>(
        &mut self,
        rt: &impl Abort,
        spec: &Spec,
        place: u32,
        call: &Call,
        stamp: &Stamp,
        steps: &mut Steps<L>,
    ) -> Option<Found> {
        let latest = self.latest(rt, spec, call, stamp, steps);
        let seen = Seen {
            place,
            number: stamp.number,
            call: call.copy(self.alloc).expect(rt, "memory"),
        };
        self.calls.push(seen).expect(rt, "memory");
        latest
    }
}
