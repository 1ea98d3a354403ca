//! A trace that is given to the detector and to the slow one.

use crate::course::{Course, Told};
use crate::kinds::all_kinds;
use crate::listing::{Found, Listing};
use rd_base::Steps;
use rd_ecl::Spec;
use rd_event::{Call, Event, read_line};
use rd_store::Race;
use rd_wf::Accepted;
use std::alloc::Global;
use std::process::Abort;
use std::sync::ledger::Ledger;

/// What became of a line.
#[derive(Drop)]
pub enum Taken {
    /// it may not follow, and nothing changed
    Refused,
    /// it is no call
    Quiet,
    /// it is a call of an object of the kind with this number, and the detector answered that
    Call(u32, Option<Race>),
}

/// The lines so far, whose objects are of all the kinds, as both detectors keep them.
#[derive(Drop)]
pub struct Trial {
    alloc: Global,
    spec: Spec,
    course: Course,
    listing: Listing,
    lines: u64,
}

// The earlier call that a race names, if there is one.
fn found(race: &Option<Race>) -> Option<Found> {
    match race {
        Some(race) => Some((race.earlier.place, race.first, race.second)),
        None => None,
    }
}

impl Trial {
    /// No line.
    pub fn new(rt: &impl Abort, alloc: Global) -> Trial {
        let spec = all_kinds(rt, alloc);
        let course = Course::new(rt, alloc, &spec);
        Trial {
            alloc,
            spec,
            course,
            listing: Listing::new(alloc),
            lines: 0,
        }
    }

    // Both detectors answer the same for a call.
    fn is_agreed<L: Ledger>(
        &mut self,
        rt: &impl Abort,
        call: &Call,
        told: &Told,
        steps: &mut Steps<L>,
    ) {
        let wanted = self
            .listing
            .call(rt, &self.spec, told.place, call, &told.stamp, steps);
        let place = told.place;
        assert!(rt; found(&told.race) == wanted, "at {place}");
    }

    /// Takes a line, where it may follow.
    pub fn take<L: Ledger>(&mut self, rt: &impl Abort, text: &str, steps: &mut Steps<L>) -> Taken {
        let line = read_line(self.alloc, text.as_bytes(), 2).expect(rt, "a line");
        let number = self.lines.wrapping_add(1);
        let Some((accepted, told)) = self.course.take(rt, number, &line, steps) else {
            return Taken::Refused;
        };
        self.lines = number;
        let (Accepted::Event(Event::Call(call)), Some(told)) = (accepted, told) else {
            return Taken::Quiet;
        };
        self.is_agreed(rt, &call, &told, steps);
        Taken::Call(call.kind, told.race)
    }

    /// How many cells the detector has.
    pub fn cells(&self) -> u128 {
        self.course.cells()
    }
}
