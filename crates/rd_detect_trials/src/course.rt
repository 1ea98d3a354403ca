//! Lines that are given to a detector, as a command gives them.
ghost use Rattle.std.specs.Prelude.{◌≡◌, ◌≢◌, ◌<◌, ◌^◌, ℕ, Bool, List, [], ◌∷◌, ◌++◌, length, AllPairs};
ghost use Rattle.rd_detect.specs.Detect.{DetectorStandsFor};
ghost use Rattle.rd_detect_trials.specs.Courses.{IsNext, MayHappenNext, StandsForLines};
ghost use Rattle.rd_ecl.specs.Kinds.{kind_names, kinds_of};
ghost use Rattle.rd_ecl.specs.Specified.{SpecifiedKind};
ghost use Rattle.rd_event.specs.declared.events.Event.{Event as EventOf};
ghost use Rattle.rd_event.specs.declared.items.Line.{Line as LineOf};
ghost use Rattle.rd_hb.specs.Tracker.{TrackerStandsFor};
ghost use Rattle.rd_order.specs.EventLists.{threads_after};

use rd_base::{Limits, Steps};
use rd_clock::Stamp;
use rd_detect::{Detector, law_of_detectors};
use rd_ecl::Spec;
use rd_event::{Event, Line};
use rd_hb::Tracker;
use rd_store::Race;
use rd_wf::{Accepted, Roster, WfRefused};
use std::alloc::Global;
use std::marker::Model;
use std::process::Abort;
use std::sync::ledger::Ledger;

/// What is told of a call: its place among the events, its stamp, and what the detector answers.
#[derive(Drop)]
pub struct Told {
    pub place: u32,
    pub stamp: Stamp,
    pub race: Option<Race>,
}

// Hands the next event to the tracker, and a call to the detector.
fn happen<L: Ledger>(
    rt: &impl Abort,
    tracker: &mut Tracker,
    detector: &mut Detector,
    line: u64,
    place: u32,
    event: &Event,
    steps: &mut Steps<L>,
) -> Option<Told>
    requires { (kinds : List SpecifiedKind) × (roots : ℕ → Bool) × (numbers : List ℕ) × (es : List EventOf)
        × MayHappenNext kinds tracker.old detector.old roots numbers es place event.now }
    ensures tracked { (kinds : List SpecifiedKind) (roots : ℕ → Bool) (numbers : List ℕ) (es : List EventOf)
        → MayHappenNext kinds tracker.old detector.old roots numbers es place event.now
        → TrackerStandsFor tracker.new roots (es ++ event.now ∷ []) }
    ensures detects { (kinds : List SpecifiedKind) (roots : ℕ → Bool) (numbers : List ℕ) (es : List EventOf)
        → MayHappenNext kinds tracker.old detector.old roots numbers es place event.now
        → DetectorStandsFor kinds detector.new roots (numbers ++ line ∷ []) (es ++ event.now ∷ []) }
    ensures count { length tracker.new.threads ≡ threads_after event.now (length tracker.old.threads) }
{
    law_of_detectors();
    let Event::Call(call) = event else {
        tracker.pass(event, steps).expect(rt, "memory");
        return None;
    };
    let stamp = tracker.event(event, steps).expect(rt, "memory");
    let race = detector
        .call(line, place, call, &stamp, tracker, steps)
        .expect(rt, "memory");
    Some(Told { place, stamp, race })
}

// Hands an accepted line on.
fn follow<L: Ledger>(
    rt: &impl Abort,
    tracker: &mut Tracker,
    detector: &mut Detector,
    line: u64,
    place: u32,
    accepted: &Accepted,
    steps: &mut Steps<L>,
) -> Option<Told>
    requires { (kinds : List SpecifiedKind) × (before : List LineOf) × (item : LineOf)
        × IsNext kinds tracker.old detector.old before item accepted.now place }
    ensures { (kinds : List SpecifiedKind) (before : List LineOf) (item : LineOf)
        → IsNext kinds tracker.old detector.old before item accepted.now place
        → StandsForLines kinds tracker.new detector.new (before ++ item ∷ []) }
{
    law_of_detectors();
    match accepted {
        Accepted::Root(thread) => {
            tracker.root(*thread).expect(rt, "memory");
            None
        }
        Accepted::Event(event) => happen(rt, tracker, detector, line, place, event, steps),
        Accepted::Nothing | Accepted::Object { .. } => None,
    }
}

/// The roster, the tracker and the detector, which stand for the lines so far.
#[derive(Drop)]
pub struct Course {
    roster: Box<Roster>,
    tracker: Tracker,
    detector: Detector,
}

impl Model for Course {
    ghost use Rattle.std.specs.Prelude.{ℕ};
    ghost use Rattle.rd_detect_trials.specs.Courses.{IsCourse};

    ghost Value = { ℕ };

    ghost view = { λ c. 0 };

    ghost invariant = { λ c. IsCourse c.roster.value c.tracker c.detector };
}

impl Course {
    /// No line.
    pub fn new(rt: &impl Abort, alloc: Global, spec: &Spec) -> Course
        requires few { length spec.now < 2 ^ 32 }
        requires different { AllPairs (λ x y. x ≢ y) (kind_names (kinds_of spec.now)) }
    {
        let roster = Roster::new(alloc, spec).expect(rt, "memory");
        Course {
            roster: Box::new(alloc, roster).expect(rt, "memory"),
            tracker: Tracker::new(alloc),
            detector: Detector::new(alloc, spec).expect(rt, "memory"),
        }
    }

    /// Takes a line of this number, where it may follow; else nothing changes.
    pub fn take<L: Ledger>(
        &mut self,
        rt: &impl Abort,
        number: u64,
        line: &Line,
        steps: &mut Steps<L>,
    ) -> Option<(Accepted, Option<Told>)> {
        let place = self.roster.events();
        let accepted = match self.roster.accept(line, &Limits::standard()) {
            Ok(accepted) => accepted,
            Err(refused) => {
                assert!(rt; refused != WfRefused::NoMemory);
                return None;
            }
        };
        let told = follow(
            rt,
            &mut self.tracker,
            &mut self.detector,
            number,
            place,
            &accepted,
            steps,
        );
        Some((accepted, told))
    }

    /// How many cells the detector has.
    pub fn cells(&self) -> u128 {
        self.detector.cells()
    }
}
