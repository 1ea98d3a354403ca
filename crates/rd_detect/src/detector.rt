//! The detector.
ghost use Rattle.std.specs.Prelude.{◌≡◌, ℕ, ◌+◌, ◌*◌, ◌<◌, ◌≤◌, Bool, List, [], ◌∷◌, ◌++◌, Some, flat_map, length, IfOk, OnOk, OnErr, IfNone, IfSome, MatchOption, IsTrue, false, option_map};
ghost use Rattle.std.specs.List.{sum_by};
ghost use Rattle.rd_classes.specs.Merged.{merged};
ghost use Rattle.rd_detect.specs.Detect.{Answers, AreBelow, IsLatestOf, IsNextCall, IsRaceOf, IsSweptWhere, IsCallKept, IsCallLeft, DetectorStandsFor, asking_bound, conflicting_points, is_due, table_at, tables_of, touched_points};
ghost use Rattle.rd_detect.specs.Covers.{AreLeft, AreOwn, AreTrueFor, CoversKept, CoversStandFor, epoch_of};
ghost use Rattle.rd_detect.specs.Seats.{AreSeats};
ghost use Rattle.rd_detect.specs.Taking.{JudgesCall};
ghost use Rattle.rd_clock.specs.Stamps.{lent_stamp};
ghost use Rattle.rd_ecl.specs.Kinds.{kinds_of};
ghost use Rattle.rd_ecl.specs.Specified.{SpecifiedKind};
ghost use Rattle.rd_event.specs.declared.events.Event.{Event as EventOf};
ghost use Rattle.rd_event.specs.declared.events.Event.TheVariants as event;
ghost use Rattle.rd_hb.specs.Tracker.{IsFloor, IsStamp, last_stamp};
ghost use Rattle.rd_hb.specs.declared.tracker.Tracked.{Tracked as TrackedOf};
ghost use Rattle.rd_order.specs.EventLists.{WellFormedWith};
ghost use Rattle.rd_points.specs.declared.points.Point.{Point as PointOf};
ghost use Rattle.rd_store.specs.Lent.{lent_witness};
ghost use Rattle.rd_store.specs.Stores.{IsOneEach, cell_count, point_at};

#[cfg(test)]
mod tests;

use crate::covers::Covers;
use crate::touching::{look, touch_all};
use arrayvec::ArrayVec;
use rd_base::{NoMemory, Steps};
use rd_classes::{law_of_merging, merged_table};
use rd_clock::{Clock, Stamp, StampRef};
use rd_ecl::{KindSpec, Spec};
use rd_event::Call;
use rd_hb::Tracker;
use rd_points::{Table, law_of_equal_points};
use rd_store::{Race, Seat, Store, Witness, WitnessRef, renewed_witness};
use std::alloc::Global;
use std::marker::Model;
use std::rc::Rc;
use std::sync::ledger::Ledger;

// Those of all kinds.
fn tables(alloc: Global, kinds: &[KindSpec]) -> Result<Vec<Table>, NoMemory>
    ensures { IfOk result (λ tables. tables.items ≡ tables_of kinds.now) }
{
    let mut tables = Vec::new(alloc);
    for kind in kinds {
        tables.push(merged_table(alloc, kind)?)?;
    }
    Ok(tables)
}

/// Finds the calls that race. It keeps the merged table of access points of each kind; a cell for each point and each thread that touched
/// it, with the thread's last call there; and how many cells were left by the last sweep. Contracts see it as these three.
#[derive(Drop)]
pub struct Detector {
    alloc: Global,
    tables: Vec<Table>,
    store: Store,
    kept: u128,
}

impl Model for Detector {
    ghost use Rattle.rd_detect.specs.Detect.{Detecting};
    ghost use Rattle.std.specs.Coded.{codes};
    ghost use Rattle.rd_ecl.specs.Codes.{coded_tree};

    ghost Value = { Detecting };

    ghost coded = { Prim.hlevel (codes, coded_tree) };

    ghost view = { λ d. record { tables = d.tables.items; store = d.store; kept = d.kept } };
}

impl Detector {
    /// A detector without a call, for traces with objects of the kinds of a specification. It stands for the list of no events.
    pub fn new(alloc: Global, spec: &Spec) -> Result<Detector, NoMemory>
        ensures empty { IfOk result
            (λ detector. detector ≡ record { tables = tables_of spec.now; store = []; kept = 0 }) }
        ensures stands { IfOk result (λ detector. (roots : ℕ → Bool) →
            WellFormedWith (kinds_of spec.now) roots [] →
            DetectorStandsFor spec.now detector roots [] []) }
    {
        Ok(Detector {
            alloc,
            tables: tables(alloc, spec.kinds())?,
            store: Store::new(alloc),
            kept: 0,
        })
    }

    // The latest call that is found for a call with this clock. The points that it touches are entered then, and where their cells stand
    // is put in the list.
    fn look<L: Ledger>(
        &mut self,
        seen: &WitnessRef,
        covers: &mut Covers,
        seats: &mut ArrayVec<Seat, 8>,
        steps: &mut Steps<L>,
    ) -> Result<Option<Rc<Witness>>, NoMemory>
        requires kind { seen.now.call.now.kind < length self.old.tables }
        requires none { seats.old.items ≡ [] }
        requires told { AreTrueFor self.old.store covers.old seen.now.stamp.clock.now }
        ensures latest { IfOk result (λ latest. IsLatestOf self.old.store
            (flat_map (conflicting_points (table_at self.old.tables seen.now.call.now.kind))
            (touched_points self.old.tables seen.now.call.now)) seen.now.stamp.clock.now
            (option_map (λ held. held.value) latest)) }
        ensures seats { OnOk result (AreSeats self.new.store seen.now.call.now.thread
            (touched_points self.old.tables seen.now.call.now) seats.new.items) }
        ensures same { IsCallLeft self.old self.new }
        ensures stay { (index : ℕ) (point : PointOf) → point_at self.old.store index ≡ Some point
            → point_at self.new.store index ≡ Some point }
        ensures covers { OnOk result (CoversKept self.new.store seen.now.stamp.clock.now (epoch_of seen.now.stamp)
            covers.old covers.new) }
        ensures own { OnOk result (AreOwn (epoch_of seen.now.stamp) covers.new seats.new.items) }
        ensures cost { (threads : ℕ) → AreBelow threads self.old.store → steps.new ≤ steps.old
            + sum_by (asking_bound (table_at self.old.tables seen.now.call.now.kind) threads)
            (touched_points self.old.tables seen.now.call.now) }
    {
        let table = &self.tables[seen.call.kind as usize];
        look(&mut self.store, covers, table, seen, seats, steps)
    }

    // The floor of the threads, where with so many cells more a sweep may be due.
    fn floor(&self, more: usize, tracker: &Tracker) -> Result<Option<Clock>, NoMemory>
        ensures { IfOk result (λ floor. MatchOption floor
            ((count : ℕ) → count ≤ cell_count self.now.store + more
            → is_due count self.now.kept ≡ false)
            (IsFloor tracker.now.threads)) }
    {
        if !may_be_due(self.store.cells(), more as u64, self.kept) {
            return Ok(None);
        }
        Ok(Some(tracker.floor()?))
    }

    // Drops the cells that the floor covers, where a sweep is due. Then there is a floor. Where points may go, nothing is known of any.
    fn sweep(&mut self, floor: Option<Clock>, covers: &mut Covers)
        requires { IfNone floor (is_due (cell_count self.old.store) self.old.kept ≡ false) }
        ensures tables { self.new.tables ≡ self.old.tables }
        ensures swept { (threads : List TrackedOf) → IfSome floor (IsFloor threads)
            → IsSweptWhere (is_due (cell_count self.old.store) self.old.kept) threads self.old.kept
            self.old.store self.new.store self.new.kept }
        ensures covers { AreLeft self.old.store self.new.store covers.old covers.new }
    {
        let Some(floor) = floor else {
            return;
        };
        if is_due(self.store.cells(), self.kept) {
            if self.store.entered() as u128 / 4 > self.store.cells() {
                covers.clear();
            }
            self.store.sweep(&floor);
            self.kept = self.store.cells();
        }
    }

    // Keeps a call for which nothing was found, and which touches one point, in the memory of the cell there, where nothing else has that. It answers
    // whether it did. Not where a sweep is due.
    fn keep_over<L: Ledger>(
        &mut self,
        found: bool,
        seats: &[Seat],
        seen: &WitnessRef,
        steps: &mut Steps<L>,
    ) -> Result<bool, NoMemory>
        requires { AreSeats self.old.store seen.now.call.now.thread
            (touched_points self.old.tables seen.now.call.now) seats.now }
        ensures none { IfOk result (λ done. IsTrue done → found ≡ false) }
        ensures taken { IfOk result (λ done. IsTrue done → (threads : List TrackedOf)
            → IsCallKept threads self.old self.new seen.now.call.now (lent_witness seen.now)) }
        ensures points { (index : ℕ) → point_at self.new.store index ≡ point_at self.old.store index }
        ensures kept { IfOk result (λ done. done ≡ false → self.new ≡ self.old) }
        ensures err { OnErr result (self.new ≡ self.old) }
        ensures cost { steps.new ≤ steps.old + length seats.now }
    {
        law_of_equal_points();
        let [seat] = seats else {
            return Ok(false);
        };
        if found || is_due(self.store.cells(), self.kept) {
            return Ok(false);
        }
        self.store.touch_over(*seat, *seen, steps)
    }

    // Keeps a call in the cells of the points that it touches, which stand at these seats. Then a sweep comes where it is due. A call that stood in
    // one of the cells may then be written over.
    fn keep<L: Ledger>(
        &mut self,
        seats: &[Seat],
        witness: &Rc<Witness>,
        tracker: &Tracker,
        covers: &mut Covers,
        steps: &mut Steps<L>,
    ) -> Result<(), NoMemory>
        requires { AreSeats self.old.store witness.now.value.call.thread
            (touched_points self.old.tables witness.now.value.call) seats.now }
        ensures taken { OnOk result (IsCallKept tracker.now.threads self.old self.new
            witness.now.value.call witness.now.value) }
        ensures covers { OnOk result (AreLeft self.old.store self.new.store covers.old covers.new) }
        ensures err { OnErr result (IsCallLeft self.old self.new) }
        ensures cost { steps.new ≤ steps.old + length seats.now }
    {
        let floor = self.floor(seats.len(), tracker)?;
        let before = touch_all(&mut self.store, seats, witness.call.thread, witness, steps)?;
        self.sweep(floor, covers);
        covers.keep_spare(witness.call.thread, before);
        Ok(())
    }

    // Keeps a call in memory of its own, or in that of a call which isn't kept any longer, and answers its race with the latest call that was found, if
    // one was.
    // kept out of line, so that a call that needs no memory doesn't pay for its locals
    #[inline(never)]
    fn keep_new<L: Ledger>(
        &mut self,
        latest: Option<Rc<Witness>>,
        seats: &[Seat],
        seen: &WitnessRef,
        tracker: &Tracker,
        covers: &mut Covers,
        steps: &mut Steps<L>,
    ) -> Result<Option<Race>, NoMemory>
        requires { AreSeats self.old.store seen.now.call.now.thread
            (touched_points self.old.tables seen.now.call.now) seats.now }
        ensures answer { IfOk result
            (Answers (lent_witness seen.now) (option_map (λ held. held.value) latest)) }
        ensures taken { OnOk result (IsCallKept tracker.now.threads self.old self.new
            seen.now.call.now (lent_witness seen.now)) }
        ensures covers { OnOk result (AreLeft self.old.store self.new.store covers.old covers.new) }
        ensures err { OnErr result (IsCallLeft self.old self.new) }
        ensures cost { steps.new ≤ steps.old + length seats.now }
    {
        let witness = renewed_witness(self.alloc, covers.take_spare(seen.call.thread), *seen)?;
        let answer = answer(&witness, latest)?;
        self.keep(seats, &witness, tracker, covers, steps)?;
        Ok(answer)
    }

    // Takes a call as `call` does, with what is known of it lent.
    // kept out of line, so that a walk over other lines doesn't pay for its locals
    #[inline(never)]
    fn judge<L: Ledger>(
        &mut self,
        seen: &WitnessRef,
        tracker: &Tracker,
        covers: &mut Covers,
        steps: &mut Steps<L>,
    ) -> Result<Option<Race>, NoMemory>
        requires next { (kinds : List SpecifiedKind) × (roots : ℕ → Bool) × (lines : List ℕ) × (es : List EventOf)
            × IsNextCall kinds self.old tracker.now roots lines es seen.now.place seen.now.call.now (lent_stamp seen.now.stamp) }
        requires told { (es : List EventOf) × IsStamp (es ++ event.Call seen.now.call.now ∷ []) (length es) (lent_stamp seen.now.stamp)
            × CoversStandFor es self.old.store covers.old }
        ensures judged { JudgesCall self.old self.new tracker.now seen.now.line seen.now.place seen.now.call.now (lent_stamp seen.now.stamp)
            result steps.old steps.new }
        ensures covers { OnOk result ((es : List EventOf) → IsStamp (es ++ event.Call seen.now.call.now ∷ []) (length es) (lent_stamp seen.now.stamp)
            → CoversStandFor es self.old.store covers.old
            → CoversStandFor (es ++ event.Call seen.now.call.now ∷ []) self.new.store covers.new) }
    {
        law_of_merging();
        let mut seats = ArrayVec::new();
        let latest = self.look(seen, covers, &mut seats, steps)?;
        // `cells` is called for its clause that no point stands there twice.
        let _cells = self.cells();
        if self.keep_over(latest.is_some(), seats.as_slice(), seen, steps)? {
            return Ok(None);
        }
        self.keep_new(latest, seats.as_slice(), seen, tracker, covers, steps)
    }

    /// Takes the call at the next place of a trace that is well-formed with the specification, on the line of that number, with the
    /// stamp that the tracker gave for it; the tracker stands for the trace with the call. It answers the race with the latest earlier call
    /// that races with it: on the same object, tied to it by no order, and not commuting. Then it keeps the call in the cells of the points
    /// that it touches; and where there are at least 64 cells and twice as many as the last sweep left, it drops those that each thread
    /// knows which wasn't joined. After want of memory all is as before, but for room.
    pub fn call<L: Ledger>(
        &mut self,
        line: u64,
        place: u32,
        call: &Call,
        stamp: &Stamp,
        tracker: &Tracker,
        steps: &mut Steps<L>,
    ) -> Result<Option<Race>, NoMemory>
        requires next { (kinds : List SpecifiedKind) × (roots : ℕ → Bool) × (lines : List ℕ) × (es : List EventOf)
            × IsNextCall kinds self.old tracker.now roots lines es place call.now stamp.now }
        ensures { JudgesCall self.old self.new tracker.now line place call.now stamp.now result steps.old steps.new }
    {
        let seen = WitnessRef {
            line,
            place,
            call,
            stamp: StampRef::new(stamp),
        };
        self.judge(&seen, tracker, &mut Covers::new(self.alloc), steps)
    }

    /// Takes a call as `call` does, where the tracker passed it last, and so has its stamp. What is known of the points is lent, and followed,
    /// so that a point whose calls are all known to an event that the call's thread has heard of takes one step. After want of memory nothing
    /// is known of any point.
    pub fn take<L: Ledger>(
        &mut self,
        line: u64,
        place: u32,
        call: &Call,
        tracker: &Tracker,
        covers: &mut Covers,
        steps: &mut Steps<L>,
    ) -> Result<Option<Race>, NoMemory>
        requires next { (kinds : List SpecifiedKind) × (roots : ℕ → Bool) × (lines : List ℕ) × (es : List EventOf)
            × IsNextCall kinds self.old tracker.now roots lines es place call.now (last_stamp tracker.now.threads call.now.thread) }
        requires told { (es : List EventOf) × IsStamp (es ++ event.Call call.now ∷ []) (length es) (last_stamp tracker.now.threads call.now.thread)
            × CoversStandFor es self.old.store covers.old }
        ensures judged { JudgesCall self.old self.new tracker.now line place call.now (last_stamp tracker.now.threads call.now.thread) result steps.old steps.new }
        ensures covers { OnOk result ((es : List EventOf) → IsStamp (es ++ event.Call call.now ∷ []) (length es) (last_stamp tracker.now.threads call.now.thread)
            → CoversStandFor es self.old.store covers.old
            → CoversStandFor (es ++ event.Call call.now ∷ []) self.new.store covers.new) }
        ensures none { OnErr result (covers.new ≡ []) }
    {
        let seen = WitnessRef {
            line,
            place,
            call,
            stamp: tracker.last_stamp(call.thread),
        };
        let answer = self.judge(&seen, tracker, covers, steps);
        if answer.is_err() {
            covers.clear();
        }
        answer
    }

    /// How many cells there are: one for each point and each thread that touched it, but for those that were swept. It takes no memory.
    pub fn cells(&self) -> u128
        ensures count { result ≡ cell_count self.now.store }
        ensures one_each { IsOneEach self.now.store }
    {
        self.store.cells()
    }
}

// Is a sweep due?
fn is_due(cells: u128, kept: u128) -> bool
    ensures { result ≡ is_due cells kept }
{
    64 <= cells && kept <= cells / 2
}

// May one be due with so many cells more?
fn may_be_due(cells: u128, more: u64, kept: u128) -> bool
    ensures { result ≡ false
        → (count : ℕ) → count ≤ cells + more → is_due count kept ≡ false }
{
    let more = u128::from(more);
    64 <= cells.saturating_add(more) && kept <= cells / 2 + more
}

// The race of two calls of one kind.
fn race_of(later: &Rc<Witness>, earlier: Rc<Witness>) -> Result<Race, NoMemory>
    ensures { IfOk result (λ race. IsRaceOf later.now.value earlier.value race) }
{
    let (one, other) = (later.call.method, earlier.call.method);
    Ok(Race {
        later: later.clone()?,
        earlier,
        kind: later.call.kind,
        first: one.min(other),
        second: one.max(other),
    })
}

// The race of a call with the newest earlier one that races with it, where there is one.
fn answer(later: &Rc<Witness>, earlier: Option<Rc<Witness>>) -> Result<Option<Race>, NoMemory>
    ensures { IfOk result (Answers later.now.value (option_map (λ held. held.value) earlier)) }
{
    match earlier {
        None => Ok(None),
        Some(earlier) => Ok(Some(race_of(later, earlier)?)),
    }
}
