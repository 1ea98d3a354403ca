//! The points that a call touches: what is found there, and how it is kept there.
ghost use Rattle.std.specs.Prelude.{◌≡◌, ℕ, ◌+◌, ◌≤◌, List, [], IfOk, OnErr, OnOk, flat_map, length, Some, option_map, slice_get, take};
ghost use Rattle.std.specs.List.{sum_by};
ghost use Rattle.rd_detect.specs.Detect.{AreBelow, AreTouched, IsLatestOf, asking_bound, conflicting_points, point_of, points_in};
ghost use Rattle.rd_detect.specs.Covers.{AreOwn, AreTrueFor, CoversKept, epoch_of};
ghost use Rattle.rd_detect.specs.Seats.{AreSeats};
ghost use Rattle.rd_points.specs.declared.points.Point.{Point as PointOf};
ghost use Rattle.rd_store.specs.Lent.{lent_point};
ghost use Rattle.rd_store.specs.Stores.{IsSameStore, point_at};

use crate::asking::{ask_others, ask_own};
use crate::covers::{Covers, Sought};
use arrayvec::ArrayVec;
use rd_base::{NoMemory, Steps, Value};
use rd_event::Call;
use rd_points::{Table, Touch, law_of_equal_points};
use rd_store::{PointRef, Seat, Store, Witness, WitnessRef};
use std::rc::Rc;
use std::sync::ledger::Ledger;

// The value of a slot, lent; none where there is no such slot.
fn slot(slots: &[Value], number: u8) -> Option<&Value>
    ensures { option_map (λ value. value.now) result ≡ slice_get slots.now number }
{
    slots.get(usize::from(number))
}

// The point that a call touches by a touch, with its value lent.
fn point(call: &Call, touch: Touch) -> PointRef
    ensures { lent_point result ≡ point_of call.now touch }
{
    let value = match touch.slot {
        Some(number) => slot(call.slots.items(), number),
        None => None,
    };
    PointRef {
        object: call.object,
        class: touch.class,
        value,
    }
}

/// Asks, for each point that the call touches, the points that conflict with it, and then enters it, with room for a cell of the call's thread. It
/// answers the latest call that the clock doesn't cover at the points that were asked, and puts the seats of the cells in the list. The cells
/// are as before, also after want of memory. What is known of the points follows.
pub fn look<L: Ledger>(
    store: &mut Store,
    covers: &mut Covers,
    table: &Table,
    seen: &WitnessRef,
    seats: &mut ArrayVec<Seat, 8>,
    steps: &mut Steps<L>,
) -> Result<Option<Rc<Witness>>, NoMemory>
    requires none { seats.old.items ≡ [] }
    requires told { AreTrueFor store.old covers.old seen.now.stamp.clock.now }
    ensures latest { IfOk result (λ latest. IsLatestOf store.old
        (flat_map (conflicting_points table.now) (points_in table.now seen.now.call.now)) seen.now.stamp.clock.now
        (option_map (λ held. held.value) latest)) }
    ensures seats { OnOk result
        (AreSeats store.new seen.now.call.now.thread (points_in table.now seen.now.call.now) seats.new.items) }
    ensures same { IsSameStore store.old store.new }
    ensures stay { (index : ℕ) (point : PointOf) → point_at store.old index ≡ Some point
        → point_at store.new index ≡ Some point }
    ensures covers { OnOk result (CoversKept store.new seen.now.stamp.clock.now (epoch_of seen.now.stamp) covers.old covers.new) }
    ensures own { OnOk result (AreOwn (epoch_of seen.now.stamp) covers.new seats.new.items) }
    ensures cost { (threads : ℕ) → AreBelow threads store.old
        → steps.new ≤ steps.old + sum_by (asking_bound table.now threads) (points_in table.now seen.now.call.now) }
{
    let call = seen.call;
    let touches = table.row(call.method, call.slots.items());
    let mut latest = None;
    for touch in touches {
        let point = point(call, *touch);
        let sought = Sought::new(point);
        let own = sought.point.class;
        let classes = table.conflicts(own);
        latest = ask_others(store, covers, sought, classes, seen.stamp, latest, steps)?;
        let seat = covers.enter(store, sought, call.thread)?;
        let asked = classes.contains(&own);
        latest = ask_own(store, covers, seat.index, asked, seen.stamp, latest, steps)?;
        seats.push(seat);
    }
    Ok(latest)
}

// Sets the cells of a thread that have these seats, as many as are told, to this call, and answers a call that stood in one of them, where there is
// one. Each growth comes first, so that after want of memory all is as before.
fn touch<L: Ledger>(
    store: &mut Store,
    seats: &[Seat],
    count: usize,
    thread: u32,
    witness: &Rc<Witness>,
    steps: &mut Steps<L>,
) -> Result<Option<Rc<Witness>>, NoMemory>
    requires seats { (points : List PointOf) × AreSeats store.old thread points seats.now }
    requires count { count ≤ length seats.now }
    ensures touched { OnOk result ((points : List PointOf) → AreSeats store.old thread points seats.now
        → AreTouched store.old store.new (take count points) thread witness.now.value) }
    ensures stay { OnOk result ((points : List PointOf) → AreSeats store.old thread points seats.now
        → AreSeats store.new thread points seats.now) }
    ensures points { (index : ℕ) → point_at store.new index ≡ point_at store.old index }
    ensures err { OnErr result (store.new ≡ store.old) }
    ensures cost { steps.new ≤ steps.old + count }
{
    law_of_equal_points();
    if count == 0 {
        return Ok(None);
    }
    let held = witness.clone()?;
    let before = touch(store, seats, count - 1, thread, witness, steps)?;
    let own = store.touch_at(seats[count - 1], thread, held, steps);
    Ok(own.or(before))
}

/// Sets the cells of a thread that have these seats to this call, and answers a call that stood in one of them, where there is one. After want of
/// memory all is as before.
pub fn touch_all<L: Ledger>(
    store: &mut Store,
    seats: &[Seat],
    thread: u32,
    witness: &Rc<Witness>,
    steps: &mut Steps<L>,
) -> Result<Option<Rc<Witness>>, NoMemory>
    requires { (points : List PointOf) × AreSeats store.old thread points seats.now }
    ensures touched { OnOk result ((points : List PointOf) → AreSeats store.old thread points seats.now
        → AreTouched store.old store.new points thread witness.now.value) }
    ensures points { (index : ℕ) → point_at store.new index ≡ point_at store.old index }
    ensures err { OnErr result (store.new ≡ store.old) }
    ensures cost { steps.new ≤ steps.old + length seats.now }
{
    law_of_equal_points();
    // Most calls touch one point.
    if let [seat] = seats {
        let held = witness.clone()?;
        return Ok(store.touch_at(*seat, thread, held, steps));
    }
    touch(store, seats, seats.len(), thread, witness, steps)
}
