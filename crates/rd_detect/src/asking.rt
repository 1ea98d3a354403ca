//! What is asked of the store for a call.
ghost use Rattle.std.specs.Prelude.{◌≡◌, ℕ, ◌+◌, ◌*◌, ◌≤◌, ◌⊎◌, List, [], ◌∷◌, ◌++◌, length, map, IfOk, OnOk, None, Some, option_map, if◌then◌else◌};
ghost use Rattle.rd_detect.specs.Covers.{AreTrueFor, CoversKept, cover_at, epoch_of};
ghost use Rattle.rd_detect.specs.Detect.{AreBelow, IsLatestOf, in_class, later_of};
ghost use Rattle.rd_detect.specs.Seats.{other_classes};
ghost use Rattle.rd_points.specs.declared.points.Point.{Point as PointOf};
ghost use Rattle.rd_store.specs.Lent.{lent_point};
ghost use Rattle.rd_store.specs.Stores.{point_at};

use crate::covers::{Covers, Sought};
use rd_base::{NoMemory, Steps};
use rd_clock::StampRef;
use rd_points::law_of_equal_points;
use rd_store::{Store, Witness, law_of_stores};
use std::rc::Rc;
use std::sync::ledger::Ledger;

// The later of two.
fn later(
    found: Option<Rc<Witness>>,
    other: Option<&Rc<Witness>>,
) -> Result<Option<Rc<Witness>>, NoMemory>
    ensures { IfOk result (λ later. option_map (λ held. held.value) later
        ≡ later_of (option_map (λ held. held.value) found) (option_map (λ held. held.now.value) other.entry)) }
{
    let Some(other) = other else {
        return Ok(found);
    };
    if let Some(one) = &found {
        if other.place <= one.place {
            return Ok(found);
        }
    }
    Ok(Some(other.clone()?))
}

// The latest call that the clock doesn't cover of the cells of the point at this index, or the one that was found before, where it is later.
// Where the clock has heard of the point's epoch, it covers all of them, and none is asked; where it covers all that are asked, its stamp is
// the epoch.
fn ask_at<L: Ledger>(
    store: &Store,
    covers: &mut Covers,
    index: usize,
    stamp: StampRef,
    found: Option<Rc<Witness>>,
    steps: &mut Steps<L>,
) -> Result<Option<Rc<Witness>>, NoMemory>
    requires index { (point : PointOf) × (point_at store.now index ≡ Some point) }
    requires told { AreTrueFor store.now covers.old stamp.clock.now }
    ensures latest { IfOk result (λ latest. (points : List PointOf) (point : PointOf)
        → point_at store.now index ≡ Some point
        → IsLatestOf store.now points stamp.entry.clock.now (option_map (λ held. held.value) found)
        → IsLatestOf store.now (points ++ point ∷ []) stamp.entry.clock.now (option_map (λ held. held.value) latest)) }
    ensures covers { CoversKept store.now stamp.entry.clock.now (epoch_of stamp.entry) covers.old covers.new }
    ensures cost { (threads : ℕ) → AreBelow threads store.now → steps.new ≤ steps.old + (threads + 1) }
{
    law_of_stores();
    if covers.are_heard(index, stamp.clock) {
        steps.tick();
        return Ok(found);
    }
    let other = store.latest_at(index, stamp.clock, steps);
    if other.is_none() {
        covers.set(index, stamp)?;
    }
    later(found, other)
}

/// The latest call that the clock doesn't cover of the cells of a point in these classes but its own, or the one that was found before, where it is
/// later.
pub fn ask_others<L: Ledger>(
    store: &Store,
    covers: &mut Covers,
    sought: Sought,
    classes: &[u32],
    stamp: StampRef,
    found: Option<Rc<Witness>>,
    steps: &mut Steps<L>,
) -> Result<Option<Rc<Witness>>, NoMemory>
    requires { AreTrueFor store.now covers.old stamp.clock.now }
    ensures latest { IfOk result (λ latest. (points : List PointOf)
        → IsLatestOf store.now points stamp.entry.clock.now (option_map (λ held. held.value) found)
        → IsLatestOf store.now (points ++ map (in_class (lent_point sought.entry.point)) (other_classes sought.entry.point.class classes.now)) stamp.entry.clock.now
        (option_map (λ held. held.value) latest)) }
    ensures covers { CoversKept store.now stamp.entry.clock.now (epoch_of stamp.entry) covers.old covers.new }
    ensures cost { (threads : ℕ) → AreBelow threads store.now
        → steps.new ≤ steps.old + length (other_classes sought.entry.point.class classes.now) * (threads + 1) }
{
    law_of_equal_points();
    let mut found = found;
    for class in classes {
        if *class == sought.point.class {
            continue;
        }
        match covers.index_of(store, sought.in_class(*class)) {
            Some(index) => found = ask_at(store, covers, index, stamp, found, steps)?,
            None => steps.tick(),
        }
    }
    Ok(found)
}

/// The same for the point at this index, which the call touches, where it is asked. Its epoch is then the stamp, where that has heard of it;
/// else nothing is known of the point.
pub fn ask_own<L: Ledger>(
    store: &Store,
    covers: &mut Covers,
    index: usize,
    asked: bool,
    stamp: StampRef,
    found: Option<Rc<Witness>>,
    steps: &mut Steps<L>,
) -> Result<Option<Rc<Witness>>, NoMemory>
    requires index { (point : PointOf) × (point_at store.now index ≡ Some point) }
    requires told { AreTrueFor store.now covers.old stamp.clock.now }
    ensures latest { IfOk result (λ latest. (points : List PointOf) (point : PointOf)
        → point_at store.now index ≡ Some point
        → IsLatestOf store.now points stamp.entry.clock.now (option_map (λ held. held.value) found)
        → IsLatestOf store.now (points ++ (if asked then point ∷ [] else [])) stamp.entry.clock.now
        (option_map (λ held. held.value) latest)) }
    ensures covers { CoversKept store.now stamp.entry.clock.now (epoch_of stamp.entry) covers.old covers.new }
    ensures own { OnOk result ((cover_at covers.new index ≡ None)
        ⊎ (cover_at covers.new index ≡ Some (epoch_of stamp.entry))) }
    ensures cost { (threads : ℕ) → AreBelow threads store.now
        → steps.new ≤ steps.old + (if asked then threads + 1 else 0) }
{
    let mut found = found;
    if asked {
        found = ask_at(store, covers, index, stamp, found, steps)?;
    }
    covers.renew(index, stamp);
    Ok(found)
}
