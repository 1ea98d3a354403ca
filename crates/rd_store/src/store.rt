//! The cells of access points.
ghost use Rattle.std.specs.Prelude.{◌≡◌, ℕ, false, ◌+◌, ◌*◌, ◌<◌, ◌≤◌, ◌⊎◌, not, [], Contains, length, map, option_map, is_some, OnOk, OnErr, IfOk, IsSome, IsTrue, if◌then◌else◌};
ghost use Rattle.rd_points.specs.declared.points.Point.{Point as PointOf};
ghost use Rattle.rd_store.specs.StoreParts.{cell, cells_of, room_of, later_found, latest_in_cells, live, swept_at, with_cell};
ghost use Rattle.rd_store.specs.Lent.{lent_witness};
ghost use Rattle.rd_store.specs.Stores.{HasOneEach, HasRoom, IsLatestUncovered, IsOneEach, IsSameStore, IsSwept, IsTouched, cell_count, cell_of, cells_at, is_covered, others_of, place_of, point_at};

mod indexed;
mod renewed;

use crate::{PointRef, Witness, WitnessRef};
use indexmap::IndexMap;
use rd_base::{NoMemory, Steps};
use rd_clock::Clock;
use rd_points::{Point, Points, law_of_equal_points};
pub use renewed::renewed_witness;
use std::alloc::Global;
use std::marker::Model;
use std::mem;
use std::rc::Rc;
use std::sync::ledger::Ledger;

// The place of the first cell of a thread, or how many cells there are where it has none.
fn place_of(cells: &[(u32, Rc<Witness>)], thread: u32) -> usize
    ensures { result ≡ place_of (map cell cells.now) thread }
{
    for (place, held) in cells.iter().enumerate() {
        if held.0 == thread {
            return place;
        }
    }
    cells.len()
}

// The later of what was found before and a cell that the clock doesn't cover.
fn later<'a, L: Ledger>(
    found: Option<&'a Rc<Witness>>,
    held: &'a (u32, Rc<Witness>),
    clock: &Clock,
    steps: &mut Steps<L>,
) -> Option<&'a Rc<Witness>>
    ensures value { option_map (λ one. one.now.value) result
        ≡ later_found clock.now (option_map (λ one. one.now.value) found.entry) (cell held.now) }
    ensures cost { steps.new ≡ steps.old + 1 }
{
    if clock.covers(held.0, held.1.stamp.number, steps) {
        return found;
    }
    match found {
        Some(before) => {
            if held.1.place <= before.place {
                found
            } else {
                Some(&held.1)
            }
        }
        None => Some(&held.1),
    }
}

// The latest that the clock doesn't cover.
fn latest_of<'a, L: Ledger>(
    cells: &'a [(u32, Rc<Witness>)],
    clock: &Clock,
    steps: &mut Steps<L>,
) -> Option<&'a Rc<Witness>>
    ensures value { option_map (λ one. one.now.value) result
        ≡ latest_in_cells clock.now (map cell cells.now) }
    ensures cost { steps.new ≡ steps.old + length cells.now }
{
    let mut latest = None;
    for held in cells {
        latest = later(latest, held, clock, steps);
    }
    latest
}

// Puts a cell in the place of its thread, and answers what was kept in the one that stood there.
fn put(
    cells: &mut Vec<(u32, Rc<Witness>)>,
    place: usize,
    thread: u32,
    witness: Rc<Witness>,
) -> Option<Rc<Witness>>
    requires place { place ≡ place_of (cells_of cells.old) thread }
    requires room { IsSome (cell_of (cells_of cells.old) thread) ⊎ (1 ≤ room_of cells.old) }
    ensures cells { cells_of cells.new ≡ with_cell (cells_of cells.old) thread witness.value }
    ensures before { is_some result ≡ is_some (cell_of (cells_of cells.old) thread) }
    ensures room { room_of cells.new + (if is_some result then 0 else 1) ≡ room_of cells.old }
{
    if place < cells.len() {
        let (_thread, before) = mem::replace(&mut cells[place], (thread, witness));
        return Some(before);
    }
    cells.push_reserved((thread, witness));
    None
}

// Makes room for a cell of a thread that has none, and answers the place of its cell.
fn reserve_cell(cells: &mut Vec<(u32, Rc<Witness>)>, thread: u32) -> Result<usize, NoMemory>
    ensures place { IfOk result (λ place. place ≡ place_of (cells_of cells.old) thread) }
    ensures room { OnOk result
        (IsSome (cell_of (cells_of cells.new) thread) ⊎ (1 ≤ room_of cells.new)) }
    ensures same { cells_of cells.new ≡ cells_of cells.old }
    ensures more { room_of cells.old ≤ room_of cells.new }
{
    let place = place_of(cells.as_slice(), thread);
    if place < cells.len() {
        return Ok(place);
    }
    // Most points have few cells, and these take no more room than they need.
    if cells.len() < 4 {
        cells.reserve_exact(1)?;
    } else {
        cells.reserve(1)?;
    }
    Ok(place)
}

// Makes what is kept of a call that of another, where the clocks have the same room, and answers whether they have.
fn renew(alloc: Global, held: &mut Witness, seen: WitnessRef) -> Result<bool, NoMemory>
    ensures renewed { IfOk result (λ done. IsTrue done → held.new ≡ lent_witness seen.entry) }
    ensures kept { IfOk result (λ done. done ≡ false → held.new ≡ held.old) }
    ensures err { OnErr result (held.new ≡ held.old) }
{
    if held.stamp.clock.room() != seen.stamp.clock.room() {
        return Ok(false);
    }
    if !held.call.slots.assign(&seen.call.slots)? {
        held.call.slots = seen.call.slots.copy(alloc)?;
    }
    held.call.thread = seen.call.thread;
    held.call.object = seen.call.object;
    held.call.kind = seen.call.kind;
    held.call.method = seen.call.method;
    held.stamp.clock.overwrite(seen.stamp.clock);
    held.stamp.thread = seen.stamp.thread;
    held.stamp.number = seen.stamp.number;
    held.line = seen.line;
    held.place = seen.place;
    Ok(true)
}

// The same in memory that nothing else has.
fn renew_held(alloc: Global, held: &mut Rc<Witness>, seen: WitnessRef) -> Result<bool, NoMemory>
    ensures renewed { IfOk result (λ done. IsTrue done → held.new.value ≡ lent_witness seen.entry) }
    ensures kept { IfOk result (λ done. done ≡ false → held.new.value ≡ held.old.value) }
    ensures err { OnErr result (held.new.value ≡ held.old.value) }
{
    match Rc::get_mut(held) {
        Some(held) => renew(alloc, held, seen),
        None => Ok(false),
    }
}

// The same in the cell at a place, where there is one.
fn renew_cell(
    alloc: Global,
    cells: &mut Vec<(u32, Rc<Witness>)>,
    place: usize,
    seen: WitnessRef,
) -> Result<bool, NoMemory>
    requires { place ≡ place_of (cells_of cells.old) seen.call.now.thread }
    ensures there { IfOk result (λ done. IsTrue done
        → IsSome (cell_of (cells_of cells.old) seen.entry.call.now.thread)) }
    ensures renewed { IfOk result (λ done. IsTrue done → cells_of cells.new
        ≡ with_cell (cells_of cells.old) seen.entry.call.now.thread (lent_witness seen.entry)) }
    ensures kept { IfOk result (λ done. done ≡ false → cells_of cells.new ≡ cells_of cells.old) }
    ensures err { OnErr result (cells_of cells.new ≡ cells_of cells.old) }
    ensures room { room_of cells.new ≡ room_of cells.old }
{
    if place >= cells.len() {
        return Ok(false);
    }
    let held = &mut cells[place];
    renew_held(alloc, &mut held.1, seen)
}

// Whether the clock doesn't cover a cell.
fn is_live(held: &(u32, Rc<Witness>), floor: &Clock) -> bool
    ensures { result ≡ not (is_covered floor.now held.now.0 held.now.1.value) }
{
    !floor.reaches(held.0, held.1.stamp.number)
}

// Drops the cells that the clock covers, and answers how many there were.
fn sweep_cells(cells: &mut Vec<(u32, Rc<Witness>)>, floor: &Clock) -> usize
    ensures cells { cells_of cells.new ≡ live floor.now (cells_of cells.old) }
    ensures gone { length (cells_of cells.new) + result ≡ length (cells_of cells.old) }
    ensures room { room_of cells.new ≡ room_of cells.old + result }
{
    let old = cells.len();
    cells.retain(|held| is_live(held, floor));
    old - cells.len()
}

/// The cells of each point that was entered: the last call of each thread that touched it. Contracts see it as a list of points, each
/// with its cells and with how many more it can take without memory; a look-up tells what is held of a point.
#[derive(Drop)]
pub struct Store {
    alloc: Global,
    points: IndexMap<Point, Vec<(u32, Rc<Witness>)>>,
    count: u128,
}

impl Model for Store {
    ghost use Rattle.std.specs.Prelude.{List};
    ghost use Rattle.std.specs.Coded.{codes};
    ghost use Rattle.rd_store.specs.Stores.{PointCells};

    ghost Value = { List PointCells };

    ghost use Rattle.rd_store.specs.StoreParts.{held_entries, AreStoreFields};

    ghost view = { λ s. held_entries s.points.entries };

    ghost invariant = { λ s. AreStoreFields s.points.entries s.count };
}

impl Store {
    /// A store without a cell. It takes no memory.
    pub fn new(alloc: Global) -> Store
        ensures { result ≡ [] }
    {
        Store {
            alloc,
            points: IndexMap::new(alloc),
            count: 0,
        }
    }

    /// Of a point's cells that the clock doesn't cover, what is kept of the call with the latest place; nothing exactly where the clock covers
    /// each. It takes no memory, one step, and one for each cell of the point.
    pub fn latest_uncovered<L: Ledger>(
        &self,
        point: &Point,
        clock: &Clock,
        steps: &mut Steps<L>,
    ) -> Option<&Rc<Witness>>
        ensures latest { IsLatestUncovered self.now point.now clock.now
            (option_map (λ held. held.now.value) result) }
        ensures one_each { HasOneEach (cells_at self.now point.now) }
        ensures cost { steps.new ≡ steps.old + 1 + length (cells_at self.now point.now) }
    {
        self.latest_of(PointRef::new(point), clock, steps)
    }

    // Makes room for a cell of this thread at a point.
    fn reserve_one(&mut self, point: &Point, thread: u32) -> Result<(), NoMemory>
        ensures room { OnOk result (HasRoom self.new thread point.now) }
        ensures same { IsSameStore self.old self.new }
    {
        self.enter(PointRef::new(point), thread)?;
        Ok(())
    }

    /// Makes room for a cell of this thread at each of these points. The cells are as before, also after want of memory.
    pub fn reserve(&mut self, points: &Points, thread: u32) -> Result<(), NoMemory>
        ensures room { OnOk result
            ((point : PointOf) → Contains points.now point → HasRoom self.new thread point) }
        ensures same { IsSameStore self.old self.new }
    {
        for point in points.items() {
            self.reserve_one(point, thread)?;
        }
        Ok(())
    }

    /// Sets the cell of a thread at a point, where the thread has one or there is room for it. It takes no memory, at least one step, and
    /// at most two more than the point has cells of other threads.
    pub fn touch_reserved<L: Ledger>(
        &mut self,
        point: Point,
        thread: u32,
        witness: Rc<Witness>,
        steps: &mut Steps<L>,
    )
        requires { HasRoom self.old thread point }
        ensures touched { IsTouched self.old self.new point thread witness.value }
        ensures one_each { HasOneEach (cells_at self.old point) }
        ensures some_cost { steps.old + 1 ≤ steps.new }
        ensures cost { steps.new ≤ steps.old + 2 + others_of (cells_at self.old point) thread }
    {
        let index = self.index_of(PointRef::new(&point)).unwrap();
        let seat = self.seat_at(index, thread);
        self.touch_at(seat, thread, witness, steps);
    }

    /// How many points are entered, none of them twice, each with at most one cell for each thread. It takes no memory.
    pub fn entered(&self) -> usize
        ensures len { result ≡ length self.now }
        ensures one_each { IsOneEach self.now }
    {
        law_of_equal_points();
        self.points.len()
    }

    // Drops the cells that the clock covers, of the point at this place among those that were entered.
    fn sweep_at(&mut self, place: usize, floor: &Clock)
        requires { place < length self.old }
        ensures { self.new ≡ swept_at floor.now self.old place }
    {
        let gone = sweep_cells(self.points.get_index_mut(place).unwrap(), floor);
        self.count -= gone as u128;
    }

    // Takes out the points that have no cell.
    fn drop_bare_points(&mut self)
        ensures cells { (point : PointOf) → cells_at self.new point ≡ cells_at self.old point }
        ensures count { cell_count self.new ≡ cell_count self.old }
        ensures few { length self.new ≤ cell_count self.new }
    {
        law_of_equal_points();
        // `len` is called for its clause that no point stands there twice.
        let _entered = self.points.len();
        self.points.retain(|_point, cells| !cells.is_empty());
    }

    /// Drops exactly the cells that the clock covers, and counts no steps. Points without cells stay entered while there are no more points than
    /// four times the cells that there were; where there are, they go, so that the work of a sweep hangs on the cells that were made since the last
    /// one, and not on all points that there ever were. Where none go, each keeps its index.
    pub fn sweep(&mut self, floor: &Clock)
        ensures swept { IsSwept floor.now self.old self.new }
        ensures stay { length self.old < 4 * cell_count self.old + 4
            → (index : ℕ) → point_at self.new index ≡ point_at self.old index }
        ensures few { (length self.new < 4 * cell_count self.old + 4)
            ⊎ (length self.new ≤ cell_count self.new) }
    {
        let many = self.entered() as u128 / 4 > self.count;
        for place in 0..self.entered() {
            self.sweep_at(place, floor);
        }
        if many {
            self.drop_bare_points();
        }
    }

    /// How many cells there are, at most one for each thread at a point that is entered. It takes no memory.
    pub fn cells(&self) -> u128
        ensures count { result ≡ cell_count self.now }
        ensures one_each { IsOneEach self.now }
    {
        // `entered` is called for its clause that no point stands there twice.
        let _entered = self.entered();
        self.count
    }
}

#[cfg(test)]
mod tests;
