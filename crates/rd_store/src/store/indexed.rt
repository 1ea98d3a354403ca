//! The cells of a point by the index at which it was entered, so that a caller who keeps the index looks the point up once.
ghost use Rattle.std.specs.Prelude.{◌≡◌, ◌↔◌, false, IsTrue, OnErr, ◌+◌, ◌<◌, ◌≤◌, ℕ, length, option_map, IfOk, OnOk, MatchOption, None, Some};
ghost use Rattle.rd_points.specs.declared.points.Point.{Point as PointOf};
ghost use Rattle.rd_store.specs.Lent.{lent_point, lent_witness};
ghost use Rattle.rd_store.specs.Stores.{HasOneEach, HasRoom, IsLatestUncovered, IsSameStore, IsSeat, IsTouched, cell_count, cells_at, held_of, place_of, point_at};

use super::{Store, latest_of, place_of, put, renew_cell, reserve_cell};
use crate::{PointRef, Seat, Witness, WitnessRef};
use indexmap::Equivalent;
use rd_base::{NoMemory, Steps};
use rd_clock::Clock;
use rd_points::{Point, law_of_equal_points};
use std::rc::Rc;
use std::sync::ledger::Ledger;

impl Store {
    /// The index at which a point was entered; none where it wasn't. It takes no memory.
    pub fn index_of(&self, point: PointRef) -> Option<usize>
        ensures { MatchOption result (held_of self.now (lent_point point.entry) ≡ None)
            (λ index. point_at self.now index ≡ Some (lent_point point.entry)) }
    {
        law_of_equal_points();
        self.points.get_index_of(point)
    }

    /// Whether a point was entered at this index. It takes no memory, and hashes nothing.
    pub fn is_at(&self, index: usize, point: PointRef) -> bool
        ensures { IsTrue result ↔ (point_at self.now index ≡ Some (lent_point point.entry)) }
    {
        law_of_equal_points();
        match self.points.get_index(index) {
            Some((held, _cells)) => point.equivalent(held),
            None => false,
        }
    }

    // Makes room for a cell of this thread at the point at an index, and answers the place of the cell.
    pub(super) fn reserve_at(&mut self, index: usize, thread: u32) -> Result<usize, NoMemory>
        requires { index < length self.old }
        ensures place { IfOk result (λ place. (point : PointOf) → point_at self.old index ≡ Some point
            → place ≡ place_of (cells_at self.old point) thread) }
        ensures room { OnOk result
            ((point : PointOf) → point_at self.old index ≡ Some point → HasRoom self.new thread point) }
        ensures stay { (other : ℕ) → point_at self.new other ≡ point_at self.old other }
        ensures same { IsSameStore self.old self.new }
    {
        law_of_equal_points();
        reserve_cell(self.points.get_index_mut(index).unwrap(), thread)
    }

    // Enters a point that isn't there, with room for one cell, and answers its index.
    pub(super) fn enter_new(&mut self, point: Point) -> Result<usize, NoMemory>
        requires { held_of self.old point ≡ None }
        ensures entered { IfOk result (λ index. point_at self.new index ≡ Some point) }
        ensures room { OnOk result ((thread : ℕ) → HasRoom self.new thread point) }
        ensures stay { (index : ℕ) (other : PointOf) → point_at self.old index ≡ Some other
            → point_at self.new index ≡ Some other }
        ensures same { IsSameStore self.old self.new }
    {
        law_of_equal_points();
        let cells = Vec::with_capacity(self.alloc, 1)?;
        let index = self.points.len();
        match self.points.insert(point, cells) {
            Ok(_) => Ok(index),
            Err(_) => Err(NoMemory),
        }
    }

    /// Makes room for a cell of this thread at the point at an index, and answers where it stands, or will stand. The cells are as before, also
    /// after want of memory. It hashes nothing.
    pub fn enter_at(&mut self, index: usize, thread: u32) -> Result<Seat, NoMemory>
        requires { index < length self.old }
        ensures entered { IfOk result (λ seat. (point : PointOf) → point_at self.old index ≡ Some point
            → IsSeat self.new thread point seat) }
        ensures stay { (other : ℕ) → point_at self.new other ≡ point_at self.old other }
        ensures same { IsSameStore self.old self.new }
    {
        let place = self.reserve_at(index, thread)?;
        Ok(Seat { index, place })
    }

    /// Enters a point, if it isn't there, and makes room for a cell of this thread there. It answers where the cell stands, or will
    /// stand. The cells are as before, also after want of memory. Only a point that isn't there is copied.
    pub fn enter(&mut self, point: PointRef, thread: u32) -> Result<Seat, NoMemory>
        ensures entered { IfOk result (IsSeat self.new thread (lent_point point.entry)) }
        ensures stay { (index : ℕ) (other : PointOf) → point_at self.old index ≡ Some other
            → point_at self.new index ≡ Some other }
        ensures same { IsSameStore self.old self.new }
    {
        match self.index_of(point) {
            Some(index) => self.enter_at(index, thread),
            None => {
                let index = self.enter_new(point.copy(self.alloc)?)?;
                Ok(Seat { index, place: 0 })
            }
        }
    }

    /// The same as `latest_uncovered`, for a point whose value is lent.
    pub fn latest_of<L: Ledger>(
        &self,
        point: PointRef,
        clock: &Clock,
        steps: &mut Steps<L>,
    ) -> Option<&Rc<Witness>>
        ensures latest { IsLatestUncovered self.now (lent_point point.entry) clock.now
            (option_map (λ held. held.now.value) result) }
        ensures one_each { HasOneEach (cells_at self.now (lent_point point.entry)) }
        ensures cost { steps.new
            ≡ steps.old + 1 + length (cells_at self.now (lent_point point.entry)) }
    {
        match self.index_of(point) {
            Some(index) => self.latest_at(index, clock, steps),
            None => {
                steps.tick();
                None
            }
        }
    }

    /// Of the cells of the point at an index that the clock doesn't cover, what is kept of the call with the latest place; nothing exactly
    /// where the clock covers each. It takes no memory, one step, and one for each cell of the point.
    pub fn latest_at<L: Ledger>(
        &self,
        index: usize,
        clock: &Clock,
        steps: &mut Steps<L>,
    ) -> Option<&Rc<Witness>>
        requires { index < length self.now }
        ensures latest { (point : PointOf) → point_at self.now index ≡ Some point
            → IsLatestUncovered self.now point clock.now (option_map (λ held. held.now.value) result) }
        ensures one_each { (point : PointOf) → point_at self.now index ≡ Some point
            → HasOneEach (cells_at self.now point) }
        ensures cost { (point : PointOf) → point_at self.now index ≡ Some point
            → steps.new ≡ steps.old + 1 + length (cells_at self.now point) }
    {
        steps.tick();
        let (_point, cells) = self.points.get_index(index).unwrap();
        latest_of(cells.as_slice(), clock, steps)
    }

    // The seat of a thread's cell of the point at an index.
    pub(super) fn seat_at(&self, index: usize, thread: u32) -> Seat
        requires { index < length self.now }
        ensures { (point : PointOf) → point_at self.now index ≡ Some point
            → (result.index ≡ index) × (result.place ≡ place_of (cells_at self.now point) thread) }
    {
        let (_point, cells) = self.points.get_index(index).unwrap();
        Seat {
            index,
            place: place_of(cells.as_slice(), thread),
        }
    }

    /// Sets the cell of a thread that has this seat, and answers what was kept there. It takes no memory, and one step.
    pub fn touch_at<L: Ledger>(
        &mut self,
        seat: Seat,
        thread: u32,
        witness: Rc<Witness>,
        steps: &mut Steps<L>,
    ) -> Option<Rc<Witness>>
        requires { (point : PointOf) × IsSeat self.old thread point seat }
        ensures touched { (point : PointOf) → IsSeat self.old thread point seat
            → IsTouched self.old self.new point thread witness.value }
        ensures one_each { (point : PointOf) → HasOneEach (cells_at self.old point) }
        ensures seats { (point : PointOf) (other : Seat) → IsSeat self.old thread point other → IsSeat self.new thread point other }
        ensures points { (index : ℕ) → point_at self.new index ≡ point_at self.old index }
        ensures cost { steps.new ≡ steps.old + 1 }
    {
        law_of_equal_points();
        steps.tick();
        // `len` is called for its clause that there are fewer than 2 ^ 63 points, so that the count fits.
        let _entered = self.points.len();
        let before = put(
            self.points.get_index_mut(seat.index).unwrap(),
            seat.place,
            thread,
            witness,
        );
        self.count += before.is_none() as u128;
        before
    }

    /// Sets the cell of a call's thread that has this seat in the memory of the cell that is there, where nothing else has that and the
    /// clocks have the same room, and answers whether it did; else the cells are as before. It takes one step.
    pub fn touch_over<L: Ledger>(
        &mut self,
        seat: Seat,
        seen: WitnessRef,
        steps: &mut Steps<L>,
    ) -> Result<bool, NoMemory>
        requires { (point : PointOf) × IsSeat self.old seen.call.now.thread point seat }
        ensures touched { IfOk result (λ done. IsTrue done
            → (point : PointOf) → IsSeat self.old seen.entry.call.now.thread point seat
            → IsTouched self.old self.new point seen.entry.call.now.thread (lent_witness seen.entry)) }
        ensures kept { IfOk result (λ done. done ≡ false → self.new ≡ self.old) }
        ensures count { cell_count self.new ≡ cell_count self.old }
        ensures points { (index : ℕ) → point_at self.new index ≡ point_at self.old index }
        ensures err { OnErr result (self.new ≡ self.old) }
        ensures cost { steps.new ≡ steps.old + 1 }
    {
        law_of_equal_points();
        steps.tick();
        let cells = self.points.get_index_mut(seat.index).unwrap();
        renew_cell(self.alloc, cells, seat.place, seen)
    }
}
