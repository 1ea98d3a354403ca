//! Where a point stands in a store: guessed first, which needs no hash.
ghost use Rattle.std.specs.Prelude.{◌≡◌, ℕ, IfOk, IfSome, MatchOption, None, Some};
ghost use Rattle.rd_points.specs.declared.points.Point.{Point as PointOf};
ghost use Rattle.rd_store.specs.Lent.{lent_point};
ghost use Rattle.rd_store.specs.Stores.{IsSameStore, IsSeat, held_of, point_at};

use super::Covers;
use rd_base::{NoMemory, Value};
use rd_store::{PointRef, Seat, Store};

// How many places there are at first, and at most.
const FEWEST_PLACES: usize = 256;

const MOST_PLACES: usize = 65536;

// A number for the bytes of a text: its last four.
#[inline(always)]
fn last_bytes(bytes: &[u8]) -> u64 {
    match bytes {
        [.., fourth, third, second, last] => {
            u64::from(u32::from_le_bytes([*fourth, *third, *second, *last]))
        }
        [.., second, last] => u64::from(*second) * 256 + u64::from(*last),
        [last] => u64::from(*last),
        [] => 0,
    }
}

// What the value of a point counts for in its tags.
#[inline(always)]
fn weight(value: Option<&Value>) -> u64 {
    match value {
        Some(Value::Int(number)) => number.cast_unsigned(),
        Some(Value::Text(text)) => last_bytes(text.items()),
        _ => 0,
    }
}

/// A point that is looked for, with what its value counts for in tags, so that the points of other classes are tagged at once.
#[derive(Clone, Copy)]
pub struct Sought<'a> {
    pub point: PointRef<'a>,
    weight: u64,
}

impl<'a> Sought<'a> {
    pub(crate) fn new(point: PointRef<'a>) -> Sought<'a>
        ensures { result.point ≡ point.entry }
    {
        Sought {
            point,
            weight: weight(point.value),
        }
    }

    // The same in another class.
    #[inline(always)]
    pub(crate) fn in_class(self, class: u32) -> Sought<'a>
        ensures { result.point ≡ record { object = self.entry.point.object; class = class; value = self.entry.point.value } }
    {
        Sought {
            point: PointRef {
                object: self.point.object,
                class,
                value: self.point.value,
            },
            weight: self.weight,
        }
    }

    // The tag of the point, the same for equal ones: the upper half of a product of its parts with odd numbers.
    #[inline(always)]
    fn tag(self) -> u32 {
        let place = u64::from(self.point.object) * 4294967296 + u64::from(self.point.class);
        let mixed = place
            .wrapping_mul(0x9E37_79B9_7F4A_7C15)
            .wrapping_add(self.weight)
            .wrapping_mul(0xD1B5_4A32_D192_ED03);
        (mixed >> 32) as u32
    }
}

/// The tag of a point, and the index at which a point with it was entered last.
#[derive(Clone, Copy)]
pub struct Guess {
    tag: u32,
    index: u32,
}

impl Covers {
    // The place of a tag among the guesses, where there are any: their number is a power of two.
    #[inline(always)]
    fn place(&self, tag: u32) -> usize {
        (tag >> 16) as usize & self.guesses.len().wrapping_sub(1)
    }

    // Makes room for twice as many guesses.
    // kept out of line, so that a guess doesn't pay for its locals
    #[inline(never)]
    fn make_places(&mut self) -> Result<(), NoMemory>
        ensures { self.new ≡ self.old }
    {
        let places = FEWEST_PLACES.max(self.guesses.len().saturating_mul(2));
        self.guesses.resize(places, Guess { tag: 0, index: 0 })?;
        Ok(())
    }

    // Guesses from now on that a point with this tag is at this index. There are as many places as points, until there are the most.
    #[inline(always)]
    fn guess(&mut self, tag: u32, index: usize) -> Result<(), NoMemory>
        ensures { self.new ≡ self.old }
    {
        if index >= self.guesses.len() && self.guesses.len() < MOST_PLACES {
            self.make_places()?;
        }
        let place = self.place(tag);
        if let (Some(guess), Ok(index)) = (self.guesses.get_mut(place), u32::try_from(index)) {
            *guess = Guess { tag, index };
        }
        Ok(())
    }

    // The index of a point with this tag, where the guess is right.
    #[inline(always)]
    fn near_index(&self, store: &Store, point: PointRef, tag: u32) -> Option<usize>
        ensures { IfSome result (λ index. point_at store.now index ≡ Some (lent_point point.entry)) }
    {
        let guess = self.guesses.get(self.place(tag))?;
        if guess.tag != tag {
            return None;
        }
        let index = guess.index as usize;
        if store.is_at(index, point) {
            Some(index)
        } else {
            None
        }
    }

    // The index at which a point was entered; none where it wasn't.
    #[inline(always)]
    pub(crate) fn index_of(&self, store: &Store, sought: Sought) -> Option<usize>
        ensures { MatchOption result (held_of store.now (lent_point sought.entry.point) ≡ None)
            (λ index. point_at store.now index ≡ Some (lent_point sought.entry.point)) }
    {
        match self.near_index(store, sought.point, sought.tag()) {
            Some(index) => Some(index),
            None => store.index_of(sought.point),
        }
    }

    // Enters a point, if it isn't there, with room for a cell of this thread, and answers where that stands, or will stand. The cells are as before, and
    // so is what is known of points, also after want of memory.
    #[inline(always)]
    pub(crate) fn enter(
        &mut self,
        store: &mut Store,
        sought: Sought,
        thread: u32,
    ) -> Result<Seat, NoMemory>
        ensures entered { IfOk result (IsSeat store.new thread (lent_point sought.entry.point)) }
        ensures stay { (index : ℕ) (other : PointOf) → point_at store.old index ≡ Some other
            → point_at store.new index ≡ Some other }
        ensures same { IsSameStore store.old store.new }
        ensures covers { self.new ≡ self.old }
    {
        let tag = sought.tag();
        if let Some(index) = self.near_index(store, sought.point, tag) {
            return store.enter_at(index, thread);
        }
        let seat = store.enter(sought.point, thread)?;
        self.guess(tag, seat.index)?;
        Ok(seat)
    }
}
