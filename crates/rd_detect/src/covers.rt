//! What is known of points beside their cells, so that most points with many cells needn't be asked.
ghost use Rattle.std.specs.Prelude.{◌≡◌, ◌≤◌, ◌⊎◌, ℕ, List, [], OnErr, OnOk, None, Some, length, true, ◌+◌};
ghost use Rattle.rd_detect.specs.Covers.{cover_at, epoch_of, counts_epoch};

mod near;

use near::Guess;
pub use near::Sought;
use rd_base::NoMemory;
use rd_clock::{Clock, StampRef};
use rd_store::Witness;
use std::alloc::Global;
use std::marker::Model;
use std::rc::Rc;

// How many threads have a call that may be written over.
const MOST_SPARES: u32 = 64;

/// The event of a thread with this number among those of the thread, from 1.
#[derive(Clone, Copy)]
pub struct Epoch {
    pub thread: u32,
    pub number: u32,
}

/// For points of a store, by their indices, the epoch of an event that knows all calls which are kept at the point: a clock that has heard of
/// it covers them, however many there are (after the epochs of Flanagan and Freund 2009). Contracts see it as the list of these. Beside them it
/// has for each of the first threads at most one call whose place another has taken, so that the thread's next call is written over that; and
/// guesses at the indices of points that were entered, of which nothing is claimed.
#[derive(Drop)]
pub struct Covers {
    epochs: Vec<Option<Epoch>>,
    spares: Vec<Option<Rc<Witness>>>,
    guesses: Vec<Guess>,
}

impl Model for Covers {
    ghost use Rattle.std.specs.Prelude.{List, Option};
    ghost use Rattle.std.specs.Coded.{codes};
    ghost use Rattle.rd_detect.specs.declared.covers.Epoch.{Epoch as EpochOf};

    ghost Value = { List (Option EpochOf) };

    ghost view = { λ c. c.epochs.items };
}

impl Covers {
    /// Nothing is known of any point. It takes no memory.
    pub fn new(alloc: Global) -> Covers
        ensures { result ≡ [] }
    {
        Covers {
            epochs: Vec::new(alloc),
            spares: Vec::new(alloc),
            guesses: Vec::new(alloc),
        }
    }

    // Whether the clock has heard of the epoch of the point at an index.
    #[inline(always)]
    pub(crate) fn are_heard(&self, index: usize, clock: &Clock) -> bool
        ensures { result ≡ counts_epoch clock.now (cover_at self.now index) }
    {
        if index >= self.epochs.len() {
            return false;
        }
        match self.epochs[index] {
            None => false,
            Some(epoch) => clock.reaches(epoch.thread, epoch.number),
        }
    }

    // Makes the epoch of the point at an index that of a stamp.
    #[inline(never)]
    pub(crate) fn set(&mut self, index: usize, stamp: StampRef) -> Result<(), NoMemory>
        ensures set { OnOk result
            (cover_at self.new index ≡ Some (epoch_of stamp.entry)) }
        ensures others { (other : ℕ) → (other ≡ index)
            ⊎ (cover_at self.new other ≡ cover_at self.old other) }
        ensures same { OnErr result (cover_at self.new index ≡ cover_at self.old index) }
        ensures few { (most : ℕ) → length self.old ≤ most → index + 1 ≤ most
            → length self.new ≤ most }
    {
        while self.epochs.len() <= index {
            self.epochs.push(None)?;
        }
        self.epochs[index] = Some(Epoch {
            thread: stamp.thread,
            number: stamp.number,
        });
        Ok(())
    }

    // Makes the epoch of the point at an index that of a stamp whose clock has heard of it, and forgets one that it hasn't.
    #[inline(always)]
    pub(crate) fn renew(&mut self, index: usize, stamp: StampRef)
        ensures renewed { ((cover_at self.new index ≡ Some (epoch_of stamp.entry))
            × (counts_epoch stamp.entry.clock.now (cover_at self.old index) ≡ true)) ⊎ (cover_at self.new index ≡ None) }
        ensures others { (other : ℕ) → (other ≡ index)
            ⊎ (cover_at self.new other ≡ cover_at self.old other) }
        ensures long { length self.new ≡ length self.old }
    {
        if index >= self.epochs.len() {
            return;
        }
        self.epochs[index] = if self.are_heard(index, stamp.clock) {
            Some(Epoch {
                thread: stamp.thread,
                number: stamp.number,
            })
        } else {
            None
        };
    }

    // Forgets all that is known of points. Calls that may be written over stay.
    pub(crate) fn clear(&mut self)
        ensures { self.new ≡ [] }
    {
        self.epochs.clear();
    }

    // A call of the thread that may be written over, where there is one. It is taken out.
    pub(crate) fn take_spare(&mut self, thread: u32) -> Option<Rc<Witness>>
        ensures { self.new ≡ self.old }
    {
        match self.spares.get_mut(thread as usize) {
            Some(spare) => spare.take(),
            None => None,
        }
    }

    // Keeps a call that the next one of the thread may be written over. It is dropped where there is no memory for its place, and for
    // threads with high numbers: each has a clock, whose length is the number of threads.
    pub(crate) fn keep_spare(&mut self, thread: u32, spare: Option<Rc<Witness>>)
        ensures { self.new ≡ self.old }
    {
        if spare.is_none() || thread >= MOST_SPARES {
            return;
        }
        let place = thread as usize;
        while self.spares.len() <= place {
            if self.spares.push(None).is_err() {
                return;
            }
        }
        self.spares[place] = spare;
    }
}
