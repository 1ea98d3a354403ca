//! Vector clocks.
ghost use Rattle.std.specs.Prelude.{◌≡◌, ◌≢◌, false, ℕ, ◌+◌, ◌*◌, ◌<◌, ◌≤◌, ◌↔◌, max, length, IfOk, OnOk, OnErr, IsTrue, [], vec_capacity};
ghost use Rattle.rd_clock.specs.Clock.{component, IsTick, IsRaise, IsJoin, IsMeet};
ghost use Rattle.rd_clock.specs.Stamps.{lent_stamp};

use rd_base::{NoMemory, Steps};
use std::alloc::Global;
use std::marker::Model;
use std::sync::ledger::Ledger;

/// How many events of each thread are counted: a vector clock (Fidge 1988, Mattern 1989). Contracts see it as the list of its
/// components, one for each thread from 0. The length of the list is its room, and the component of a thread past the
/// end is 0.
#[derive(Drop)]
pub struct Clock {
    components: Vec<u32>,
}

impl Model for Clock {
    ghost use Rattle.std.specs.Prelude.{List, ℕ};

    ghost Value = { List ℕ };

    ghost view = { λ c. c.components.items };
}

impl Clock {
    /// The clock that counts nothing, without room. It takes no memory.
    pub fn new(alloc: Global) -> Clock
        ensures { result ≡ [] }
    {
        Clock {
            components: Vec::new(alloc),
        }
    }

    /// Makes room for the threads below that number. It takes memory only where there isn't room for them yet. Every component is as
    /// before, and after want of memory all is.
    pub fn reserve(&mut self, threads: u32) -> Result<(), NoMemory>
        ensures room { OnOk result (length self.new ≡ max (length self.old) threads) }
        ensures kept { (thread : ℕ) → component self.new thread ≡ component self.old thread }
        ensures err { OnErr result (self.new ≡ self.old) }
        ensures memory { OnErr result (length self.old < threads) }
    {
        let room = threads as usize;
        let old = self.components.len();
        if old < room {
            self.components.reserve(room - old)?;
            self.components.resize(room, 0)?;
        }
        Ok(())
    }

    /// For how many threads there is room: the component of each further one is 0. It takes no memory and no step.
    pub fn room(&self) -> usize
        ensures { result ≡ length self.now }
    {
        self.components.len()
    }

    /// An equal clock. One without room takes no memory.
    pub fn copy(&self, alloc: Global) -> Result<Clock, NoMemory>
        ensures value { IfOk result (λ clock. clock ≡ self.now) }
        ensures memory { OnErr result (self.now ≢ []) }
    {
        if self.components.is_empty() {
            return Ok(Clock::new(alloc));
        }
        Ok(Clock {
            components: Vec::from_slice(alloc, self.components.as_slice())?,
        })
    }

    /// A clock that counts the same, with room for the threads below that number, in one allocation.
    pub fn copy_with_room(&self, alloc: Global, threads: u32) -> Result<Clock, NoMemory>
        ensures room { IfOk result (λ clock. length clock ≡ max (length self.now) threads) }
        ensures kept { IfOk result
            (λ clock. (thread : ℕ) → component clock thread ≡ component self.now thread) }
        ensures memory { OnErr result (0 < max (length self.now) threads) }
    {
        let room = self.components.len().max(threads as usize);
        let mut copy = Clock {
            components: Vec::with_capacity(alloc, room)?,
        };
        copy.components
            .extend_from_slice(self.components.as_slice())?;
        copy.reserve(threads)?;
        Ok(copy)
    }

    /// An equal clock, in memory that was taken before, which has room for it. It takes no memory.
    pub fn copy_in(&self, memory: Vec<u32>) -> Clock
        requires none { memory.items ≡ [] }
        requires room { length self.now ≤ vec_capacity memory }
        ensures { result ≡ self.now }
    {
        let mut components = memory;
        components
            .extend_from_slice(self.components.as_slice())
            .unwrap();
        Clock { components }
    }

    /// Makes it the other clock, if they have the same room, and says whether it did. It takes no memory, and counts no steps.
    pub fn overwrite(&mut self, other: &Clock) -> bool
        ensures value { IsTrue result ↔ (length self.old ≡ length other.now) }
        ensures ok { IsTrue result → self.new ≡ other.now }
        ensures kept { result ≡ false → self.new ≡ self.old }
    {
        if self.components.len() != other.components.len() {
            return false;
        }
        self.components.copy_from_slice(other.components.as_slice());
        true
    }

    /// The component of a thread. It takes no memory and one step.
    pub fn get<L: Ledger>(&self, thread: u32, steps: &mut Steps<L>) -> u32
        ensures value { result ≡ component self.now thread }
        ensures cost { steps.new ≡ steps.old + 1 }
    {
        steps.tick();
        let place = thread as usize;
        if place < self.components.len() {
            self.components[place]
        } else {
            0
        }
    }

    /// Whether the component of a thread is at least that number. It takes no memory and one step.
    pub fn covers<L: Ledger>(&self, thread: u32, number: u32, steps: &mut Steps<L>) -> bool
        ensures value { IsTrue result ↔ (number ≤ component self.now thread) }
        ensures cost { steps.new ≡ steps.old + 1 }
    {
        number <= self.get(thread, steps)
    }

    /// Whether the component of a thread is at least that number, without counting steps. It takes no memory.
    pub fn reaches(&self, thread: u32, number: u32) -> bool
        ensures { IsTrue result ↔ (number ≤ component self.now thread) }
    {
        let place = thread as usize;
        if place < self.components.len() {
            number <= self.components[place]
        } else {
            number == 0
        }
    }

    /// Adds one to the component of a thread, for which there is room. It takes no memory and one step.
    pub fn tick<L: Ledger>(&mut self, thread: u32, steps: &mut Steps<L>)
        requires room { thread < length self.old }
        requires below { component self.old thread < 4294967295 }
        ensures ticked { IsTick self.old self.new thread }
        ensures room { length self.new ≡ length self.old }
        ensures cost { steps.new ≡ steps.old + 1 }
    {
        steps.tick();
        self.components[thread as usize] += 1;
    }

    /// Makes the component of a thread at least that number. There is room for the thread. It takes no memory and one step.
    pub fn raise<L: Ledger>(&mut self, thread: u32, number: u32, steps: &mut Steps<L>)
        requires { thread < length self.old }
        ensures raised { IsRaise self.old self.new thread number }
        ensures room { length self.new ≡ length self.old }
        ensures cost { steps.new ≡ steps.old + 1 }
    {
        steps.tick();
        let place = thread as usize;
        self.components[place] = self.components[place].max(number);
    }

    /// Sets each component to the greater of the two clocks'. There is room for the threads of the other. It takes no
    /// memory, and one or two steps for each thread that the other has room for.
    pub fn join_reserved<L: Ledger>(&mut self, other: &Clock, steps: &mut Steps<L>)
        requires { length other.now ≤ length self.old }
        ensures joined { IsJoin self.old other.now self.new }
        ensures room { length self.new ≡ length self.old }
        ensures some_cost { steps.old + length other.now ≤ steps.new }
        ensures cost { steps.new ≤ steps.old + 2 * length other.now }
    {
        let theirs = other.components.as_slice();
        let ours = self.components.as_mut_slice();
        for i in 0..theirs.len() {
            steps.tick();
            ours[i] = ours[i].max(theirs[i]);
        }
    }

    /// Sets each component to the lesser of the two clocks', without counting steps. It has room for no more threads then than either. It
    /// takes no memory.
    pub fn meet(&mut self, other: &Clock)
        ensures { IsMeet self.old other.now self.new }
    {
        self.components
            .truncate(self.components.len().min(other.components.len()));
        let theirs = other.components.as_slice();
        let ours = self.components.as_mut_slice();
        for i in 0..ours.len() {
            ours[i] = ours[i].min(theirs[i]);
        }
    }
}

/// Where an event stands: its thread, its own number in that thread, from 1, and its clock, which counts for each thread the
/// events that are this one or reach it.
#[derive(Drop)]
pub struct Stamp {
    pub thread: u32,
    pub number: u32,
    pub clock: Clock,
}

/// A stamp whose clock is lent.
#[derive(Clone, Copy)]
pub struct StampRef<'a> {
    pub thread: u32,
    pub number: u32,
    pub clock: &'a Clock,
}

impl<'a> StampRef<'a> {
    /// The stamp, lent.
    pub fn new(stamp: &'a Stamp) -> StampRef<'a>
        ensures { lent_stamp result ≡ stamp.now }
    {
        StampRef {
            thread: stamp.thread,
            number: stamp.number,
            clock: &stamp.clock,
        }
    }

    /// The stamp with a copy of the clock.
    pub fn copy(self, alloc: Global) -> Result<Stamp, NoMemory>
        ensures { IfOk result (λ stamp. stamp ≡ lent_stamp self.entry) }
    {
        Ok(Stamp {
            thread: self.thread,
            number: self.number,
            clock: self.clock.copy(alloc)?,
        })
    }
}
