//! What is held of a lock.
ghost use Rattle.std.specs.Prelude.{◌≡◌, ℕ, ◌+◌, ◌*◌, ◌<◌, ◌≤◌, ◌↔◌, max, length, slice_set, IfSome, IfOk, OnOk, OnErr, IsTrue};
ghost use Rattle.rd_clock.specs.Clock.{component, IsJoin};
ghost use Rattle.rd_hb.specs.Tracker.{clock_held, clock_of, last_release, unshared};

use rd_base::{NoMemory, Steps};
use rd_clock::Clock;
use std::alloc::Global;
use std::marker::Model;
use std::rc::Rc;
use std::sync::ledger::Ledger;

/// A clock with several owners, none of which changes it. Contracts see it as the clock.
#[derive(Drop)]
pub(crate) struct SharedClock {
    clock: Rc<Clock>,
}

impl Model for SharedClock {
    ghost use Rattle.std.specs.Prelude.{List, ℕ};

    ghost Value = { List ℕ };

    ghost view = { λ s. s.clock.value };
}

impl SharedClock {
    /// That clock, with one owner. It takes no memory where the old one has no other owner and the same room.
    pub(crate) fn new(
        alloc: Global,
        old: Option<SharedClock>,
        clock: &Clock,
    ) -> Result<SharedClock, NoMemory>
        ensures { IfOk result (λ shared. shared ≡ clock.now) }
    {
        if let Some(shared) = reused(old, clock) {
            return Ok(shared);
        }
        Ok(SharedClock {
            clock: Rc::new(alloc, clock.copy(alloc)?)?,
        })
    }

    /// One owner more. `NoMemory` comes only where there are too many.
    pub(crate) fn copy(&self) -> Result<SharedClock, NoMemory>
        ensures { IfOk result (λ shared. shared ≡ self.now) }
    {
        Ok(SharedClock {
            clock: self.clock.clone()?,
        })
    }

    /// Whether it has no other owner.
    pub(crate) fn is_alone(&self) -> bool {
        Rc::strong_count(&self.clock) == 1
    }

    /// Makes it that clock, if it has no other owner and the same room, and says whether it did. It takes no memory.
    fn set(&mut self, clock: &Clock) -> bool
        ensures { IsTrue result → self.new ≡ clock.now }
    {
        match Rc::get_mut(&mut self.clock) {
            Some(own) => own.overwrite(clock),
            None => false,
        }
    }
}

/// That clock, in the memory of the old one where that may be. It takes no memory.
fn reused(old: Option<SharedClock>, clock: &Clock) -> Option<SharedClock>
    ensures { IfSome result (λ shared. shared ≡ clock.now) }
{
    let mut old = old?;
    if old.set(clock) { Some(old) } else { None }
}

/// The last event that gave back a lock: its thread and own number, and the clock that the thread shares. The event's clock
/// is that one with this number at this thread. Contracts see the event's stamp.
#[derive(Drop)]
pub(crate) struct Release {
    shared: SharedClock,
    thread: u32,
    number: u32,
}

impl Model for Release {
    ghost use Rattle.std.specs.Prelude.{◌<◌, ◌≤◌, length, slice_set};
    ghost use Rattle.rd_clock.specs.Clock.{component};
    ghost use Rattle.rd_clock.specs.declared.clock.Stamp.{Stamp};

    ghost Value = { Stamp };

    ghost view = { λ r.
        record { thread = r.thread; number = r.number; clock = slice_set r.shared r.thread r.number } };

    ghost invariant = { λ r. (r.thread < length r.shared)
        × (component r.shared r.thread ≤ r.number) };
}

impl Release {
    /// An event of that thread and own number, whose clock counts no more of other threads than the shared one.
    pub(crate) fn new(shared: SharedClock, thread: u32, number: u32) -> Release
        requires room { thread < length shared }
        requires rises { component shared thread ≤ number }
        ensures { result ≡ record { thread = thread; number = number; clock = slice_set shared thread number } }
    {
        Release {
            shared,
            thread,
            number,
        }
    }

    /// The clock that the thread shared.
    pub(crate) fn shared(self) -> SharedClock {
        self.shared
    }

    /// Whether a clock covers the event. One step.
    pub(crate) fn is_covered<L: Ledger>(&self, clock: &Clock, steps: &mut Steps<L>) -> bool
        ensures value { IsTrue result ↔ (self.now.number ≤ component clock.now self.now.thread) }
        ensures cost { steps.new ≡ steps.old + 1 }
    {
        clock.covers(self.thread, self.number, steps)
    }

    /// Sets each component of a clock to the greater of its own and that of the event's clock. There is room for the
    /// threads of that clock.
    pub(crate) fn join_into<L: Ledger>(&self, clock: &mut Clock, steps: &mut Steps<L>)
        requires { length self.now.clock ≤ length clock.old }
        ensures joined { IsJoin clock.old self.now.clock clock.new }
        ensures room { length clock.new ≡ length clock.old }
        ensures cost { steps.new ≤ steps.old + (2 * length clock.old + 1) }
    {
        clock.join_reserved(&self.shared.clock, steps);
        clock.raise(self.thread, self.number, steps);
    }
}

/// Sets each component of a clock to the greater of its own and that of the last release of a lock, if one is held. There is room
/// for the threads of that clock.
pub(crate) fn join_release<L: Ledger>(
    clock: &mut Clock,
    releases: &[Option<Release>],
    lock: u32,
    steps: &mut Steps<L>,
)
    requires { length (clock_of (last_release releases.now lock)) ≤ length clock.old }
    ensures joined { IsJoin clock.old (clock_of (last_release releases.now lock)) clock.new }
    ensures room { length clock.new ≡ length clock.old }
    ensures cost { steps.new ≤ steps.old + (2 * length clock.old + 1) }
{
    if let Some(Some(last)) = releases.get(lock as usize) {
        last.join_into(clock, steps);
    }
}

/// The same of the clock of a lock's unshares.
pub(crate) fn join_unshares<L: Ledger>(
    clock: &mut Clock,
    unshares: &[Option<Clock>],
    lock: u32,
    steps: &mut Steps<L>,
)
    requires { length (unshared unshares.now lock) ≤ length clock.old }
    ensures joined { IsJoin clock.old (unshared unshares.now lock) clock.new }
    ensures room { length clock.new ≡ length clock.old }
    ensures cost { steps.new ≤ steps.old + 2 * length clock.old }
{
    if let Some(Some(other)) = unshares.get(lock as usize) {
        clock.join_reserved(other, steps);
    }
}

/// Makes room in the clock of a lock's unshares, or begins one. It counts what it did.
pub(crate) fn reserve_in(alloc: Global, held: &mut Option<Clock>, room: u32) -> Result<(), NoMemory>
    ensures room { OnOk result (length (clock_held held.new) ≡ max (length (clock_held held.old)) room) }
    ensures kept { (u : ℕ) → component (clock_held held.new) u ≡ component (clock_held held.old) u }
    ensures err { OnErr result (held.new ≡ held.old) }
{
    match held {
        Some(clock) => clock.reserve(room),
        None => {
            let mut clock = Clock::new(alloc);
            clock.reserve(room)?;
            *held = Some(clock);
            Ok(())
        }
    }
}

/// Sets each component of the clock of a lock's unshares to the greater of its own and that of another. There is room for the
/// threads of the other.
pub(crate) fn gather<L: Ledger>(held: &mut Option<Clock>, other: &Clock, steps: &mut Steps<L>)
    requires { length other.now ≤ length (clock_held held.old) }
    ensures joined { IsJoin (clock_held held.old) other.now (clock_held held.new) }
    ensures room { length (clock_held held.new) ≡ length (clock_held held.old) }
    ensures cost { steps.new ≤ steps.old + 2 * length other.now }
{
    if let Some(clock) = held {
        clock.join_reserved(other, steps);
    }
}
