//! The clocks of the threads of a trace, and of its locks.
ghost use Rattle.std.specs.Prelude.{◌≡◌, ◌≢◌, ◌⊎◌, ◌↔◌, ℕ, ◌+◌, ◌*◌, ◌<◌, ◌≤◌, Bool, true, false, ◌==◌, max, ◌||◌, if◌then◌else◌, List, [], ◌∷◌, ◌++◌, length, slice_index_or, slice_set, Option, Some, None, IfSome, IfOk, OnOk, OnErr, IsTrue};
ghost use Rattle.rd_event.specs.declared.events.Call.{Call as CallOf};
ghost use Rattle.rd_event.specs.declared.events.Event.{Event as EventOf};
ghost use Rattle.rd_event.specs.declared.events.Event.TheVariants as event;
ghost use Rattle.rd_order.specs.EventLists.{threads_after};
ghost use Rattle.rd_order.specs.Order.{exclusive, shared, thread_of};
ghost use Rattle.rd_clock.specs.Clock.{component, IsTick};
ghost use Rattle.rd_clock.specs.Stamps.{lent_stamp};
ghost use Rattle.rd_hb.specs.Tracker.{IsNextEvent, IsStamp, MayGrow, TrackerStandsFor, event_bound, handed_by, known_to, last_stamp, last_release, tracked_thread, unshared};
ghost use Rattle.rd_hb.specs.TrackerParts.{IsForked, IsCounted, IsHeard, IsLearnt, IsReleased, IsShared, IsUnshared, heard_from};
ghost use Rattle.rd_hb.specs.declared.tracker.Tracked.{Tracked as TrackedOf};

mod floor;
mod locks;

use locks::{Release, SharedClock, gather, join_release, join_unshares, reserve_in};
use rd_base::{NoMemory, Steps};
use rd_clock::{Clock, Stamp, StampRef};
use rd_event::Event;
use rd_order::thread_of;
use std::alloc::Global;
use std::marker::Model;
use std::mem;
use std::sync::ledger::Ledger;

/// A thread: the clock that its next event carries on from, how many events it had, and whether it was joined.
#[derive(Drop)]
struct Tracked {
    clock: Clock,
    events: u32,
    joined: bool,
}

/// The clocks of all threads of a trace, root or forked, and of its locks, by their numbers. Contracts see it as the list of the
/// threads, that of the stamps of the events that last released each lock, and that of the clocks of the events that unshared it.
#[derive(Drop)]
pub struct Tracker {
    alloc: Global,
    threads: Vec<Tracked>,
    // the clock that a thread shares with the locks that it gave back since it learnt something, if it gave back one
    shared: Vec<Option<SharedClock>>,
    locks: Vec<Option<Release>>,
    // what is known where shares of a lock were given back, up to the last lock of which one was
    unshares: Vec<Option<Clock>>,
    // a clock that no thread shares and no lock has any more, kept for its memory
    spare: Option<SharedClock>,
}

impl Model for Tracker {
    ghost use Rattle.rd_hb.specs.Tracker.{Tracking};
    ghost use Rattle.rd_hb.specs.TrackerParts.{AreKept};

    ghost Value = { Tracking };

    ghost view = { λ t.
        record { threads = t.threads.items; locks = record { releases = t.locks.items; unshares = t.unshares.items } } };

    ghost invariant = { λ t. AreKept t.threads.items t.shared.items t.locks.items t.unshares.items };
}

impl Tracker {
    /// A tracker without a thread. It takes no memory.
    #[tactic(auto, using(crate::proofs::TrackerLemmas::no_threads))]
    pub fn new(alloc: Global) -> Tracker
        ensures empty { result ≡ record { threads = []; locks = record { releases = []; unshares = [] } } }
        ensures stands { TrackerStandsFor result (λ t. false) [] }
    {
        Tracker {
            alloc,
            threads: Vec::new(alloc),
            shared: Vec::new(alloc),
            locks: Vec::new(alloc),
            unshares: Vec::new(alloc),
            spare: None,
        }
    }

    /// Makes a root known, whose number is that of the roots so far. After want of memory all is as before.
    pub fn root(&mut self, thread: u32) -> Result<(), NoMemory>
        requires numbered { thread ≡ length self.old.threads }
        requires below { thread < 4294967295 }
        ensures ok { OnOk result
            ((roots : ℕ → Bool) → TrackerStandsFor self.old roots [] →
            TrackerStandsFor self.new (λ t. roots t || (t == thread)) []) }
        ensures count { OnOk result (length self.new.threads ≡ length self.old.threads + 1) }
        ensures err { OnErr result (self.new ≡ self.old) }
    {
        let mut clock = Clock::new(self.alloc);
        clock.reserve(thread + 1)?;
        self.threads.push(Tracked {
            clock,
            events: 0,
            joined: false,
        })?;
        Ok(())
    }

    /// Takes the next event of a well-formed list, in which a forked thread has the next number, and says where it
    /// stands. The stamp takes memory; where it isn't asked for, `pass` does the same without it. After want of memory all
    /// is as before. It takes at most 2 steps for each thread that is known once the event is done where it is a
    /// call, and 6 where it is another.
    pub fn event<L: Ledger>(
        &mut self,
        event: &Event,
        steps: &mut Steps<L>,
    ) -> Result<Stamp, NoMemory>
        requires next { (roots : ℕ → Bool) × (es : List EventOf)
            × IsNextEvent self.old roots es event.now }
        ensures stamp { IfOk result
            (λ stamp. (roots : ℕ → Bool) (es : List EventOf) →
            IsNextEvent self.old roots es event.now →
            IsStamp (es ++ event.now ∷ []) (length es) stamp) }
        ensures stands { OnOk result
            ((roots : ℕ → Bool) (es : List EventOf) → IsNextEvent self.old roots es event.now →
            TrackerStandsFor self.new roots (es ++ event.now ∷ [])) }
        ensures count { OnOk result
            (length self.new.threads ≡ threads_after event.now (length self.old.threads)) }
        ensures err { OnErr result (self.new ≡ self.old) }
        ensures cost { steps.new ≤ steps.old + event_bound event.now
            (threads_after event.now (length self.old.threads)) }
    {
        let thread = thread_of(event);
        let memory = Vec::with_capacity(self.alloc, self.threads.len())?;
        self.pass(event, steps)?;
        let own = &self.threads[thread as usize];
        Ok(Stamp {
            thread,
            number: own.events,
            clock: own.clock.copy_in(memory),
        })
    }

    /// Takes the next event, as `event` does, but makes no stamp of it: for the events whose stamps aren't asked for. It takes
    /// memory only where a thread begins, where one gives a lock back for the first time since it learnt something, or
    /// where a clock or a list of locks has no room yet. After want of memory all is as before.
    #[inline(always)]
    pub fn pass<L: Ledger>(&mut self, event: &Event, steps: &mut Steps<L>) -> Result<(), NoMemory>
        requires next { (roots : ℕ → Bool) × (es : List EventOf)
            × IsNextEvent self.old roots es event.now }

        // the event is stamped, and the tracker stands for it too
        ensures stamp { OnOk result
            ((roots : ℕ → Bool) (es : List EventOf) → IsNextEvent self.old roots es event.now →
            IsStamp (es ++ event.now ∷ []) (length es)
            (last_stamp self.new.threads (thread_of event.now))) }
        ensures stands { OnOk result
            ((roots : ℕ → Bool) (es : List EventOf) → IsNextEvent self.old roots es event.now →
            TrackerStandsFor self.new roots (es ++ event.now ∷ [])) }

        // sizes, what stays after an error, and a bound of the steps
        ensures count { OnOk result
            (length self.new.threads ≡ threads_after event.now (length self.old.threads)) }
        ensures room { OnOk result
            (length (tracked_thread self.new.threads
            (thread_of event.now)).clock ≤ length self.old.threads) }
        ensures err { OnErr result (self.new ≡ self.old) }
        ensures memory { OnErr result (MayGrow self.old.threads event.now) }
        ensures cost { steps.new ≤ steps.old + event_bound event.now
            (threads_after event.now (length self.old.threads)) }
    {
        match event {
            Event::Fork { thread, child } => self.fork(*thread, *child, steps),
            Event::Join { thread, child } => self.join(*thread, *child, steps),
            Event::Acquire { thread, lock } => self.acquire(*thread, *lock, steps),
            Event::Release { thread, lock } => self.release(*thread, *lock, steps),
            Event::Share { thread, lock } => self.share_lock(*thread, *lock, steps),
            Event::Unshare { thread, lock } => self.unshare(*thread, *lock, steps),
            Event::Call(call) => {
                self.tick(call.thread, steps);
                Ok(())
            }
        }
    }

    /// Takes the next event, which is a call of this thread, as `pass` does. It takes no memory.
    #[inline(always)]
    pub fn pass_call<L: Ledger>(&mut self, thread: u32, steps: &mut Steps<L>)
        requires next { (roots : ℕ → Bool) × (es : List EventOf) × (call : CallOf) × (call.thread ≡ thread)
            × IsNextEvent self.old roots es (event.Call call) }

        // the event is stamped, and the tracker stands for it too
        ensures stamp { (roots : ℕ → Bool) (es : List EventOf) (call : CallOf) → call.thread ≡ thread →
            IsNextEvent self.old roots es (event.Call call) →
            IsStamp (es ++ event.Call call ∷ []) (length es) (last_stamp self.new.threads thread) }
        ensures stands { (roots : ℕ → Bool) (es : List EventOf) (call : CallOf) → call.thread ≡ thread →
            IsNextEvent self.old roots es (event.Call call) →
            TrackerStandsFor self.new roots (es ++ event.Call call ∷ []) }

        // no thread begins, and the steps are bounded
        ensures count { length self.new.threads ≡ length self.old.threads }
        ensures cost { steps.new ≤ steps.old + 2 * length self.old.threads }
    {
        self.tick(thread, steps);
    }

    /// Where the last event of a thread stands, with its clock lent, where the thread learnt nothing since: as after `pass` with an event of
    /// its own. It takes no memory.
    pub fn last_stamp(&self, thread: u32) -> StampRef
        requires { thread < length self.now.threads }
        ensures { lent_stamp result ≡ last_stamp self.now.threads thread }
    {
        let held = &self.threads[thread as usize];
        StampRef {
            thread,
            number: held.events,
            clock: &held.clock,
        }
    }

    /// A thread counts its next event, and that is its own number.
    fn tick<L: Ledger>(&mut self, thread: u32, steps: &mut Steps<L>) -> u32
        requires known { thread < length self.old.threads }
        requires below { known_to self.old.threads thread thread < 4294967295 }

        // the thread's next event is counted
        ensures counted { IsCounted thread self.old.threads self.new.threads
            (last_stamp self.new.threads thread) }
        ensures number { result ≡ (tracked_thread self.new.threads thread).events }

        // the clock's room and the locks stay, and it takes one step
        ensures room { length (tracked_thread self.new.threads thread).clock ≤ length self.old.threads }
        ensures same_room { length (tracked_thread self.new.threads thread).clock ≡ length
            (tracked_thread self.old.threads thread).clock }
        ensures locks { self.new.locks ≡ self.old.locks }
        ensures cost { steps.new ≡ steps.old + 1 }
    {
        let own = &mut self.threads[thread as usize];
        own.clock.tick(thread, steps);
        own.events += 1;
        own.events
    }

    /// The clock that a thread has after its next event, with room for the thread that this event begins.
    fn first_clock<L: Ledger>(
        &self,
        thread: u32,
        child: u32,
        steps: &mut Steps<L>,
    ) -> Result<Clock, NoMemory>
        requires known { thread < length self.now.threads }
        requires numbered { child ≡ length self.now.threads }
        requires range { child < 4294967295 }
        requires below { known_to self.now.threads thread thread < 4294967295 }

        // the clock, its length, and a bound of the steps
        ensures ticked { IfOk result
            (λ clock. IsTick (tracked_thread self.now.threads thread).clock clock thread) }
        ensures room { IfOk result
            (λ clock. length clock ≡ max (length (tracked_thread self.now.threads thread).clock)
            (child + 1)) }
        ensures cost { steps.new ≤ steps.old + 1 }
    {
        let own = &self.threads[thread as usize].clock;
        let mut first = own.copy_with_room(self.alloc, child + 1)?;
        first.tick(thread, steps);
        Ok(first)
    }

    /// Makes the next thread known, with the clock that another has after its next event.
    #[inline(never)]
    fn begin<L: Ledger>(
        &mut self,
        thread: u32,
        child: u32,
        steps: &mut Steps<L>,
    ) -> Result<(), NoMemory>
        requires known { thread < length self.old.threads }
        requires numbered { child ≡ length self.old.threads }
        requires range { child < 4294967295 }
        requires below { known_to self.old.threads thread thread < 4294967295 }

        // the child begins, and the locks stay
        ensures ok { OnOk result (IsForked thread child self.old.threads self.new.threads) }
        ensures room { OnOk result
            (length (tracked_thread self.new.threads thread).clock ≤ length self.old.threads) }
        ensures locks { self.new.locks ≡ self.old.locks }

        // after an error all is as before; the steps are bounded
        ensures err { OnErr result (self.new ≡ self.old) }
        ensures cost { steps.new ≤ steps.old + 1 }
    {
        let clock = self.first_clock(thread, child, steps)?;
        self.threads.push(Tracked {
            clock,
            events: 0,
            joined: false,
        })?;
        Ok(())
    }

    /// Whether a joined thread brings no news: it had an event, and another knows its last one.
    fn is_known<L: Ledger>(&self, thread: u32, child: u32, steps: &mut Steps<L>) -> bool
        requires known { thread < length self.now.threads }
        requires awaited { child < length self.now.threads }
        ensures some { IsTrue result → 0 < known_to self.now.threads child child }
        ensures covered { IsTrue result →
            known_to self.now.threads child child ≤ known_to self.now.threads thread child }
        ensures cost { steps.new ≤ steps.old + 1 }
    {
        let events = self.threads[child as usize].events;
        events > 0
            && self.threads[thread as usize]
                .clock
                .covers(child, events, steps)
    }

    /// A thread learns what another knows, and shares its clock no longer. It takes memory only where its own clock has no
    /// room yet.
    #[inline(never)]
    fn learn<L: Ledger>(
        &mut self,
        thread: u32,
        child: u32,
        steps: &mut Steps<L>,
    ) -> Result<(), NoMemory>
        requires known { thread < length self.old.threads }
        requires awaited { child < length self.old.threads }
        requires apart { child ≢ thread }
        requires own { known_to self.old.threads child thread ≤ known_to self.old.threads thread thread }

        // the thread learns the child's clock, and the locks stay
        ensures learnt { OnOk result
            (IsLearnt thread
            (known_to self.old.threads child) None self.old.threads self.new.threads) }
        ensures locks { self.new.locks ≡ self.old.locks }

        // after an error all is as before; the steps are bounded
        ensures err { OnErr result (self.new ≡ self.old) }
        ensures memory { OnErr result
            (length (tracked_thread self.old.threads thread).clock < length self.old.threads) }
        ensures cost { steps.new ≤ steps.old + 2 * length self.old.threads }
    {
        let room = self.threads.len() as u32;
        let place = thread as usize;
        self.threads[place].clock.reserve(room)?;
        let mut own = mem::replace(&mut self.threads[place].clock, Clock::new(self.alloc));
        own.join_reserved(&self.threads[child as usize].clock, steps);
        self.threads[place].clock = own;
        forget(&mut self.shared, place, &mut self.spare);
        Ok(())
    }

    /// A thread has ended.
    fn end(&mut self, child: u32)
        requires { child < length self.old.threads }
        ensures count { length self.new.threads ≡ length self.old.threads }
        ensures clocks { (t : ℕ) →
            (tracked_thread self.new.threads t).clock ≡ (tracked_thread self.old.threads t).clock }
        ensures joined { (t : ℕ) →
            (tracked_thread self.new.threads t).joined ≡ ((tracked_thread self.old.threads t).joined ||
            (child == t)) }
        ensures locks { self.new.locks ≡ self.old.locks }
    {
        self.threads[child as usize].joined = true;
    }

    /// The clock that a thread shares with the locks that it gave back since it learnt something, if it gave back one.
    fn shared_by(&self, thread: u32) -> Option<&SharedClock>
        ensures ok { IfSome result (λ shared. IsShared self.now.threads thread shared.now) }
        ensures room { IfSome result (λ shared. length shared.now ≤ length self.now.threads) }
    {
        match self.shared.get(thread as usize) {
            Some(Some(shared)) => Some(shared),
            _ => None,
        }
    }

    /// A thread begins to share its clock, as it is now, in memory that was taken before where that may be.
    #[inline(never)]
    fn share_anew(&mut self, thread: u32) -> Result<SharedClock, NoMemory>
        requires { thread < length self.old.threads }
        ensures ok { IfOk result (IsShared self.old.threads thread) }
        ensures room { IfOk result (λ shared. length shared ≤ length self.old.threads) }
        ensures same { self.new ≡ self.old }
    {
        let own = &self.threads[thread as usize].clock;
        let shared = SharedClock::new(self.alloc, self.spare.take(), own)?;
        let copy = shared.copy()?;
        grow(&mut self.shared, thread as usize + 1)?;
        self.shared[thread as usize] = Some(shared);
        Ok(copy)
    }

    /// The clock that a thread shares with the locks that it gives back: its own, but at the thread itself.
    fn share(&mut self, thread: u32) -> Result<SharedClock, NoMemory>
        requires { thread < length self.old.threads }
        ensures ok { IfOk result (IsShared self.old.threads thread) }
        ensures room { IfOk result (λ shared. length shared ≤ length self.old.threads) }
        ensures same { self.new ≡ self.old }
    {
        match self.shared_by(thread) {
            Some(shared) => shared.copy(),
            None => self.share_anew(thread),
        }
    }

    /// Makes room for what is held of a lock's releases.
    fn make_room(&mut self, lock: u32) -> Result<(), NoMemory>
        ensures room { OnOk result (lock < length self.new.locks.releases) }
        ensures threads { self.new.threads ≡ self.old.threads }
        ensures unshares { self.new.locks.unshares ≡ self.old.locks.unshares }
        ensures locks { (l : ℕ) →
            last_release self.new.locks.releases l ≡ last_release self.old.locks.releases l }
        ensures err { OnErr result (self.new ≡ self.old) }
    {
        let room = lock as usize + 1;
        if room <= self.locks.len() {
            return Ok(());
        }
        grow(&mut self.locks, room)
    }

    /// An event of a thread gave a lock back: its clock is the shared one, with its own number at the thread. The clock that the
    /// lock had is spare if nothing else has it.
    fn hand(&mut self, lock: u32, shared: SharedClock, thread: u32, number: u32)
        requires held { lock < length self.old.locks.releases }
        requires inside { thread < length shared }
        requires room { length shared ≤ length self.old.threads }
        requires rises { component shared thread ≤ number }

        // the lock is given the clock; the threads, the other locks and the unshares stay
        ensures threads { self.new.threads ≡ self.old.threads }
        ensures given { last_release self.new.locks.releases lock ≡ Some
            (record { thread = thread; number = number; clock = slice_set shared thread number }) }
        ensures others { (l : ℕ) → l ≢ lock →
            last_release self.new.locks.releases l ≡ last_release self.old.locks.releases l }
        ensures unshares { self.new.locks.unshares ≡ self.old.locks.unshares }
    {
        let last = Release::new(shared, thread, number);
        if let Some(old) = mem::replace(&mut self.locks[lock as usize], Some(last)) {
            keep(&mut self.spare, old.shared());
        }
    }

    /// A thread forks the next one, which begins with the clock of the fork.
    fn fork<L: Ledger>(
        &mut self,
        thread: u32,
        child: u32,
        steps: &mut Steps<L>,
    ) -> Result<(), NoMemory>
        requires known { thread < length self.old.threads }
        requires numbered { child ≡ length self.old.threads }
        requires range { child < 4294967295 }
        requires below { known_to self.old.threads thread thread < 4294967295 }

        // the child begins, and the locks stay
        ensures ok { OnOk result
            ((middle : List TrackedOf) × IsForked thread child self.old.threads middle ×
            IsCounted thread middle self.new.threads (last_stamp self.new.threads thread)) }
        ensures room { OnOk result
            (length (tracked_thread self.new.threads thread).clock ≤ length self.old.threads) }
        ensures locks { self.new.locks ≡ self.old.locks }

        // after an error all is as before; the steps are bounded
        ensures err { OnErr result (self.new ≡ self.old) }
        ensures cost { steps.new ≤ steps.old + 2 }
    {
        self.begin(thread, child, steps)?;
        self.tick(thread, steps);
        Ok(())
    }

    /// A thread learns what another knew, where that is news: who knows an event knows all that reaches it.
    fn hear<L: Ledger>(
        &mut self,
        thread: u32,
        child: u32,
        steps: &mut Steps<L>,
    ) -> Result<(), NoMemory>
        requires known { thread < length self.old.threads }
        requires awaited { child < length self.old.threads }
        requires apart { child ≢ thread }
        requires own { known_to self.old.threads child thread ≤ known_to self.old.threads thread thread }
        requires heard { 0 < known_to self.old.threads child child →
            known_to self.old.threads child child ≤ known_to self.old.threads thread child →
            (u : ℕ) → known_to self.old.threads child u ≤ known_to self.old.threads thread u }

        // the thread learns the child's clock, and the locks stay
        ensures learnt { OnOk result
            (IsLearnt thread
            (known_to self.old.threads child) None self.old.threads self.new.threads) }
        ensures locks { self.new.locks ≡ self.old.locks }

        // after an error all is as before; the steps are bounded
        ensures err { OnErr result (self.new ≡ self.old) }
        ensures memory { OnErr result
            (length (tracked_thread self.old.threads thread).clock < length self.old.threads) }
        ensures cost { steps.new ≤ steps.old + (2 * length self.old.threads + 1) }
    {
        if self.is_known(thread, child, steps) {
            return Ok(());
        }
        self.learn(thread, child, steps)
    }

    /// The same for the releases of a lock, which bring no news where no event released it, or the thread knows the last one that
    /// did.
    #[inline(always)]
    fn hear_lock<L: Ledger>(
        &mut self,
        thread: u32,
        lock: u32,
        steps: &mut Steps<L>,
    ) -> Result<(), NoMemory>
        requires known { thread < length self.old.threads }
        requires own { handed_by self.old.locks (exclusive lock) thread ≤ known_to self.old.threads thread thread }
        requires heard { IsHeard (last_release self.old.locks.releases lock)
            (tracked_thread self.old.threads thread).clock →
            (u : ℕ) → handed_by self.old.locks (exclusive lock) u ≤ known_to self.old.threads thread u }
        requires news { IsHeard (last_release self.old.locks.releases lock)
            (tracked_thread self.old.threads thread).clock ⊎ (2 ≤ length self.old.threads) }

        // the thread learns the clock of the releases, and the locks stay
        ensures learnt { OnOk result
            (IsLearnt thread
            (handed_by self.old.locks (exclusive lock)) None self.old.threads self.new.threads) }
        ensures locks { self.new.locks ≡ self.old.locks }

        // after an error all is as before; the steps are bounded
        ensures err { OnErr result (self.new ≡ self.old) }
        ensures memory { OnErr result
            (length (tracked_thread self.old.threads thread).clock < length self.old.threads) }
        ensures cost { steps.new + 1 ≤ steps.old + 4 * length self.old.threads }
    {
        let room = self.threads.len() as u32;
        let Some(Some(last)) = self.locks.get(lock as usize) else {
            return Ok(());
        };
        let own = &mut self.threads[thread as usize].clock;
        if last.is_covered(own, steps) {
            return Ok(());
        }
        own.reserve(room)?;
        last.join_into(own, steps);
        forget(&mut self.shared, thread as usize, &mut self.spare);
        Ok(())
    }

    /// Whether a share of a lock was given back.
    fn was_unshared(&self, lock: u32) -> bool
        ensures { result ≡ false → (u : ℕ) → handed_by self.now.locks (shared lock) u ≡ 0 }
    {
        matches!(self.unshares.get(lock as usize), Some(Some(_)))
    }

    /// A thread learns what was known where a lock was last released, and where shares of it were given back.
    #[inline(never)]
    fn hear_shares<L: Ledger>(
        &mut self,
        thread: u32,
        lock: u32,
        steps: &mut Steps<L>,
    ) -> Result<(), NoMemory>
        requires known { thread < length self.old.threads }
        requires own { heard_from self.old.locks lock thread ≤ known_to self.old.threads thread thread }

        // the thread learns both clocks of the lock, and the locks stay
        ensures learnt { OnOk result
            (IsLearnt thread (heard_from self.old.locks lock) None self.old.threads self.new.threads) }
        ensures locks { self.new.locks ≡ self.old.locks }

        // after an error all is as before; the steps are bounded
        ensures err { OnErr result (self.new ≡ self.old) }
        ensures memory { OnErr result
            (length (tracked_thread self.old.threads thread).clock < length self.old.threads) }
        ensures cost { steps.new ≤ steps.old + (4 * length self.old.threads + 1) }
    {
        let room = self.threads.len() as u32;
        let place = thread as usize;
        let own = &mut self.threads[place].clock;
        own.reserve(room)?;
        join_release(own, self.locks.as_slice(), lock, steps);
        join_unshares(own, self.unshares.as_slice(), lock, steps);
        forget(&mut self.shared, place, &mut self.spare);
        Ok(())
    }

    /// A thread that takes a lock for itself learns what was known where it was last released, and where shares of it were given
    /// back.
    fn hear_both<L: Ledger>(
        &mut self,
        thread: u32,
        lock: u32,
        steps: &mut Steps<L>,
    ) -> Result<(), NoMemory>
        requires known { thread < length self.old.threads }
        requires own { heard_from self.old.locks lock thread ≤ known_to self.old.threads thread thread }
        requires heard { IsHeard (last_release self.old.locks.releases lock)
            (tracked_thread self.old.threads thread).clock →
            (u : ℕ) → handed_by self.old.locks (exclusive lock) u ≤ known_to self.old.threads thread u }
        requires news { IsHeard (last_release self.old.locks.releases lock)
            (tracked_thread self.old.threads thread).clock ⊎ (2 ≤ length self.old.threads) }

        // the thread learns both clocks of the lock, and the locks stay
        ensures learnt { OnOk result
            (IsLearnt thread (heard_from self.old.locks lock) None self.old.threads self.new.threads) }
        ensures locks { self.new.locks ≡ self.old.locks }

        // after an error all is as before; the steps are bounded
        ensures err { OnErr result (self.new ≡ self.old) }
        ensures memory { OnErr result
            (length (tracked_thread self.old.threads thread).clock < length self.old.threads) }
        ensures cost { steps.new + 1 ≤ steps.old + 6 * length self.old.threads }
    {
        if self.was_unshared(lock) {
            self.hear_shares(thread, lock, steps)
        } else {
            self.hear_lock(thread, lock, steps)
        }
    }

    /// A thread waits for the end of another, and from there on knows what that one knew.
    fn join<L: Ledger>(
        &mut self,
        thread: u32,
        child: u32,
        steps: &mut Steps<L>,
    ) -> Result<(), NoMemory>
        requires known { thread < length self.old.threads }
        requires awaited { child < length self.old.threads }
        requires apart { child ≢ thread }
        requires below { known_to self.old.threads thread thread < 4294967295 }
        requires own { known_to self.old.threads child thread ≤ known_to self.old.threads thread thread }
        requires heard { 0 < known_to self.old.threads child child →
            known_to self.old.threads child child ≤ known_to self.old.threads thread child →
            (u : ℕ) → known_to self.old.threads child u ≤ known_to self.old.threads thread u }

        // the thread learns the child's clock, and the locks stay
        ensures ok { OnOk result ((middle : List TrackedOf) ×
            IsLearnt thread (known_to self.old.threads child)
            (Some child) self.old.threads middle ×
            IsCounted thread middle self.new.threads (last_stamp self.new.threads thread)) }
        ensures room { OnOk result
            (length (tracked_thread self.new.threads thread).clock ≤ length self.old.threads) }
        ensures locks { self.new.locks ≡ self.old.locks }

        // after an error all is as before; the steps are bounded
        ensures err { OnErr result (self.new ≡ self.old) }
        ensures memory { OnErr result
            (length (tracked_thread self.old.threads thread).clock < length self.old.threads) }
        ensures cost { steps.new ≤ steps.old + (2 * length self.old.threads + 2) }
    {
        self.hear(thread, child, steps)?;
        self.end(child);
        self.tick(thread, steps);
        Ok(())
    }

    /// A thread takes a lock for itself, and from there on knows what was known where the lock was last released, and where shares
    /// of it were given back.
    fn acquire<L: Ledger>(
        &mut self,
        thread: u32,
        lock: u32,
        steps: &mut Steps<L>,
    ) -> Result<(), NoMemory>
        requires known { thread < length self.old.threads }
        requires below { known_to self.old.threads thread thread < 4294967295 }
        requires own { heard_from self.old.locks lock thread ≤ known_to self.old.threads thread thread }
        requires heard { IsHeard (last_release self.old.locks.releases lock)
            (tracked_thread self.old.threads thread).clock →
            (u : ℕ) → handed_by self.old.locks (exclusive lock) u ≤ known_to self.old.threads thread u }
        requires news { IsHeard (last_release self.old.locks.releases lock)
            (tracked_thread self.old.threads thread).clock ⊎ (2 ≤ length self.old.threads) }

        // the thread learns both clocks of the lock, and the locks stay
        ensures ok { OnOk result ((middle : List TrackedOf) ×
            IsLearnt thread (heard_from self.old.locks lock) None self.old.threads middle ×
            IsCounted thread middle self.new.threads (last_stamp self.new.threads thread)) }
        ensures room { OnOk result
            (length (tracked_thread self.new.threads thread).clock ≤ length self.old.threads) }
        ensures locks { self.new.locks ≡ self.old.locks }

        // after an error all is as before; the steps are bounded
        ensures err { OnErr result (self.new ≡ self.old) }
        ensures memory { OnErr result
            (length (tracked_thread self.old.threads thread).clock < length self.old.threads) }
        ensures cost { steps.new ≤ steps.old + 6 * length self.old.threads }
    {
        self.hear_both(thread, lock, steps)?;
        self.tick(thread, steps);
        Ok(())
    }

    /// A thread takes a share of a lock, and from there on knows what was known where the lock was last released.
    fn share_lock<L: Ledger>(
        &mut self,
        thread: u32,
        lock: u32,
        steps: &mut Steps<L>,
    ) -> Result<(), NoMemory>
        requires known { thread < length self.old.threads }
        requires below { known_to self.old.threads thread thread < 4294967295 }
        requires own { handed_by self.old.locks (exclusive lock) thread ≤ known_to self.old.threads thread thread }
        requires heard { IsHeard (last_release self.old.locks.releases lock)
            (tracked_thread self.old.threads thread).clock →
            (u : ℕ) → handed_by self.old.locks (exclusive lock) u ≤ known_to self.old.threads thread u }
        requires news { IsHeard (last_release self.old.locks.releases lock)
            (tracked_thread self.old.threads thread).clock ⊎ (2 ≤ length self.old.threads) }

        // the thread learns the clock of the releases, and the locks stay
        ensures ok { OnOk result ((middle : List TrackedOf) ×
            IsLearnt thread (handed_by self.old.locks (exclusive lock)) None self.old.threads middle ×
            IsCounted thread middle self.new.threads (last_stamp self.new.threads thread)) }
        ensures room { OnOk result
            (length (tracked_thread self.new.threads thread).clock ≤ length self.old.threads) }
        ensures locks { self.new.locks ≡ self.old.locks }

        // after an error all is as before; the steps are bounded
        ensures err { OnErr result (self.new ≡ self.old) }
        ensures memory { OnErr result
            (length (tracked_thread self.old.threads thread).clock < length self.old.threads) }
        ensures cost { steps.new ≤ steps.old + 4 * length self.old.threads }
    {
        self.hear_lock(thread, lock, steps)?;
        self.tick(thread, steps);
        Ok(())
    }

    /// A thread releases a lock, of which the stamp of this event is then held. The earlier releases reach this one, so nothing of
    /// them is kept.
    fn release<L: Ledger>(
        &mut self,
        thread: u32,
        lock: u32,
        steps: &mut Steps<L>,
    ) -> Result<(), NoMemory>
        requires known { thread < length self.old.threads }
        requires below { known_to self.old.threads thread thread < 4294967295 }

        // the event is counted, and its stamp is given to the lock
        ensures ok { OnOk result
            (IsCounted thread self.old.threads self.new.threads
            (last_stamp self.new.threads thread)) }
        ensures room { OnOk result
            (length (tracked_thread self.new.threads thread).clock ≤ length self.old.threads) }
        ensures given { OnOk result
            (IsReleased lock self.old.locks.releases
            self.new.locks.releases (last_stamp self.new.threads thread)) }
        ensures unshares { self.new.locks.unshares ≡ self.old.locks.unshares }

        // after an error all is as before; the steps are bounded
        ensures err { OnErr result (self.new ≡ self.old) }
        ensures cost { steps.new ≤ steps.old + 1 }
    {
        let shared = self.share(thread)?;
        self.make_room(lock)?;
        let number = self.tick(thread, steps);
        self.hand(lock, shared, thread, number);
        Ok(())
    }

    /// Makes room for the clock of a lock's unshares, for all threads. The clock is as before.
    #[inline(never)]
    fn make_unshare_room(&mut self, lock: u32) -> Result<(), NoMemory>
        ensures inside { OnOk result (lock < length self.new.locks.unshares) }
        ensures room { OnOk result
            (length self.old.threads ≤ length (unshared self.new.locks.unshares lock)) }
        ensures kept { (l u : ℕ) →
            handed_by self.new.locks (shared l) u ≡ handed_by self.old.locks (shared l) u }
        ensures threads { self.new.threads ≡ self.old.threads }
        ensures releases { self.new.locks.releases ≡ self.old.locks.releases }
        ensures err { OnErr result (self.new ≡ self.old) }
    {
        let room = self.threads.len() as u32;
        let place = lock as usize;
        if place < self.unshares.len() {
            return reserve_in(self.alloc, &mut self.unshares[place], room);
        }
        let mut clock = Clock::new(self.alloc);
        clock.reserve(room)?;
        grow(&mut self.unshares, place + 1)?;
        self.unshares[place] = Some(clock);
        Ok(())
    }

    /// An event of a thread gave a share of a lock back: the clock of the lock's unshares counts from here on what that of the
    /// thread does.
    fn gather_unshare<L: Ledger>(&mut self, lock: u32, thread: u32, steps: &mut Steps<L>)
        requires known { thread < length self.old.threads }
        requires inside { lock < length self.old.locks.unshares }
        requires room { length self.old.threads ≤ length (unshared self.old.locks.unshares lock) }
        ensures given { IsUnshared lock self.old.locks.unshares
            self.new.locks.unshares (tracked_thread self.old.threads thread).clock }
        ensures threads { self.new.threads ≡ self.old.threads }
        ensures releases { self.new.locks.releases ≡ self.old.locks.releases }
        ensures cost { steps.new ≤ steps.old + 2 * length self.old.threads }
    {
        let own = &self.threads[thread as usize].clock;
        gather(&mut self.unshares[lock as usize], own, steps);
    }

    /// A thread gives a share of a lock back. The earlier events that did needn't reach this one, so the clock of the lock's
    /// unshares keeps what they knew.
    fn unshare<L: Ledger>(
        &mut self,
        thread: u32,
        lock: u32,
        steps: &mut Steps<L>,
    ) -> Result<(), NoMemory>
        requires known { thread < length self.old.threads }
        requires below { known_to self.old.threads thread thread < 4294967295 }

        // the event is counted, and its clock is gathered
        ensures ok { OnOk result
            (IsCounted thread self.old.threads self.new.threads
            (last_stamp self.new.threads thread)) }
        ensures room { OnOk result
            (length (tracked_thread self.new.threads thread).clock ≤ length self.old.threads) }
        ensures given { OnOk result
            (IsUnshared lock self.old.locks.unshares
            self.new.locks.unshares (tracked_thread self.new.threads thread).clock) }
        ensures releases { self.new.locks.releases ≡ self.old.locks.releases }

        // after an error all is as before; the steps are bounded
        ensures err { OnErr result (self.new ≡ self.old) }
        ensures cost { steps.new ≤ steps.old + (2 * length self.old.threads + 1) }
    {
        self.make_unshare_room(lock)?;
        self.tick(thread, steps);
        self.gather_unshare(lock, thread, steps);
        Ok(())
    }
}

/// Makes a list at least that long, with nothing at its new places. After want of memory it is as before.
#[inline(never)]
fn grow<T: Drop>(list: &mut Vec<Option<T>>, room: usize) -> Result<(), NoMemory>
    ensures room { OnOk result (room ≤ length list.new.items) }
    ensures kept { (i : ℕ) →
        slice_index_or list.new.items i None ≡ slice_index_or list.old.items i None }
    ensures err { OnErr result (list.new.items ≡ list.old.items) }
{
    let old = list.len();
    if old < room {
        list.reserve(room - old)?;
        for _ in old..room {
            list.push_reserved(None);
        }
    }
    Ok(())
}

/// A thread shares its clock no longer, if it did. The clock is spare if nothing else has it.
fn forget(list: &mut Vec<Option<SharedClock>>, place: usize, spare: &mut Option<SharedClock>)
    ensures gone { slice_index_or list.new.items place None ≡ None }
    ensures others { (i : ℕ) → i ≢ place →
        slice_index_or list.new.items i None ≡ slice_index_or list.old.items i None }
{
    if place < list.len() {
        if let Some(old) = mem::replace(&mut list[place], None) {
            keep(spare, old);
        }
    }
}

/// A clock is spare from here on, if it has no other owner.
fn keep(spare: &mut Option<SharedClock>, old: SharedClock) {
    if old.is_alone() {
        *spare = Some(old);
    }
}
