//! Which logs an event that is placed may let give.
ghost use Rattle.std.specs.Prelude.{◌≡◌, ◌<◌, ◌≤◌, ◌^◌, ℕ, length, IfOk, IsTrue, OnOk};
ghost use Rattle.std.specs.BTreeSet.{contains};
ghost use Rattle.std.specs.Ordering.{nat_cmp};
ghost use Rattle.rd_turns.specs.NumberedLogs.{AreInRange, IsLogInRange, IsStepInRange};
ghost use Rattle.rd_turns.specs.Waiting.{HasMore, HasSlots, IsListed, KnowsAll, KnowsLog, KnowsStep, acquire_slot, slot_count};

use crate::logs::{NumberedLogs, Step, ThreadSteps};
use rd_base::NoMemory;
use smallvec::SmallVec;
use std::alloc::Global;
use std::collections::BTreeSet;

// Numbers of logs, in slots.
#[derive(Drop)]
struct Waiters {
    slots: Vec<SmallVec<u32, 1>>,
}

impl Waiters {
    // So many slots without a log.
    fn new(alloc: Global, count: usize) -> Result<Waiters, NoMemory>
        ensures { IfOk result (λ w. slot_count w ≡ count) }
    {
        let mut slots = Vec::with_capacity(alloc, count)?;
        for _ in 0..count {
            slots.push(SmallVec::new(alloc))?;
        }
        Ok(Waiters { slots })
    }

    // One log more in a slot.
    fn add(&mut self, slot: usize, log: u32) -> Result<(), NoMemory>
        requires { slot < slot_count self.old }
        ensures added { OnOk result (IsListed self.new slot log) }
        ensures kept { OnOk result ((other : ℕ) (l : ℕ) → IsListed self.old other l → IsListed self.new other l) }
        ensures same { slot_count self.new ≡ slot_count self.old }
    {
        self.slots[slot].push(log)?;
        Ok(())
    }

    // Makes the logs of a slot ready.
    fn wake(&self, slot: usize, ready: &mut BTreeSet<u32>) -> Result<(), NoMemory>
        requires { slot < slot_count self.now }
        ensures woken { OnOk result ((l : ℕ) → IsListed self.now slot l → IsTrue (contains nat_cmp ready.new l)) }
        ensures kept { OnOk result ((l : ℕ) → IsTrue (contains nat_cmp ready.old l) → IsTrue (contains nat_cmp ready.new l)) }
    {
        for log in self.slots[slot].as_slice() {
            ready.insert(*log)?;
        }
        Ok(())
    }
}

// The logs that may wait for what an event does: by thread, its own log and those that join it; and those that acquire a lock, in slots of which each has
// one acquire where the numbers are those of one run.
#[derive(Drop)]
pub(crate) struct Waiting {
    threads: Waiters,
    acquires: Waiters,
    // how many acquires there are of the locks before each one
    first: Vec<u32>,
}

// How many acquires there are of each lock.
fn counts(alloc: Global, logs: &NumberedLogs) -> Result<Vec<u32>, NoMemory>
    ensures { IfOk result (λ counts. length counts.items ≡ logs.now.locks) }
{
    let mut counts = vec![in alloc; 0u32; logs.locks as usize]?;
    for log in &logs.logs {
        for step in &log.steps {
            if let Step::Acquire { lock, .. } = step {
                if let Some(count) = counts.get_mut(*lock as usize) {
                    *count = count.wrapping_add(1);
                }
            }
        }
    }
    Ok(counts)
}

// The sums of the numbers before each, and of all.
fn sum_before(counts: &mut Vec<u32>) -> u32
    ensures { length counts.new.items ≡ length counts.old.items }
{
    let mut sum = 0u32;
    for place in 0..counts.len() {
        let count = counts[place];
        counts[place] = sum;
        sum = sum.wrapping_add(count);
    }
    sum
}

impl Waiting {
    /// The waiting logs of all.
    pub(crate) fn of(alloc: Global, logs: &NumberedLogs) -> Result<Waiting, NoMemory>
        requires { AreInRange logs.now }
        ensures knows { IfOk result (λ w. KnowsAll logs.now w) }
        ensures slots { IfOk result (λ w. HasSlots logs.now w) }
    {
        let mut first = counts(alloc, logs)?;
        let sum = sum_before(&mut first);
        let mut waiting = Waiting {
            threads: Waiters::new(alloc, logs.roots.len())?,
            acquires: Waiters::new(alloc, sum as usize + 1)?,
            first,
        };
        for log in 0..logs.logs.len() as u32 {
            waiting.add_log(logs, log)?;
        }
        Ok(waiting)
    }

    // The slot of an acquire.
    fn acquire_slot(&self, lock: u32, number: u64) -> usize
        requires slots { (lock < length self.now.first.items) × (0 < slot_count self.now.acquires) }
        requires fits { number ≤ 2 ^ 32 }
        ensures value { result ≡ acquire_slot self.now lock number }
        ensures inside { result < slot_count self.now.acquires }
    {
        let place = u64::from(self.first[lock as usize]) + number;
        (place % self.acquires.slots.len() as u64) as usize
    }

    // What a step of a log waits for.
    fn add_step(&mut self, logs: &NumberedLogs, log: u32, step: &Step) -> Result<(), NoMemory>
        requires range { IsStepInRange logs.now step.now }
        requires slots { HasSlots logs.now self.old }
        ensures knows { OnOk result (KnowsStep self.new log step.now) }
        ensures more { OnOk result (HasMore self.old self.new) }
    {
        match step {
            Step::Join(child) => self.threads.add(*child as usize, log),
            Step::Acquire { lock, number } => {
                let slot = self.acquire_slot(*lock, u64::from(*number));
                self.acquires.add(slot, log)
            }
            _ => Ok(()),
        }
    }

    // What a log waits for: the begin of its thread, and what its steps wait for.
    fn add_log(&mut self, logs: &NumberedLogs, log: u32) -> Result<(), NoMemory>
        requires range { AreInRange logs.now }
        requires inside { log < length logs.now.logs.items }
        requires slots { HasSlots logs.now self.old }
        ensures knows { OnOk result (KnowsLog logs.now self.new log) }
        ensures more { OnOk result (HasMore self.old self.new) }
    {
        let steps = &logs.logs[log as usize];
        self.threads.add(steps.thread as usize, log)?;
        for step in &steps.steps {
            self.add_step(logs, log, step)?;
        }
        Ok(())
    }

    /// Makes the logs ready that may wait for the begin or the end of the thread.
    pub(crate) fn wake_thread(&self, thread: u32, ready: &mut BTreeSet<u32>) -> Result<(), NoMemory>
        requires { thread < slot_count self.now.threads }
        ensures woken { OnOk result ((l : ℕ) → IsListed self.now.threads thread l → IsTrue (contains nat_cmp ready.new l)) }
        ensures kept { OnOk result ((l : ℕ) → IsTrue (contains nat_cmp ready.old l) → IsTrue (contains nat_cmp ready.new l)) }
    {
        self.threads.wake(thread as usize, ready)
    }

    /// Makes the logs ready that may wait to acquire the lock as the acquire of this number.
    pub(crate) fn wake_acquire(
        &self,
        lock: u32,
        number: u64,
        ready: &mut BTreeSet<u32>,
    ) -> Result<(), NoMemory>
        requires slots { (lock < length self.now.first.items) × (0 < slot_count self.now.acquires) }
        requires fits { number ≤ 2 ^ 32 }
        ensures woken { OnOk result ((l : ℕ) → IsListed self.now.acquires (acquire_slot self.now lock number) l → IsTrue (contains nat_cmp ready.new l)) }
        ensures kept { OnOk result ((l : ℕ) → IsTrue (contains nat_cmp ready.old l) → IsTrue (contains nat_cmp ready.new l)) }
    {
        self.acquires.wake(self.acquire_slot(lock, number), ready)
    }
}
