//! What is known of the threads, locks and logs behind the events that are placed.
ghost use Rattle.std.specs.Prelude.{◌≡◌, ◌+◌, ◌<◌, ◌≤◌, ◌^◌, true, false, ℕ, [], List, length, IfOk, IfSome, Some, slice_get, slice_index, ◌==◌};
ghost use Rattle.rd_turns.specs.NumberedLogs.{AreInRange, IsStepInRange, logs_by_numbers};
ghost use Rattle.rd_turns.specs.Standing.{AreLeftOpen, AreThreadsOf, AreWithout, CanPlace, FitsLogs, IsLockStep, IsThreadStep, StandsFor, held_depth, is_free_by, lock_at, locks_behind, may_do_by, may_place_by, next_acquire_by, next_step_of, placed_by, threads_behind, threads_left};
ghost use Rattle.rd_turns.specs.declared.logs.Step.{Step as StepOf};
ghost use Rattle.rd_turns.specs.declared.logs.ThreadSteps.{ThreadSteps as StepsOf};

use crate::logs::{NumberedLogs, Step, ThreadSteps};
use rd_base::NoMemory;
use std::alloc::Global;
use std::marker::Model;

/// What is known of a thread: whether it has begun, whether it was joined, and whether nothing of its log is left.
#[derive(Clone, Copy)]
pub(crate) struct ThreadState {
    known: bool,
    joined: bool,
    ended: bool,
}

/// What is known of a lock: the thread that acquired it last, how often that one acquired it and hasn't released it, and the number of the last acquire.
#[derive(Clone, Copy)]
pub(crate) struct LockState {
    holder: u32,
    depth: u32,
    count: u32,
}

impl LockState {
    // May the thread acquire it?
    fn is_free_for(&self, thread: u32) -> bool
        ensures { result ≡ is_free_by self.now thread }
    {
        self.depth == 0 || self.holder == thread
    }

    // How often the thread acquired it and hasn't released it.
    fn depth_of(&self, thread: u32) -> u32
        ensures { result ≡ held_depth self.now thread }
    {
        if thread == self.holder { self.depth } else { 0 }
    }
}

/// What is known behind the events that are placed: how many there are of each log, and the states of threads and locks, by their numbers.
#[derive(Drop)]
pub(crate) struct Tables {
    given: Vec<u32>,
    threads: Vec<ThreadState>,
    locks: Vec<LockState>,
}

impl Model for Tables {
    ghost use Rattle.rd_turns.specs.Standing.{Tabled};

    ghost Value = { Tabled };

    ghost view = { λ t. record { given = t.given.items; threads = t.threads.items; locks = t.locks.items } };
}

// Threads without an event, of which these are roots.
fn threads_of(alloc: Global, roots: &[bool]) -> Result<Vec<ThreadState>, NoMemory>
    ensures { IfOk result (λ threads. AreWithout roots.now threads.items) }
{
    let mut threads = Vec::with_capacity(alloc, roots.len())?;
    for known in roots {
        threads.push(ThreadState {
            known: *known,
            joined: false,
            ended: true,
        })?;
    }
    Ok(threads)
}

// Threads of whose logs something is left haven't ended.
fn mark_open(logs: &[ThreadSteps], threads: &mut [ThreadState])
    requires { AreThreadsOf (length threads.old) logs.now }
    ensures { AreLeftOpen logs.now threads.old threads.new }
{
    for log in logs {
        if !log.steps.is_empty() {
            threads[log.thread as usize].ended = false;
        }
    }
}

impl Tables {
    /// What is known before any event is placed.
    pub(crate) fn new(alloc: Global, logs: &NumberedLogs) -> Result<Tables, NoMemory>
        requires { AreInRange logs.now }
        ensures { IfOk result (λ tables. StandsFor logs.now [] tables) }
    {
        let given = vec![in alloc; 0u32; logs.logs.len()]?;
        let mut threads = threads_of(alloc, logs.roots.as_slice())?;
        mark_open(logs.logs.as_slice(), threads.as_mut_slice());
        let free = LockState {
            holder: 0,
            depth: 0,
            count: 0,
        };
        let locks = vec![in alloc; free; logs.locks as usize]?;
        Ok(Tables {
            given,
            threads,
            locks,
        })
    }

    // May the thread do this, where it is running?
    fn may_do(&self, logs: &NumberedLogs, thread: u32, step: &Step) -> bool
        requires range { IsStepInRange logs.now step.now }
        requires tables { FitsLogs logs.now self.now }
        ensures { result ≡ may_do_by logs.now self.now thread step.now }
    {
        match step {
            Step::Fork(child) => !self.threads[*child as usize].known,
            Step::Join(child) => {
                let state = &self.threads[*child as usize];
                state.known && *child != thread && state.ended
            }
            Step::Acquire { lock, number } => {
                let state = &self.locks[*lock as usize];
                state.is_free_for(thread) && u64::from(*number) == u64::from(state.count) + 1
            }
            Step::Release(lock) => 0 < self.locks[*lock as usize].depth_of(thread),
            Step::Call(object) => logs.declared[*object as usize],
        }
    }

    /// The log's next step, if it may be placed.
    pub(crate) fn next_step(&self, logs: &NumberedLogs, log: u32) -> Option<Step>
        requires range { AreInRange logs.now }
        requires tables { FitsLogs logs.now self.now }
        ensures { result ≡ next_step_of logs.now self.now log }
    {
        let steps = logs.logs.get(log as usize)?;
        let step = steps.steps.get(self.given[log as usize] as usize)?;
        let state = &self.threads[steps.thread as usize];
        if state.known && !state.joined && self.may_do(logs, steps.thread, step) {
            Some(*step)
        } else {
            None
        }
    }

    // What is known of threads behind a step.
    fn note_threads(&mut self, step: &Step)
        requires { IsThreadStep self.old.threads step.now }
        ensures { self.new ≡ record { given = self.old.given; threads = threads_behind self.old.threads step.now; locks = self.old.locks } }
    {
        match step {
            Step::Fork(child) => self.threads[*child as usize].known = true,
            Step::Join(child) => self.threads[*child as usize].joined = true,
            _ => {}
        }
    }

    // What is known of locks behind a step of the thread.
    fn note_locks(&mut self, thread: u32, step: &Step)
        requires { IsLockStep self.old.locks step.now }
        ensures { self.new ≡ record { given = self.old.given; threads = self.old.threads; locks = locks_behind self.old.locks thread step.now } }
    {
        match step {
            Step::Acquire { lock, number } => {
                let state = &mut self.locks[*lock as usize];
                state.holder = thread;
                state.depth += 1;
                state.count = *number;
            }
            Step::Release(lock) => self.locks[*lock as usize].depth -= 1,
            _ => {}
        }
    }

    /// What is known when the log's next step is placed, too. It answers whether nothing of the log is left.
    pub(crate) fn place(&mut self, logs: &NumberedLogs, log: u32, step: &Step) -> bool
        requires range { AreInRange logs.now }
        requires next { CanPlace logs.now self.old log step.now }
        ensures tables { (steps : StepsOf) → slice_get logs.now.logs.items log ≡ Some steps → self.new ≡ placed_by self.old log steps step.now }
        ensures left { (steps : StepsOf) → slice_get logs.now.logs.items log ≡ Some steps → result ≡ (slice_index self.new.given log == length steps.steps.items) }
    {
        let steps = &logs.logs[log as usize];
        self.given[log as usize] += 1;
        self.note_threads(step);
        self.note_locks(steps.thread, step);
        let used_up = self.given[log as usize] as usize == steps.steps.len();
        if used_up {
            self.threads[steps.thread as usize].ended = true;
        }
        used_up
    }

    /// How many events of the log are placed.
    pub(crate) fn given(&self, log: u32) -> u32
        requires { log < length self.now.given }
        ensures { result ≡ slice_index self.now.given log }
    {
        self.given[log as usize]
    }

    /// The number that the lock's next acquire has, if no thread has the lock.
    pub(crate) fn next_acquire(&self, lock: u32) -> Option<u64>
        requires { lock < length self.now.locks }
        ensures number { result ≡ next_acquire_by (lock_at self.now lock) }
        ensures fits { IfSome result (λ number. number ≤ 2 ^ 32) }
    {
        let state = &self.locks[lock as usize];
        if state.depth == 0 {
            Some(u64::from(state.count) + 1)
        } else {
            None
        }
    }
}
