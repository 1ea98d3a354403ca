//! The threads that share locks.
ghost use Rattle.std.specs.Prelude.{ℕ, ◌≡◌, ◌+◌, ◌<◌, ◌≤◌, ◌^◌, ◌==◌, ◌&&◌, true, if◌then◌else◌, OnOk, OnErr, vec_len};
ghost use Rattle.rd_tables.specs.Sharers.{IsLeast};
ghost use Rattle.rd_tables.specs.Shares.{is_other_sharer, share_depth};

use crate::sharers::Sharers;
use rd_base::NoMemory;
use std::alloc::Global;

/// The threads that share locks now, by the locks' numbers. As long as no lock is shared, it takes no memory.
#[derive(Drop)]
pub struct Shares {
    alloc: Global,
    locks: Vec<Sharers>,
}

impl Shares {
    /// No lock is shared.
    pub fn new(alloc: Global) -> Shares
        ensures { (lock thread : ℕ) → share_depth result lock thread ≡ 0 }
    {
        Shares {
            alloc,
            locks: Vec::new(alloc),
        }
    }

    /// Whether no lock was ever shared.
    #[inline(always)]
    pub fn is_unused(&self) -> bool
        ensures { result ≡ true → (lock thread : ℕ) → share_depth self.now lock thread ≡ 0 }
    {
        self.locks.is_empty()
    }

    /// How often the thread has shared the lock and not unshared it.
    pub fn depth_of(&self, lock: u32, thread: u32) -> u32
        ensures { result ≡ share_depth self.now lock thread }
    {
        match self.locks.get(lock as usize) {
            None => 0,
            Some(sharers) => sharers.depth_of(thread),
        }
    }

    /// The thread of least number that shares the lock, if there is another one than this.
    #[inline(always)]
    pub fn least_other(&self, lock: u32, thread: u32) -> Option<u32>
        ensures { IsLeast (λ other. is_other_sharer self.now lock thread other) result }
    {
        match self.locks.get(lock as usize) {
            None => None,
            Some(sharers) => sharers.least_other(thread),
        }
    }

    // Holds sharers for each lock up to this number.
    fn grow(&mut self, lock: u32) -> Result<(), NoMemory>
        ensures room { OnOk result (lock < vec_len self.new.locks) }
        ensures same { (other thread : ℕ) → share_depth self.new other thread ≡ share_depth self.old other thread }
    {
        if (lock as usize) < self.locks.len() {
            return Ok(());
        }
        for _ in self.locks.len()..lock as usize + 1 {
            self.locks.push(Sharers::new(self.alloc))?;
        }
        Ok(())
    }

    /// The thread shares the lock once more. Where memory runs out, all are shared as before.
    pub fn add(&mut self, lock: u32, thread: u32) -> Result<(), NoMemory>
        requires { share_depth self.old lock thread + 1 < 2 ^ 32 }
        ensures ok { OnOk result
            ((other sharer : ℕ) → share_depth self.new other sharer ≡ share_depth self.old other sharer + (if (sharer == thread) && (other == lock) then 1 else 0)) }
        ensures err { OnErr result
            ((other sharer : ℕ) → share_depth self.new other sharer ≡ share_depth self.old other sharer) }
    {
        self.grow(lock)?;
        self.locks[lock as usize].add(thread)
    }

    /// The thread gives a share of the lock back.
    pub fn remove(&mut self, lock: u32, thread: u32)
        requires { 0 < share_depth self.old lock thread }
        ensures { (other sharer : ℕ) → share_depth self.old other sharer ≡ share_depth self.new other sharer + (if (sharer == thread) && (other == lock) then 1 else 0) }
    {
        if let Some(sharers) = self.locks.get_mut(lock as usize) {
            sharers.remove(thread);
        }
    }
}
