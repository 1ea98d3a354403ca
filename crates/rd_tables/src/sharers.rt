//! The threads that share a lock.
ghost use Rattle.std.specs.Prelude.{ℕ, ◌≡◌, ◌+◌, ◌<◌, ◌≤◌, ◌^◌, ◌==◌, true, if◌then◌else◌, IfNone, IfSome, OnOk, OnErr, length, slice_get, vec_len, vec_capacity};
ghost use Rattle.rd_tables.specs.Sharers.{AreDeep, depth_among, is_other_among, lesser, IsLeast};

use rd_base::NoMemory;
use std::alloc::Global;

/// A thread that shares a lock, and how often it has shared it and not unshared it.
#[derive(Clone, Copy)]
struct Sharer {
    thread: u32,
    depth: u32,
}

/// The threads that share a lock now.
#[derive(Drop)]
pub(crate) struct Sharers {
    sharers: Vec<Sharer>,
    ghost few: { (thread : ℕ) → depth_among sharers.items thread < 2 ^ 32 },
    ghost deep: { AreDeep sharers.items },
}

/// The lesser of two numbers, where both are there, and else the one that is.
pub fn lesser(first: Option<u32>, second: Option<u32>) -> Option<u32>
    ensures { result ≡ lesser first second }
{
    match first {
        None => second,
        Some(number) => match second {
            None => first,
            Some(other) => if other < number { second } else { first },
        },
    }
}

impl Sharers {
    /// No thread shares the lock.
    pub(crate) fn new(alloc: Global) -> Sharers
        ensures { (thread : ℕ) → depth_among result.sharers.items thread ≡ 0 }
    {
        Sharers {
            sharers: Vec::new(alloc),
        }
    }

    /// How often the thread has shared the lock and not unshared it.
    pub(crate) fn depth_of(&self, thread: u32) -> u32
        ensures { result ≡ depth_among self.now.sharers.items thread }
    {
        let mut depth = 0;
        for sharer in &self.sharers {
            if thread == sharer.thread {
                depth += sharer.depth;
            }
        }
        depth
    }

    /// The thread of least number that shares the lock, if there is another one than this.
    pub(crate) fn least_other(&self, thread: u32) -> Option<u32>
        ensures { IsLeast (λ other. is_other_among self.now.sharers.items thread other) result }
    {
        let mut least = None;
        for sharer in &self.sharers {
            if thread != sharer.thread && sharer.depth > 0 {
                least = lesser(least, Some(sharer.thread));
            }
        }
        least
    }

    // Where the thread is held, if it shares the lock.
    fn place_of(&self, thread: u32) -> Option<usize>
        ensures some { IfSome result
            (λ at. (at < length self.now.sharers.items)
            × IfSome (slice_get self.now.sharers.items at)
            (λ sharer. (sharer.thread ≡ thread) × (0 < sharer.depth))) }
        ensures none { IfNone result (depth_among self.now.sharers.items thread ≡ 0) }
    {
        for (at, sharer) in self.sharers.iter().enumerate() {
            if thread == sharer.thread && sharer.depth > 0 {
                return Some(at);
            }
        }
        None
    }

    /// The thread shares the lock once more. Where memory runs out, all share it as before.
    pub(crate) fn add(&mut self, thread: u32) -> Result<(), NoMemory>
        requires { depth_among self.old.sharers.items thread + 1 < 2 ^ 32 }
        ensures ok { OnOk result
            ((other : ℕ) → depth_among self.new.sharers.items other ≡ depth_among self.old.sharers.items other + (if other == thread then 1 else 0)) }
        ensures err { OnErr result
            ((other : ℕ) → depth_among self.new.sharers.items other ≡ depth_among self.old.sharers.items other) }
    {
        if let Some(at) = self.place_of(thread) {
            self.sharers[at].depth += 1;
            return Ok(());
        }
        self.sharers.push(Sharer { thread, depth: 1 })?;
        Ok(())
    }

    /// The thread shares the lock once less. Where it was the last time, it is no longer held.
    pub(crate) fn remove(&mut self, thread: u32)
        requires { 0 < depth_among self.old.sharers.items thread }
        ensures { (other : ℕ) → depth_among self.old.sharers.items other ≡ depth_among self.new.sharers.items other + (if other == thread then 1 else 0) }
    {
        if let Some(at) = self.place_of(thread) {
            if self.sharers[at].depth > 1 {
                self.sharers[at].depth -= 1;
            } else {
                self.sharers.swap_remove(at);
            }
        }
    }
}
