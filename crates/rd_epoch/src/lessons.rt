//! By which line each thread learnt last what others did.
ghost use Rattle.std.specs.Prelude.{◌≡◌, ◌≢◌, ◌⊎◌, ℕ, ◌<◌, List, [], ◌∷◌, ◌++◌, length, slice_get, Some, OnOk};
ghost use Rattle.rd_event.specs.declared.events.Event.{Event as EventOf};
ghost use Rattle.rd_order.specs.EventLists.{threads_after};
ghost use Rattle.rd_order.specs.Order.{forked_thread, thread_of};
ghost use Rattle.rd_epoch.specs.Lessons.{AreLessons};

use rd_base::NoMemory;
use rd_event::Event;
use std::alloc::Global;
use std::marker::Model;

/// By which line each thread learnt last what others did: by waiting for the end of one, by taking a lock, or by beginning. Contracts see it as the list of the lines, by the
/// threads' numbers.
#[derive(Drop)]
pub struct Lessons {
    lines: Vec<u64>,
}

impl Model for Lessons {
    ghost use Rattle.std.specs.Prelude.{List, ℕ};

    ghost Value = { List ℕ };

    ghost view = { λ l. l.lines.items };
}

impl Lessons {
    /// Those of no thread. It takes no memory.
    pub fn new(alloc: Global) -> Lessons
        ensures { result ≡ [] }
    {
        Lessons {
            lines: Vec::new(alloc),
        }
    }

    /// The next thread begins, by the line with this number.
    pub fn begin(&mut self, line: u64) -> Result<(), NoMemory>
        ensures { OnOk result (self.new ≡ self.old ++ line ∷ []) }
    {
        self.lines.push(line)?;
        Ok(())
    }

    // The thread learnt last by this line.
    #[inline(always)]
    fn renew(&mut self, thread: u32, line: u64)
        requires { thread < length self.old }
        ensures lines { (t l : ℕ) → slice_get self.new t ≡ Some l → (l ≡ line) ⊎ ((slice_get self.old t ≡ Some l) × (t ≢ thread)) }
        ensures count { length self.new ≡ length self.old }
    {
        self.lines[thread as usize] = line;
    }

    /// Takes the next event, whose line has this number. It is no call, which teaches nothing. Memory is taken only where a thread begins.
    #[inline(always)]
    pub fn learn(&mut self, line: u64, event: &Event) -> Result<(), NoMemory>
        requires known { thread_of event.now < length self.old }
        requires next { (u : ℕ) → forked_thread event.now ≡ Some u → u ≡ length self.old }
        ensures learnt { OnOk result ((lines : List ℕ) (es : List EventOf) → length lines ≡ length es →
            ((k l : ℕ) → slice_get lines k ≡ Some l → l < line) → AreLessons self.old lines es →
            AreLessons self.new (lines ++ line ∷ []) (es ++ event.now ∷ [])) }
        ensures count { OnOk result (length self.new ≡ threads_after event.now (length self.old)) }
    {
        match event {
            Event::Fork { .. } => self.begin(line),
            Event::Join { thread, .. } => {
                self.renew(*thread, line);
                Ok(())
            }
            Event::Acquire { thread, .. } => {
                self.renew(*thread, line);
                Ok(())
            }
            Event::Share { thread, .. } => {
                self.renew(*thread, line);
                Ok(())
            }
            Event::Release { .. } => Ok(()),
            Event::Unshare { .. } => Ok(()),
            Event::Call(_) => Ok(()),
        }
    }

    /// The line by which the thread learnt last.
    #[inline(always)]
    pub fn of(&self, thread: u32) -> u64
        requires { thread < length self.now }
        ensures { slice_get self.now thread ≡ Some result }
    {
        self.lines[thread as usize]
    }
}
