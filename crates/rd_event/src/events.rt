//! Events by numbers.
ghost use Rattle.std.specs.Prelude.{◌≡◌, ◌≢◌, [], IfOk, OnErr};
ghost use Rattle.rd_event.specs.declared.events.Call.{Call as CallOf};

use rd_base::{NoMemory, Slots};
use std::alloc::Global;

/// A call by numbers. Threads and objects have the place, from 0, of the line that began or declared each among all such
/// lines; a kind has its place among the kinds, and a method its place in its kind.
#[derive(Drop, PartialEq, Eq)]
pub struct Call {
    pub thread: u32,
    pub object: u32,
    pub kind: u32,
    pub method: u8,
    /// the arguments, then the result
    pub slots: Slots,
}

impl Call {
    /// An equal call. Without slots it takes no memory.
    pub fn copy(&self, alloc: Global) -> Result<Call, NoMemory>
        ensures value { IfOk result (λ call. call ≡ self.now) }
        ensures memory { OnErr result (self.now.slots ≢ []) }
    {
        Ok(Call {
            thread: self.thread,
            object: self.object,
            kind: self.kind,
            method: self.method,
            slots: self.slots.copy(alloc)?,
        })
    }
}

/// An event of a trace, by numbers. A lock has the place, from 0, of the line that first acquired or shared it among all such first lines.
#[derive(Drop, PartialEq, Eq)]
pub enum Event {
    /// the thread begins the child
    Fork { thread: u32, child: u32 },
    /// the thread waits for the end of the child
    Join { thread: u32, child: u32 },
    /// the thread takes the lock
    Acquire { thread: u32, lock: u32 },
    /// the thread gives the lock back
    Release { thread: u32, lock: u32 },
    /// the thread takes a share of the lock
    Share { thread: u32, lock: u32 },
    /// the thread gives a share of the lock back
    Unshare { thread: u32, lock: u32 },
    /// the thread calls a method of an object
    Call(Call),
}

impl Event {
    /// An equal event. Only a call with slots takes memory.
    pub fn copy(&self, alloc: Global) -> Result<Event, NoMemory>
        ensures value { IfOk result (λ event. event ≡ self.now) }
        ensures memory { OnErr result
            ((call : CallOf) × (self.now ≡ Event.Call call) × (call.slots ≢ [])) }
    {
        Ok(match self {
            Event::Fork { thread, child } => Event::Fork {
                thread: *thread,
                child: *child,
            },
            Event::Join { thread, child } => Event::Join {
                thread: *thread,
                child: *child,
            },
            Event::Acquire { thread, lock } => Event::Acquire {
                thread: *thread,
                lock: *lock,
            },
            Event::Release { thread, lock } => Event::Release {
                thread: *thread,
                lock: *lock,
            },
            Event::Share { thread, lock } => Event::Share {
                thread: *thread,
                lock: *lock,
            },
            Event::Unshare { thread, lock } => Event::Unshare {
                thread: *thread,
                lock: *lock,
            },
            Event::Call(call) => Event::Call(call.copy(alloc)?),
        })
    }
}
