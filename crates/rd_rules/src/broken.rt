//! The rules that a line breaks, and the first of them.
ghost use Rattle.std.specs.Prelude.{◌≡◌, ◌<◌, false, IfNone};

use crate::causes::WfCause;
use rd_base::{LimitName, Limits};

/// The rules that a line breaks: a flag for each cause, in their order.
#[derive(Clone, Copy)]
pub struct Broken {
    pub header_first: bool,
    pub late_root: bool,
    pub name_taken: bool,
    pub unknown_thread: bool,
    pub thread_ended: bool,
    pub own_thread: bool,
    pub unknown_kind: bool,
    pub unknown_object: bool,
    pub unknown_method: bool,
    pub wrong_count: bool,
    /// the least of the other threads that stand against the line
    pub held_by: Option<u32>,
    pub not_held: bool,
    pub events: bool,
    pub threads: bool,
    pub locks: bool,
    pub objects: bool,
    pub depth: bool,
}

/// No rule is broken.
pub const UNBROKEN: Broken = Broken {
    header_first: false,
    late_root: false,
    name_taken: false,
    unknown_thread: false,
    thread_ended: false,
    own_thread: false,
    unknown_kind: false,
    unknown_object: false,
    unknown_method: false,
    wrong_count: false,
    held_by: None,
    not_held: false,
    events: false,
    threads: false,
    locks: false,
    objects: false,
    depth: false,
};

impl Broken {
    ghost use Rattle.std.specs.Prelude.{◌≡◌, ◌<◌, List, None, true, IfSome, find, length};
    ghost use Rattle.rd_event.specs.declared.items.Line.{Line as LineOf};
    ghost use Rattle.rd_rules.specs.MayFollow.{causes, threads_of};
    ghost use Rattle.rd_rules.specs.Broken.{flag, nothing_broken};

    /// Whether no rule is broken.
    #[inline(always)]
    fn is_unbroken(&self) -> bool
        ensures { result ≡ true → self.now ≡ nothing_broken }
    {
        !(self.header_first
            | self.late_root
            | self.name_taken
            | self.unknown_thread
            | self.thread_ended
            | self.own_thread
            | self.unknown_kind
            | self.unknown_object
            | self.unknown_method
            | self.wrong_count
            | self.held_by.is_some()
            | self.not_held
            | self.events
            | self.threads
            | self.locks
            | self.objects
            | self.depth)
    }

    /// The cause of the first rule that is broken.
    #[inline(always)]
    pub fn first(&self, limits: &Limits) -> Option<WfCause>
        ensures first { (before : List LineOf) →
            IfSome self.now.held_by (λ holder. holder < length (threads_of before)) →
            result ≡ find (flag self.now) (causes limits.now before) }
        ensures known { IfNone result (self.now.unknown_thread ≡ false) }
        ensures held { IfNone result ((self.now.held_by ≡ None) × (self.now.not_held ≡ false)) }
        ensures room { IfNone result
            ((self.now.events ≡ false) × (self.now.threads ≡ false) × (self.now.locks ≡ false)
            × (self.now.objects ≡ false) × (self.now.depth ≡ false)) }
    {
        if self.is_unbroken() {
            return None;
        }
        self.choose(limits)
    }

    // Taken by value, so that the flags need no place in memory where no rule is broken.
    #[inline(never)]
    fn choose(self, limits: &Limits) -> Option<WfCause>
        ensures first { (before : List LineOf) →
            IfSome self.held_by (λ holder. holder < length (threads_of before)) →
            result ≡ find (flag self) (causes limits.now before) }
        ensures known { IfNone result (self.unknown_thread ≡ false) }
        ensures held { IfNone result ((self.held_by ≡ None) × (self.not_held ≡ false)) }
        ensures room { IfNone result
            ((self.events ≡ false) × (self.threads ≡ false) × (self.locks ≡ false)
            × (self.objects ≡ false) × (self.depth ≡ false)) }
    {
        if self.header_first {
            Some(WfCause::HeaderFirst)
        } else if self.late_root {
            Some(WfCause::LateRoot)
        } else if self.name_taken {
            Some(WfCause::NameTaken)
        } else if self.unknown_thread {
            Some(WfCause::UnknownThread)
        } else if self.thread_ended {
            Some(WfCause::ThreadEnded)
        } else if self.own_thread {
            Some(WfCause::OwnThread)
        } else if self.unknown_kind {
            Some(WfCause::UnknownKind)
        } else if self.unknown_object {
            Some(WfCause::UnknownObject)
        } else if self.unknown_method {
            Some(WfCause::UnknownMethod)
        } else if self.wrong_count {
            Some(WfCause::WrongCount)
        } else if let Some(holder) = self.held_by {
            Some(WfCause::LockHeld(holder))
        } else if self.not_held {
            Some(WfCause::NotHeld)
        } else if self.events {
            Some(WfCause::Limit(LimitName::Events, limits.events))
        } else if self.threads {
            Some(WfCause::Limit(LimitName::Threads, limits.threads))
        } else if self.locks {
            Some(WfCause::Limit(LimitName::Locks, limits.locks))
        } else if self.objects {
            Some(WfCause::Limit(LimitName::Objects, limits.objects))
        } else if self.depth {
            Some(WfCause::Limit(LimitName::Depth, limits.depth))
        } else {
            None
        }
    }
}
