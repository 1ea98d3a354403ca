//! Whether a line may follow the accepted lines, by what a roster holds of them.

use super::Roster;
use rd_base::{Limits, Name};
use rd_event::{Event, Line, LineEvent};
use rd_rules::{Accepted, Broken, UNBROKEN, WfCause};
use rd_tables::{Declared, FoundLock, FoundMethod, FoundObject, FoundThread, Pair, lesser};

impl Roster {
    ghost use Rattle.std.specs.Prelude.{◌≡◌, ◌<◌, ◌^◌, ◌+◌, ◌||◌, List, ℕ, None, IfNone, IfOk, IfErr, OnOk, false, true, is_some, length};
    ghost use Rattle.rd_base.specs.declared.values.Value.{Value};
    ghost use Rattle.rd_tables.specs.Tables.{depth_of, is_other_holder, other_holder};
    ghost use Rattle.rd_wf.specs.Roster.{Permits, Forbids, IsFoundLock, IsFoundMethod, IsFoundObject, IsFoundThread, thread_count, lock_count, object_count};
    ghost use Rattle.rd_tables.specs.Sharers.{IsLeast};
    ghost use Rattle.rd_tables.specs.Shares.{is_other_sharer, share_depth};
    ghost use Rattle.rd_rules.specs.MayFollow.{same_name};
    ghost use Rattle.indexmap.specs.IndexMap.{get_by, index_of_by};

    // The least of the threads but this one that have the lock or a share of it.
    #[inline(always)]
    fn least_other(&self, found: FoundLock, thread: u32) -> Option<u32>
        ensures least { IsLeast
            (λ other. is_other_holder found.lock thread other || is_other_sharer self.now.shares found.number thread other)
            result }
        ensures alone { IfNone result (other_holder found.lock thread ≡ None) }
    {
        if (found.lock.depth == 0 || found.lock.holder == thread) && self.shares.is_unused() {
            return None;
        }
        self.least_sharer(found, thread)
    }

    // The same where locks may be shared.
    #[inline(never)]
    fn least_sharer(&self, found: FoundLock, thread: u32) -> Option<u32>
        ensures least { IsLeast
            (λ other. is_other_holder found.lock thread other || is_other_sharer self.now.shares found.number thread other)
            result }
        ensures alone { IfNone result (other_holder found.lock thread ≡ None) }
    {
        lesser(
            found.lock.held_by_other(thread),
            self.shares.least_other(found.number, thread),
        )
    }

    pub(super) fn judge_root(&self, name: &Name, limits: &Limits) -> Result<u32, WfCause>
        ensures ok { IfOk result
            (λ thread. Permits self.now limits.now (Line.Thread name.now) (Accepted.Root thread)) }
        ensures room { OnOk result (thread_count self.now + 1 < 2 ^ 32) }
        ensures err { IfErr result (Forbids self.now limits.now (Line.Thread name.now)) }
    {
        let thread = self.threads.len() as u32;
        let broken = Broken {
            header_first: self.header.is_none(),
            late_root: self.events > 0,
            name_taken: self.threads.contains_key(name),
            threads: limits.threads <= thread,
            ..UNBROKEN
        };
        if let Some(cause) = broken.first(limits) {
            return Err(cause);
        }
        Ok(thread)
    }

    // By what was found of the name of the line's kind, and by whether an object has the line's name.
    #[inline(always)]
    pub(super) fn judge_object(
        &self,
        found: Option<u32>,
        taken: bool,
        limits: &Limits,
    ) -> Result<Declared, WfCause>
        ensures ok { IfOk result
            (λ new. (name kind : List ℕ) → taken ≡ is_some (get_by (same_name name) self.now.objects) →
            found ≡ index_of_by (same_name kind) self.now.kinds →
            is_some found ≡ is_some (get_by (same_name kind) self.now.kinds) →
            Permits self.now limits.now (Line.Object name kind)
            (Accepted.Object new.object new.kind)) }
        ensures room { OnOk result (object_count self.now + 1 < 2 ^ 32) }
        ensures err { IfErr result
            (λ cause. (name kind : List ℕ) → taken ≡ is_some (get_by (same_name name) self.now.objects) →
            is_some found ≡ is_some (get_by (same_name kind) self.now.kinds) →
            Forbids self.now limits.now (Line.Object name kind) cause) }
    {
        let object = self.objects.len() as u32;
        let kind = found.unwrap_or(self.kinds.len() as u32);
        let broken = Broken {
            header_first: self.header.is_none(),
            name_taken: taken,
            unknown_kind: found.is_none(),
            objects: limits.objects <= object,
            ..UNBROKEN
        };
        if let Some(cause) = broken.first(limits) {
            return Err(cause);
        }
        Ok(Declared { object, kind })
    }

    // By what was found of the name of the line's thread.
    pub(super) fn judge_fork(
        &self,
        actor: FoundThread,
        child: &Name,
        limits: &Limits,
    ) -> Result<Pair, WfCause>
        ensures ok { IfOk result (λ pair. (thread : List ℕ) → IsFoundThread self.now thread actor →
            Permits self.now limits.now (Line.Event (LineEvent.Fork thread child.now))
            (Accepted.Event (Event.Fork pair.thread pair.child))) }
        ensures room { OnOk result
            ((thread_count self.now + 1 < 2 ^ 32) × (self.now.events + 1 < 2 ^ 32)) }
        ensures err { IfErr result (λ cause. (thread : List ℕ) → IsFoundThread self.now thread actor →
            Forbids self.now limits.now (Line.Event (LineEvent.Fork thread child.now)) cause) }
    {
        let new = self.threads.len() as u32;
        let broken = Broken {
            header_first: self.header.is_none(),
            name_taken: self.threads.contains_key(child),
            unknown_thread: actor.unknown,
            thread_ended: actor.joined,
            events: limits.events <= self.events,
            threads: limits.threads <= new,
            ..UNBROKEN
        };
        if let Some(cause) = broken.first(limits) {
            return Err(cause);
        }
        Ok(Pair {
            thread: actor.number,
            child: new,
        })
    }

    // By what was found of the names of the line's threads.
    #[inline(always)]
    pub(super) fn judge_join(
        &self,
        actor: FoundThread,
        awaited: FoundThread,
        limits: &Limits,
    ) -> Result<(), WfCause>
        // the line is permitted
        ensures ok { OnOk result
            ((thread child : List ℕ) →
            IsFoundThread self.now thread actor → IsFoundThread self.now child awaited →
            Permits self.now limits.now (Line.Event (LineEvent.Join thread child))
            (Accepted.Event (Event.Join actor.number awaited.number))) }

        // the awaited thread is known, and the number of events fits; or the line is forbidden
        ensures known { OnOk result (awaited.unknown ≡ false) }
        ensures room { OnOk result (self.now.events + 1 < 2 ^ 32) }
        ensures err { IfErr result
            (λ cause. (thread child : List ℕ) →
            IsFoundThread self.now thread actor → IsFoundThread self.now child awaited →
            Forbids self.now limits.now (Line.Event (LineEvent.Join thread child)) cause) }
    {
        let broken = Broken {
            header_first: self.header.is_none(),
            unknown_thread: actor.unknown | awaited.unknown,
            thread_ended: actor.joined,
            // where one is unknown, that is told first
            own_thread: awaited.number == actor.number,
            events: limits.events <= self.events,
            ..UNBROKEN
        };
        if let Some(cause) = broken.first(limits) {
            return Err(cause);
        }
        Ok(())
    }

    // By what was found of the names of the line's thread and lock.
    #[inline(always)]
    pub(super) fn judge_acquire(
        &self,
        actor: FoundThread,
        found: FoundLock,
        limits: &Limits,
    ) -> Result<u32, WfCause>
        // the line is permitted
        ensures ok { OnOk result
            ((thread lock : List ℕ) →
            IsFoundThread self.now thread actor → IsFoundLock self.now lock found →
            Permits self.now limits.now (Line.Event (LineEvent.Acquire thread lock))
            (Accepted.Event (Event.Acquire actor.number found.number))) }

        // no other thread has the lock, and the answer is how often this one has it
        ensures depth { IfOk result (λ depth. depth ≡ found.lock.depth) }
        ensures own { IfOk result (λ depth. depth_of found.lock actor.number ≡ depth) }

        // its numbers fit; or the line is forbidden
        ensures room { IfOk result
            (λ depth. (self.now.events + 1 < 2 ^ 32) × (depth + 1 < 2 ^ 32)) }
        ensures new { OnOk result (found.unknown ≡ true → found.number + 1 < 2 ^ 32) }
        ensures err { IfErr result
            (λ cause. (thread lock : List ℕ) →
            IsFoundThread self.now thread actor → IsFoundLock self.now lock found →
            Forbids self.now limits.now (Line.Event (LineEvent.Acquire thread lock)) cause) }
    {
        let depth = found.lock.depth_of(actor.number);
        let broken = Broken {
            header_first: self.header.is_none(),
            unknown_thread: actor.unknown,
            thread_ended: actor.joined,
            held_by: self.least_other(found, actor.number),
            events: limits.events <= self.events,
            locks: found.unknown & (limits.locks <= found.number),
            depth: limits.depth <= depth,
            ..UNBROKEN
        };
        if let Some(cause) = broken.first(limits) {
            return Err(cause);
        }
        Ok(depth)
    }

    // By what was found of the names of the line's thread and lock.
    #[inline(always)]
    pub(super) fn judge_release(
        &self,
        actor: FoundThread,
        found: FoundLock,
        limits: &Limits,
    ) -> Result<u32, WfCause>
        // the line is permitted
        ensures ok { OnOk result
            ((thread lock : List ℕ) →
            IsFoundThread self.now thread actor → IsFoundLock self.now lock found →
            Permits self.now limits.now (Line.Event (LineEvent.Release thread lock))
            (Accepted.Event (Event.Release actor.number found.number))) }

        // the thread has the lock, so often as the answer says
        ensures depth { IfOk result (λ depth. depth ≡ found.lock.depth) }
        ensures own { IfOk result (λ depth. depth_of found.lock actor.number ≡ depth) }
        ensures held { IfOk result (λ depth. 0 < depth) }

        // its number fits; or the line is forbidden
        ensures room { OnOk result (self.now.events + 1 < 2 ^ 32) }
        ensures err { IfErr result
            (λ cause. (thread lock : List ℕ) →
            IsFoundThread self.now thread actor → IsFoundLock self.now lock found →
            Forbids self.now limits.now (Line.Event (LineEvent.Release thread lock)) cause) }
    {
        let depth = found.lock.depth_of(actor.number);
        let broken = Broken {
            header_first: self.header.is_none(),
            unknown_thread: actor.unknown,
            thread_ended: actor.joined,
            not_held: depth == 0,
            events: limits.events <= self.events,
            ..UNBROKEN
        };
        if let Some(cause) = broken.first(limits) {
            return Err(cause);
        }
        Ok(depth)
    }

    // By what was found of the names of the line's thread and lock.
    #[inline(always)]
    pub(super) fn judge_share(
        &self,
        actor: FoundThread,
        found: FoundLock,
        limits: &Limits,
    ) -> Result<(), WfCause>
        // the line is permitted
        ensures ok { OnOk result
            ((thread lock : List ℕ) →
            IsFoundThread self.now thread actor → IsFoundLock self.now lock found →
            Permits self.now limits.now (Line.Event (LineEvent.Share thread lock))
            (Accepted.Event (Event.Share actor.number found.number))) }

        // its numbers fit; or the line is forbidden
        ensures room { OnOk result
            ((self.now.events + 1 < 2 ^ 32)
            × (share_depth self.now.shares found.number actor.number + 1 < 2 ^ 32)) }
        ensures new { OnOk result (found.unknown ≡ true → found.number + 1 < 2 ^ 32) }
        ensures err { IfErr result
            (λ cause. (thread lock : List ℕ) →
            IsFoundThread self.now thread actor → IsFoundLock self.now lock found →
            Forbids self.now limits.now (Line.Event (LineEvent.Share thread lock)) cause) }
    {
        let shared = self.shares.depth_of(found.number, actor.number);
        let broken = Broken {
            header_first: self.header.is_none(),
            unknown_thread: actor.unknown,
            thread_ended: actor.joined,
            held_by: found.lock.held_by_other(actor.number),
            events: limits.events <= self.events,
            locks: found.unknown & (limits.locks <= found.number),
            depth: limits.depth <= shared,
            ..UNBROKEN
        };
        if let Some(cause) = broken.first(limits) {
            return Err(cause);
        }
        Ok(())
    }

    // By what was found of the names of the line's thread and lock.
    #[inline(always)]
    pub(super) fn judge_unshare(
        &self,
        actor: FoundThread,
        found: FoundLock,
        limits: &Limits,
    ) -> Result<(), WfCause>
        // the line is permitted
        ensures ok { OnOk result
            ((thread lock : List ℕ) →
            IsFoundThread self.now thread actor → IsFoundLock self.now lock found →
            Permits self.now limits.now (Line.Event (LineEvent.Unshare thread lock))
            (Accepted.Event (Event.Unshare actor.number found.number))) }

        // the thread shares the lock, and the number of events fits; or the line is forbidden
        ensures held { OnOk result
            (0 < share_depth self.now.shares found.number actor.number) }
        ensures room { OnOk result (self.now.events + 1 < 2 ^ 32) }
        ensures err { IfErr result
            (λ cause. (thread lock : List ℕ) →
            IsFoundThread self.now thread actor → IsFoundLock self.now lock found →
            Forbids self.now limits.now (Line.Event (LineEvent.Unshare thread lock)) cause) }
    {
        let broken = Broken {
            header_first: self.header.is_none(),
            unknown_thread: actor.unknown,
            thread_ended: actor.joined,
            not_held: self.shares.depth_of(found.number, actor.number) == 0,
            events: limits.events <= self.events,
            ..UNBROKEN
        };
        if let Some(cause) = broken.first(limits) {
            return Err(cause);
        }
        Ok(())
    }

    // By what was found of the names of the line's thread, object and method, and by how many slots it has.
    #[inline(always)]
    pub(super) fn judge_call(
        &self,
        actor: FoundThread,
        object: FoundObject,
        method: FoundMethod,
        count: usize,
        limits: &Limits,
    ) -> Result<(), WfCause>
        // the line is permitted
        ensures ok { OnOk result
            ((thread called named : List ℕ) (slots : List Value) →
            IsFoundThread self.now thread actor → IsFoundObject self.now called object →
            IsFoundMethod self.now object.kind named method → length slots ≡ count →
            Permits self.now limits.now (Line.Event (LineEvent.Call thread called named slots))
            (Accepted.Event
            (Event.Call (record { thread = actor.number; object = object.number; kind = object.kind; method = method.number; slots = slots })))) }

        // the number of events fits; or the line is forbidden
        ensures room { OnOk result (self.now.events + 1 < 2 ^ 32) }
        ensures err { IfErr result
            (λ cause. (thread called named : List ℕ) (slots : List Value) →
            IsFoundThread self.now thread actor → IsFoundObject self.now called object →
            IsFoundMethod self.now object.kind named method → length slots ≡ count →
            Forbids self.now limits.now (Line.Event (LineEvent.Call thread called named slots)) cause) }
    {
        let broken = Broken {
            header_first: self.header.is_none(),
            unknown_thread: actor.unknown,
            thread_ended: actor.joined,
            unknown_object: object.unknown,
            unknown_method: method.unknown,
            wrong_count: count != usize::from(method.slots),
            events: limits.events <= self.events,
            ..UNBROKEN
        };
        if let Some(cause) = broken.first(limits) {
            return Err(cause);
        }
        Ok(())
    }
}
