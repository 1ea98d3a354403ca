//! What each sort of line does to a roster, by names that are lent.
ghost use Rattle.std.specs.Prelude.{◌≡◌, List, None, Some, IfErr, IfOk};
ghost use Rattle.rd_base.specs.declared.values.Value.{Value};
ghost use Rattle.rd_event.specs.ReadingSlots.{slots_read};

use super::Roster;
use super::finding::{Anywhere, Finder};
use rd_base::{Limits, Name, NoMemory, Slots, SpareList};
use rd_event::{Call, Event, Line, LineEvent, LineRefused, read_slots_in};
use rd_rules::{Accepted, BytesRefused, WfCause, WfRefused};
use rd_tables::{
    Declared, FREE, FoundMethod, FoundObject, FoundThread, Lock, NEAR_LENGTH, NameBytes,
    cut_at_space, near_bytes,
};
use std::alloc::Global;
use std::cell::Cell;

/// What becomes of a line by its bytes, or by names that are lent.
pub type Judged = Result<Accepted, BytesRefused>;

/// A method as a look-up in a kind found it, with the number of the kind.
#[derive(Clone, Copy)]
pub struct KnownMethod {
    pub kind: u32,
    pub found: FoundMethod,
}

/// What an accepted call is in numbers, without its values.
#[derive(Clone, Copy)]
pub struct CallNumbers {
    pub thread: u32,
    pub object: u32,
    pub kind: u32,
    pub method: u8,
}

// What is found of the names of a call, and where the numbers of its thread and object are remembered.
#[derive(Clone, Copy)]
pub(super) struct Called {
    near: usize,
    object_near: usize,
    actor: FoundThread,
    object: FoundObject,
    method: FoundMethod,
}

// The values of a call, in the memory of those of the last one where nothing else has that.
fn read_values(alloc: Global, bytes: &[u8], spare: &Cell<SpareList>) -> Result<Slots, LineRefused>
    ensures slots { IfOk result (λ slots. slots_read 7 bytes.now ≡ Some slots) }
    ensures none { IfErr result (λ e. e ≡ LineRefused.BadLine → slots_read 7 bytes.now ≡ None) }
    ensures memory { IfErr result
        (λ e. e ≡ LineRefused.NoMemory → (slots : List Value)
        × (slots_read 7 bytes.now ≡ Some slots)) }
{
    let mut list = spare.replace(SpareList::new(alloc));
    let read = read_slots_in(alloc, bytes, &mut list);
    spare.set(list);
    read
}

impl Roster {
    ghost use Rattle.std.specs.Prelude.{◌≡◌, ◌≢◌, ◌+◌, ◌<◌, ◌^◌, ◌++◌, ◌∷◌, [], List, ℕ, ⊤, false, true, is_some, length, IfErr, IfNone, IfOk, IfSome, IsSome, OnErr};
    ghost use Rattle.rd_base.specs.Names.{IsName, is_name_byte};
    ghost use Rattle.rd_base.specs.declared.values.Value.{Value};
    ghost use Rattle.rd_ecl.specs.Kinds.{Kind};
    ghost use Rattle.rd_event.specs.declared.items.Line.{Line as LineOf};
    ghost use Rattle.indexmap.specs.IndexMap.{get_by, index_of_by};
    ghost use Rattle.std.specs.List.{AllPass};
    ghost use Rattle.rd_rules.specs.MayFollow.{is_among, objects_of, same_name};
    ghost use Rattle.rd_wf.specs.Roster.{Accepts, IsFoundMethod, IsFoundObject, IsFoundThread, Refuses, RosterStandsFor, TakesCall, TakesNames, with_values};

    #[inline(never)]
    pub(super) fn header(&mut self, version: u8, limits: &Limits) -> Judged
        ensures { TakesNames true ⊤ self.old self.new limits.now (Line.Header version) result }
    {
        if self.header.is_some() {
            return Err(BytesRefused::Cause(WfCause::HeaderFirst));
        }
        self.header = Some(version);
        Ok(Accepted::Nothing)
    }

    #[inline(never)]
    pub(super) fn root(&mut self, name: &[u8], limits: &Limits) -> Judged
        ensures { TakesNames true (IsName name.now) self.old self.new limits.now (Line.Thread name.now) result }
    {
        let Ok(name) = Name::from_bytes(name) else {
            return Err(BytesRefused::BadLine);
        };
        let thread = match self.judge_root(&name, limits) {
            Ok(thread) => thread,
            Err(cause) => return Err(BytesRefused::Cause(cause)),
        };
        self.threads.insert(name, false)?;
        Ok(Accepted::Root(thread))
    }

    // The line that declares an object of the kind with this name. `BadLine` says that one of the two isn't a name.
    #[inline(never)]
    pub(super) fn object(&mut self, name: &[u8], kind: &[u8], limits: &Limits) -> Judged
        ensures { TakesNames true (IsName name.now × IsName kind.now) self.old self.new limits.now
            (Line.Object name.now kind.now) result }
    {
        let Ok(kind) = Name::from_bytes(kind) else {
            return Err(BytesRefused::BadLine);
        };
        self.declare(name, &kind, limits)
    }

    // The same where each byte of the object's name is one of a name. One that may be declared is so at once.
    #[inline(always)]
    pub(super) fn object_by_bytes(&mut self, name: &[u8], kind: &[u8], limits: &Limits) -> Judged
        requires { AllPass is_name_byte name.now }
        ensures { TakesNames true (IsName name.now × IsName kind.now) self.old self.new limits.now
            (Line.Object name.now kind.now) result }
    {
        match self.declare_at_once(name, kind, limits) {
            Ok(Some(new)) => Ok(Accepted::Object {
                object: new.object,
                kind: new.kind,
            }),
            Ok(None) => self.object(name, kind, limits),
            Err(error) => Err(error.into()),
        }
    }

    // Declares an object that may be declared. No name is made of the kind's bytes, and one of its own only to be kept.
    #[inline(never)]
    fn declare_at_once(
        &mut self,
        name: &[u8],
        kind: &[u8],
        limits: &Limits,
    ) -> Result<Option<Declared>, NoMemory>
        requires { AllPass is_name_byte name.now }
        ensures named { IfOk result (λ told. IsSome told → IsName name.now × IsName kind.now) }
        ensures declared { IfOk result (λ told. IfSome told (λ new.
            Accepts self.old self.new limits.now (Line.Object name.now kind.now) (Accepted.Object new.object new.kind))) }
        ensures none { IfOk result (λ told. IfNone told (self.new ≡ self.old)) }
        ensures err { OnErr result (IsName name.now × IsName kind.now
            × Refuses self.old self.new limits.now (Line.Object name.now kind.now) WfRefused.NoMemory) }
    {
        let near = near_bytes(name) % NEAR_LENGTH;
        let Some(number) = self.find_kind(kind) else {
            return Ok(None);
        };
        let taken = self.objects.contains_key(NameBytes { bytes: name });
        let Ok(new) = self.judge_object(Some(number), taken, limits) else {
            return Ok(None);
        };
        let Ok(name) = Name::from_name_bytes(name) else {
            return Ok(None);
        };
        self.objects.insert(name, new.kind)?;
        Anywhere::remember(&mut self.near_objects, near, new.object);
        Ok(Some(new))
    }

    /// Accepts the line that declares an object of this kind, if it may follow the accepted lines, as `accept` of it. `BadLine` says that the object's
    /// name isn't one.
    #[inline(never)]
    pub fn declare(&mut self, name: &[u8], kind: &Name, limits: &Limits) -> Judged
        ensures { TakesNames true (IsName name.now) self.old self.new limits.now (Line.Object name.now kind.now) result }
    {
        let Ok(name) = Name::from_bytes(name) else {
            return Err(BytesRefused::BadLine);
        };
        let taken = self.objects.contains_key(&name);
        let found = self.find_kind(kind.items());
        self.put_object(name, found, taken, limits)
    }

    /// The same of an object that was not declared.
    #[inline(never)]
    pub fn declare_new(&mut self, name: Name, kind: &Name, limits: &Limits) -> Judged
        requires { (kinds : List Kind) × (lines : List LineOf) × RosterStandsFor kinds self.old lines
            × (is_among (objects_of lines) name ≡ false) }
        ensures { TakesNames true ⊤ self.old self.new limits.now (Line.Object name kind.now) result }
    {
        let found = self.find_kind(kind.items());
        self.put_object(name, found, false, limits)
    }

    // The line that declares an object, where it is told what was found of the name of its kind, and whether an object has its name.
    #[inline(always)]
    fn put_object(&mut self, name: Name, found: Option<u32>, taken: bool, limits: &Limits) -> Judged
        requires { taken ≡ is_some (get_by (same_name name) self.old.objects) }
        ensures { (kind : List ℕ) → found ≡ index_of_by (same_name kind) self.old.kinds →
            is_some found ≡ is_some (get_by (same_name kind) self.old.kinds) →
            TakesNames true ⊤ self.old self.new limits.now (Line.Object name kind) result }
    {
        let near = near_bytes(name.items()) % NEAR_LENGTH;
        let Declared { object, kind } = match self.judge_object(found, taken, limits) {
            Ok(new) => new,
            Err(cause) => return Err(BytesRefused::Cause(cause)),
        };
        self.objects.insert(name, kind)?;
        Anywhere::remember(&mut self.near_objects, near, object);
        Ok(Accepted::Object { object, kind })
    }

    #[inline(never)]
    pub(super) fn fork(&mut self, thread: &[u8], child: &[u8], limits: &Limits) -> Judged
        ensures { TakesNames true (IsName thread.now × IsName child.now) self.old self.new limits.now
            (Line.Event (LineEvent.Fork thread.now child.now)) result }
    {
        let near = near_bytes(thread) % NEAR_LENGTH;
        let Some(actor) = Anywhere::thread(self, self.near_threads[near], thread) else {
            return Err(BytesRefused::BadLine);
        };
        let Ok(child) = Name::from_bytes(child) else {
            return Err(BytesRefused::BadLine);
        };
        let pair = match self.judge_fork(actor, &child, limits) {
            Ok(pair) => pair,
            Err(cause) => return Err(BytesRefused::Cause(cause)),
        };
        self.threads.insert(child, false)?;
        self.events += 1;
        Anywhere::remember(&mut self.near_threads, near, pair.thread);
        Ok(Accepted::Event(Event::Fork {
            thread: pair.thread,
            child: pair.child,
        }))
    }

    #[inline(always)]
    pub(super) fn join<F: Finder>(&mut self, thread: &[u8], child: &[u8], limits: &Limits) -> Judged
        ensures { TakesNames F.complete (IsName thread.now × IsName child.now) self.old self.new limits.now
            (Line.Event (LineEvent.Join thread.now child.now)) result }
    {
        let near = near_bytes(thread) % NEAR_LENGTH;
        let child_near = near_bytes(child) % NEAR_LENGTH;
        let Some(actor) = F::thread(self, self.near_threads[near], thread) else {
            return Err(BytesRefused::BadLine);
        };
        let Some(awaited) = F::thread(self, self.near_awaited[child_near], child) else {
            return Err(BytesRefused::BadLine);
        };
        if let Err(cause) = self.judge_join(actor, awaited, limits) {
            return Err(BytesRefused::Cause(cause));
        }
        *self.threads.get_index_mut(awaited.number as usize).unwrap() = true;
        self.events += 1;
        F::remember(&mut self.near_awaited, child_near, awaited.number);
        F::remember(&mut self.near_threads, near, actor.number);
        Ok(Accepted::Event(Event::Join {
            thread: actor.number,
            child: awaited.number,
        }))
    }

    #[inline(always)]
    pub(super) fn acquire<F: Finder>(
        &mut self,
        thread: &[u8],
        lock: &[u8],
        limits: &Limits,
    ) -> Judged
        ensures { TakesNames F.complete (IsName thread.now × IsName lock.now) self.old self.new limits.now
            (Line.Event (LineEvent.Acquire thread.now lock.now)) result }
    {
        let near = near_bytes(thread) % NEAR_LENGTH;
        let lock_near = near_bytes(lock) % NEAR_LENGTH;
        let Some(actor) = F::thread(self, self.near_threads[near], thread) else {
            return Err(BytesRefused::BadLine);
        };
        let Some(found) = F::lock(self, self.near_locks[lock_near], lock) else {
            return Err(BytesRefused::BadLine);
        };
        let depth = match self.judge_acquire(actor, found, limits) {
            Ok(depth) => depth,
            Err(cause) => return Err(BytesRefused::Cause(cause)),
        };
        let held = Lock {
            holder: actor.number,
            depth: depth + 1,
        };
        if found.unknown {
            held.put_last(lock, &mut self.locks)?;
        } else {
            *self.locks.get_index_mut(found.number as usize).unwrap() = held;
        }
        self.events += 1;
        F::remember(&mut self.near_threads, near, actor.number);
        F::remember(&mut self.near_locks, lock_near, found.number);
        Ok(Accepted::Event(Event::Acquire {
            thread: actor.number,
            lock: found.number,
        }))
    }

    #[inline(always)]
    pub(super) fn release<F: Finder>(
        &mut self,
        thread: &[u8],
        lock: &[u8],
        limits: &Limits,
    ) -> Judged
        ensures { TakesNames F.complete (IsName thread.now × IsName lock.now) self.old self.new limits.now
            (Line.Event (LineEvent.Release thread.now lock.now)) result }
    {
        let near = near_bytes(thread) % NEAR_LENGTH;
        let lock_near = near_bytes(lock) % NEAR_LENGTH;
        let Some(actor) = F::thread(self, self.near_threads[near], thread) else {
            return Err(BytesRefused::BadLine);
        };
        let Some(found) = F::lock(self, self.near_locks[lock_near], lock) else {
            return Err(BytesRefused::BadLine);
        };
        let depth = match self.judge_release(actor, found, limits) {
            Ok(depth) => depth,
            Err(cause) => return Err(BytesRefused::Cause(cause)),
        };
        *self.locks.get_index_mut(found.number as usize).unwrap() = Lock {
            holder: actor.number,
            depth: depth - 1,
        };
        self.events += 1;
        F::remember(&mut self.near_threads, near, actor.number);
        F::remember(&mut self.near_locks, lock_near, found.number);
        Ok(Accepted::Event(Event::Release {
            thread: actor.number,
            lock: found.number,
        }))
    }

    #[inline(always)]
    pub(super) fn share<F: Finder>(&mut self, thread: &[u8], lock: &[u8], limits: &Limits) -> Judged
        ensures { TakesNames F.complete (IsName thread.now × IsName lock.now) self.old self.new limits.now
            (Line.Event (LineEvent.Share thread.now lock.now)) result }
    {
        let near = near_bytes(thread) % NEAR_LENGTH;
        let lock_near = near_bytes(lock) % NEAR_LENGTH;
        let Some(actor) = F::thread(self, self.near_threads[near], thread) else {
            return Err(BytesRefused::BadLine);
        };
        let Some(found) = F::lock(self, self.near_locks[lock_near], lock) else {
            return Err(BytesRefused::BadLine);
        };
        if let Err(cause) = self.judge_share(actor, found, limits) {
            return Err(BytesRefused::Cause(cause));
        }
        self.shares.add(found.number, actor.number)?;
        if found.unknown {
            match FREE.put_last(lock, &mut self.locks) {
                Ok(()) => {}
                Err(error) => {
                    self.shares.remove(found.number, actor.number);
                    return Err(error.into());
                }
            }
        }
        self.events += 1;
        F::remember(&mut self.near_threads, near, actor.number);
        F::remember(&mut self.near_locks, lock_near, found.number);
        Ok(Accepted::Event(Event::Share {
            thread: actor.number,
            lock: found.number,
        }))
    }

    #[inline(always)]
    pub(super) fn unshare<F: Finder>(
        &mut self,
        thread: &[u8],
        lock: &[u8],
        limits: &Limits,
    ) -> Judged
        ensures { TakesNames F.complete (IsName thread.now × IsName lock.now) self.old self.new limits.now
            (Line.Event (LineEvent.Unshare thread.now lock.now)) result }
    {
        let near = near_bytes(thread) % NEAR_LENGTH;
        let lock_near = near_bytes(lock) % NEAR_LENGTH;
        let Some(actor) = F::thread(self, self.near_threads[near], thread) else {
            return Err(BytesRefused::BadLine);
        };
        let Some(found) = F::lock(self, self.near_locks[lock_near], lock) else {
            return Err(BytesRefused::BadLine);
        };
        if let Err(cause) = self.judge_unshare(actor, found, limits) {
            return Err(BytesRefused::Cause(cause));
        }
        self.shares.remove(found.number, actor.number);
        self.events += 1;
        F::remember(&mut self.near_threads, near, actor.number);
        F::remember(&mut self.near_locks, lock_near, found.number);
        Ok(Accepted::Event(Event::Unshare {
            thread: actor.number,
            lock: found.number,
        }))
    }

    // What is found of the names of a call.
    #[inline(always)]
    fn find_called<F: Finder>(&self, thread: &[u8], object: &[u8], method: &[u8]) -> Option<Called>
        ensures thread { IfSome result (λ called. IsFoundThread self.now thread.now called.actor) }
        ensures object { IfSome result (λ called. IsFoundObject self.now object.now called.object) }
        ensures method { IfSome result
            (λ called. IsFoundMethod self.now called.object.kind method.now called.method) }
        ensures named { IsSome result → IsName thread.now × IsName object.now × IsName method.now }
        ensures none { IfNone result
            (F.complete ≡ true → ¬ (IsName thread.now × IsName object.now × IsName method.now)) }
    {
        let near = near_bytes(thread) % NEAR_LENGTH;
        let object_near = near_bytes(object) % NEAR_LENGTH;
        let actor = F::thread(self, self.near_threads[near], thread)?;
        let object = F::object(self, self.near_objects[object_near], object)?;
        let method = self.find_method(object.kind, method)?;
        Some(Called {
            near,
            object_near,
            actor,
            object,
            method,
        })
    }

    // Counts a call that may follow, with what was found of its names.
    #[inline(always)]
    fn count<F: Finder>(&mut self, called: Called)
        requires { self.old.events + 1 < 2 ^ 32 }
        ensures { (kinds : List Kind) (lines : List LineOf) (thread object method : List ℕ) (slots : List Value) →
            RosterStandsFor kinds self.old lines → RosterStandsFor kinds self.new
            (lines ++ LineOf.Event (LineEvent.Call thread object method slots) ∷ []) }
    {
        self.events += 1;
        F::remember(&mut self.near_threads, called.near, called.actor.number);
        F::remember(
            &mut self.near_objects,
            called.object_near,
            called.object.number,
        );
    }

    // Counts a call that may follow, with what was found of its names, and with these values.
    #[inline(always)]
    fn count_call<F: Finder>(&mut self, called: Called, slots: Slots) -> Accepted
        requires { self.old.events + 1 < 2 ^ 32 }
        ensures numbers { result ≡ Accepted.Event (Event.Call
            (record { thread = called.actor.number; object = called.object.number; kind = called.object.kind; method = called.method.number; slots = slots })) }
        ensures stands { (kinds : List Kind) (lines : List LineOf) (thread object method : List ℕ) →
            RosterStandsFor kinds self.old lines → RosterStandsFor kinds self.new
            (lines ++ LineOf.Event (LineEvent.Call thread object method slots) ∷ []) }
    {
        self.count::<F>(called);
        Accepted::Event(Event::Call(Call {
            thread: called.actor.number,
            object: called.object.number,
            kind: called.object.kind,
            method: called.method.number,
            slots,
        }))
    }

    // The call with these words behind its keyword. Its values are read before it is judged, which takes memory.
    #[inline(always)]
    pub(super) fn call<F: Finder>(&mut self, words: &[u8], limits: &Limits) -> Judged
        ensures { TakesCall F.complete words.now self.old self.new limits.now result }
    {
        let Some((thread, names)) = cut_at_space(words) else {
            return Err(BytesRefused::BadLine);
        };
        let Some((object, rest)) = cut_at_space(names) else {
            return Err(BytesRefused::BadLine);
        };
        let Some((method, values)) = cut_at_space(rest) else {
            return Err(BytesRefused::BadLine);
        };
        let Some(called) = self.find_called::<F>(thread, object, method) else {
            return Err(BytesRefused::BadLine);
        };
        let slots = match read_values(self.alloc, values, &self.spare) {
            Ok(slots) => slots,
            Err(LineRefused::BadLine) => return Err(BytesRefused::BadLine),
            Err(LineRefused::NoMemory) => return Err(BytesRefused::NoMemory),
        };
        let count = slots.items().len();
        if let Err(cause) = self.judge_call(
            called.actor,
            called.object,
            called.method,
            count,
            limits,
        ) {
            return Err(BytesRefused::Cause(cause));
        }
        Ok(self.count_call::<F>(called, slots))
    }

    // The call of this thread, object and method with these values. How the names are found is up to the finder. The values are copied last.
    #[inline(always)]
    pub(super) fn call_apart<F: Finder>(
        &mut self,
        thread: &[u8],
        object: &[u8],
        method: &[u8],
        slots: &Slots,
        limits: &Limits,
    ) -> Judged
        ensures { TakesNames F.complete (IsName thread.now × IsName object.now × IsName method.now) self.old self.new limits.now
            (Line.Event (LineEvent.Call thread.now object.now method.now slots.now)) result }
    {
        let Some(called) = self.find_called::<F>(thread, object, method) else {
            return Err(BytesRefused::BadLine);
        };
        let count = slots.items().len();
        if let Err(cause) = self.judge_call(
            called.actor,
            called.object,
            called.method,
            count,
            limits,
        ) {
            return Err(BytesRefused::Cause(cause));
        }
        let slots = slots.copy(self.alloc)?;
        Ok(self.count_call::<F>(called, slots))
    }
    // The method with this name of an object, which was looked up before in one kind.
    #[inline(always)]
    fn method_of(&self, object: FoundObject, name: &[u8], known: KnownMethod) -> FoundMethod
        requires { IsFoundMethod self.now known.kind name.now known.found }
        ensures { IsFoundMethod self.now object.kind name.now result }
    {
        if object.kind == known.kind {
            return known.found;
        }
        self.method_of_kind(object.kind, name)
    }

    // The same where the object is of another kind, or unknown.
    #[inline(never)]
    fn method_of_kind(&self, kind: u32, name: &[u8]) -> FoundMethod
        ensures { IsFoundMethod self.now kind name.now result }
    {
        match self.kinds.get_index(kind as usize) {
            None => FoundMethod {
                number: 0,
                unknown: true,
                slots: 0,
            },
            Some((_, methods)) => methods.find(name),
        }
    }

    /// Accepts the call of this thread, object and method, with as many values as the method has, if it may follow the accepted lines, as `accept` of
    /// it, and says what it is in numbers. The method was looked up before. How the other names are found is up to the finder: `BadLine` says that one
    /// isn't a name only where each is found. It takes no memory, since it makes no values.
    #[inline(always)]
    pub fn call_numbers<F: Finder>(
        &mut self,
        thread: &[u8],
        object: &[u8],
        method: &[u8],
        known: KnownMethod,
        limits: &Limits,
    ) -> Result<CallNumbers, BytesRefused>
        requires named { IsName method.now }
        requires known { IsFoundMethod self.old known.kind method.now known.found }
        ensures takes { (slots : List Value) → length slots ≡ known.found.slots →
            TakesNames F.complete (IsName thread.now × IsName object.now) self.old self.new limits.now
            (Line.Event (LineEvent.Call thread.now object.now method.now slots)) (with_values slots result) }
        ensures memory { IfErr result (λ refused. refused ≢ BytesRefused.NoMemory) }
    {
        let near = near_bytes(thread) % NEAR_LENGTH;
        let object_near = near_bytes(object) % NEAR_LENGTH;
        let Some(actor) = F::thread(self, self.near_threads[near], thread) else {
            return Err(BytesRefused::BadLine);
        };
        let Some(object) = F::object(self, self.near_objects[object_near], object) else {
            return Err(BytesRefused::BadLine);
        };
        let method = self.method_of(object, method, known);
        let count = usize::from(known.found.slots);
        if let Err(cause) = self.judge_call(actor, object, method, count, limits) {
            return Err(BytesRefused::Cause(cause));
        }
        self.count::<F>(Called {
            near,
            object_near,
            actor,
            object,
            method,
        });
        Ok(CallNumbers {
            thread: actor.number,
            object: object.number,
            kind: object.kind,
            method: method.number,
        })
    }

    /// Accepts the call as `call_numbers` does, of an object that was looked up before, and of a thread that is looked for anywhere.
    #[inline(always)]
    pub fn call_numbers_of(
        &mut self,
        thread: &[u8],
        name: &[u8],
        object: FoundObject,
        method: &[u8],
        known: KnownMethod,
        limits: &Limits,
    ) -> Result<CallNumbers, BytesRefused>
        requires named { IsName name.now × IsName method.now }
        requires object { IsFoundObject self.old name.now object }
        requires known { IsFoundMethod self.old known.kind method.now known.found }
        ensures takes { (slots : List Value) → length slots ≡ known.found.slots →
            TakesNames true (IsName thread.now × IsName name.now) self.old self.new limits.now
            (Line.Event (LineEvent.Call thread.now name.now method.now slots)) (with_values slots result) }
        ensures memory { IfErr result (λ refused. refused ≢ BytesRefused.NoMemory) }
    {
        let near = near_bytes(thread) % NEAR_LENGTH;
        let object_near = near_bytes(name) % NEAR_LENGTH;
        let Some(actor) = Anywhere::thread(self, self.near_threads[near], thread) else {
            return Err(BytesRefused::BadLine);
        };
        let method = self.method_of(object, method, known);
        let count = usize::from(known.found.slots);
        if let Err(cause) = self.judge_call(actor, object, method, count, limits) {
            return Err(BytesRefused::Cause(cause));
        }
        self.count::<Anywhere>(Called {
            near,
            object_near,
            actor,
            object,
            method,
        });
        Ok(CallNumbers {
            thread: actor.number,
            object: object.number,
            kind: object.kind,
            method: method.number,
        })
    }
}
