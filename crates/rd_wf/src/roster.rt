//! A roster of the accepted lines of a trace.
ghost use Rattle.std.specs.Prelude.{◌<◌, ◌^◌};
ghost use Rattle.indexmap.specs.IndexMap.{index_map_len};

mod finding;
mod judge;
mod keywords;
mod lines;

pub use finding::{Anywhere, Finder, Near};
use indexmap::IndexMap;
pub use keywords::{
    AcquireLine, CallLine, ForkLine, JoinLine, Keyword, ObjectLine, ReleaseLine, ShareLine,
    ThreadLine, UnshareLine,
};
pub use lines::{CallNumbers, Judged, KnownMethod};
use rd_base::{Limits, Name, NoMemory, Slots, SpareList};
use rd_ecl::Spec;
use rd_event::{Line, LineEvent};
use rd_rules::{Accepted, BytesRefused, WfCause, WfRefused};
use rd_tables::{Lock, Methods, NEAR_LENGTH, Shares};
use std::alloc::Global;
use std::cell::Cell;

/// The accepted lines of a trace, as names with numbers, flags and counts. It says of the next line
/// whether it may follow.
#[derive(Drop)]
pub struct Roster {
    alloc: Global,
    kinds: IndexMap<Name, Methods>,
    /// the version of the header, if there was one
    header: Option<u8>,
    events: u32,
    /// each with whether it was joined
    threads: IndexMap<Name, bool>,
    locks: IndexMap<Name, Lock>,
    /// by the numbers of locks and threads
    shares: Shares,
    /// each with the number of its kind
    objects: IndexMap<Name, u32>,
    /// numbers of threads, locks and objects, each where `near_bytes` puts its name, which is looked for there first
    near_threads: [u32; NEAR_LENGTH],
    /// those of threads that joins wait for, which else would stand where the joining ones do
    near_awaited: [u32; NEAR_LENGTH],
    near_locks: [u32; NEAR_LENGTH],
    near_objects: [u32; NEAR_LENGTH],
    /// the memory of the last call's values
    spare: Cell<SpareList>,
    ghost few_kinds: { index_map_len kinds < 2 ^ 32 },
    ghost few_threads: { index_map_len threads < 2 ^ 32 },
    ghost few_locks: { index_map_len locks < 2 ^ 32 },
    ghost few_objects: { index_map_len objects < 2 ^ 32 },
}

impl Roster {
    ghost use Rattle.std.specs.Prelude.{◌≡◌, ◌≢◌, ◌<◌, ◌≤◌, List, [], ◌∷◌, ◌++◌, ⊤, true, IfOk, IfErr, OnOk, OnErr, length, slice_get};
    ghost use Rattle.rd_base.specs.Limits.{AreUsable};
    ghost use Rattle.rd_event.specs.Items.{LineInRange};
    ghost use Rattle.rd_event.specs.declared.items.Line.{Line as LineOf};
    ghost use Rattle.rd_rules.specs.Events.{AcceptedInRange};
    ghost use Rattle.rd_rules.specs.MayFollow.{IsBrokenFirst, MayFollow, first_broken, accepted_of, threads_of, locks_of, objects_of, headers, events, version_of, TakesMemory};
    ghost use Rattle.std.specs.List.{AllPairs};
    ghost use Rattle.rd_ecl.specs.Kinds.{Kind, kind_names, kinds_of};
    ghost use Rattle.rd_wf.specs.Roster.{RosterStandsFor, TakesBytes, TakesNames, names_in, object_names_in, thread_count, lock_count, object_count};

    /// The roster of no lines. It keeps the names of the kinds, which differ, and of their methods, and how many slots each
    /// method has. A kind's number is its place in the specification.
    pub fn new(alloc: Global, spec: &Spec) -> Result<Roster, NoMemory>
        requires few { length spec.now < 2 ^ 32 }
        requires different { AllPairs (λ x y. x ≢ y) (kind_names (kinds_of spec.now)) }
        ensures { IfOk result (λ roster. RosterStandsFor (kinds_of spec.now) roster []) }
    {
        let mut kinds = IndexMap::new(alloc);
        for kind in spec.kinds() {
            kinds.insert(kind.name().copy(), Methods::of(alloc, kind)?)?;
        }
        Ok(Roster {
            alloc,
            kinds,
            header: None,
            events: 0,
            threads: IndexMap::new(alloc),
            locks: IndexMap::new(alloc),
            shares: Shares::new(alloc),
            objects: IndexMap::new(alloc),
            near_threads: [0; NEAR_LENGTH],
            near_awaited: [0; NEAR_LENGTH],
            near_locks: [0; NEAR_LENGTH],
            near_objects: [0; NEAR_LENGTH],
            spare: Cell::new(SpareList::new(alloc)),
        })
    }

    #[inline(always)]
    fn take(&mut self, line: &Line, limits: &Limits) -> Judged
        ensures { TakesNames true ⊤ self.old self.new limits.now line.now result }
    {
        match line {
            Line::Skip => Ok(Accepted::Nothing),
            Line::Header { version } => self.header(*version, limits),
            Line::Thread(name) => self.root(name.items(), limits),
            Line::Object { name, kind } => self.object(name.items(), kind.items(), limits),
            Line::Event(LineEvent::Fork { thread, child }) => self.fork(
                thread.items(),
                child.items(),
                limits,
            ),
            Line::Event(LineEvent::Join { thread, child }) => self.join::<Anywhere>(
                thread.items(),
                child.items(),
                limits,
            ),
            Line::Event(LineEvent::Acquire { thread, lock }) => self.acquire::<Anywhere>(
                thread.items(),
                lock.items(),
                limits,
            ),
            Line::Event(LineEvent::Release { thread, lock }) => self.release::<Anywhere>(
                thread.items(),
                lock.items(),
                limits,
            ),
            Line::Event(LineEvent::Share { thread, lock }) => self.share::<Anywhere>(
                thread.items(),
                lock.items(),
                limits,
            ),
            Line::Event(LineEvent::Unshare { thread, lock }) => self.unshare::<Anywhere>(
                thread.items(),
                lock.items(),
                limits,
            ),
            Line::Event(
                LineEvent::Call {
                    thread,
                    object,
                    method,
                    slots,
                },
            ) => self.call_named(thread, object, method, slots, limits),
        }
    }

    // A call, whose names are found anywhere.
    #[inline(never)]
    fn call_named(
        &mut self,
        thread: &Name,
        object: &Name,
        method: &Name,
        slots: &Slots,
        limits: &Limits,
    ) -> Judged
        ensures { TakesNames true ⊤ self.old self.new limits.now
            (LineOf.Event (LineEvent.Call thread.now object.now method.now slots.now)) result }
    {
        self.call_apart::<Anywhere>(
            thread.items(),
            object.items(),
            method.items(),
            slots,
            limits,
        )
    }

    /// Accepts the next line, if it may follow the accepted ones, and says what it is in numbers, each in its range. Else it refuses the
    /// line, by the cause that names the first rule that the line breaks, and nothing changes. Want of memory comes only for a line
    /// that may follow, and that begins a thread, acquires a lock for the first time, shares a lock, declares an object or is a call
    /// with slots. The roster then stands for the same lines as before.
    #[inline(always)]
    pub fn accept(&mut self, line: &Line, limits: &Limits) -> Result<Accepted, WfRefused>
        requires { AreUsable limits.now }

        // the line is accepted, and may follow
        ensures ok { IfOk result
            (λ accepted. (kinds : List Kind) (lines : List LineOf) →
            RosterStandsFor kinds self.old lines →
            (first_broken kinds limits.now lines line.now ≡ None)
            × (accepted ≡ accepted_of kinds lines line.now)
            × RosterStandsFor kinds self.new (lines ++ line.now ∷ [])) }
        ensures follows { OnOk result
            ((kinds : List Kind) (lines : List LineOf) → RosterStandsFor kinds self.old lines →
            MayFollow kinds limits.now lines line.now) }
        ensures few { OnOk result
            ((kinds : List Kind) (lines : List LineOf) → RosterStandsFor kinds self.old lines →
            length (threads_of (lines ++ line.now ∷ [])) ≤ 4294967295) }
        ensures range { IfOk result
            (λ accepted. (kinds : List Kind) (lines : List LineOf) →
            RosterStandsFor kinds self.old lines → LineInRange line.now → AcceptedInRange accepted) }

        // or it is refused with its cause, and nothing changes
        ensures refused { IfErr result
            (λ e. (kinds : List Kind) (lines : List LineOf) → RosterStandsFor kinds self.old lines →
            (cause : WfCause) → e ≡ WfRefused.Cause cause →
            (first_broken kinds limits.now lines line.now ≡ Some cause)
            × IsBrokenFirst kinds limits.now lines line.now cause) }
        ensures same { IfErr result
            (λ e. (cause : WfCause) → e ≡ WfRefused.Cause cause → self.new ≡ self.old) }

        // or memory runs out; the roster stands for the same lines
        ensures memory { IfErr result
            (λ e. e ≡ WfRefused.NoMemory → (kinds : List Kind) (lines : List LineOf) →
            RosterStandsFor kinds self.old lines →
            MayFollow kinds limits.now lines line.now × TakesMemory lines line.now) }
        ensures err { OnErr result
            ((kinds : List Kind) (lines : List LineOf) → RosterStandsFor kinds self.old lines →
            RosterStandsFor kinds self.new lines) }
    {
        match self.take(line, limits) {
            Ok(accepted) => Ok(accepted),
            Err(BytesRefused::BadLine) => unreachable!(),
            Err(BytesRefused::Cause(cause)) => Err(WfRefused::Cause(cause)),
            Err(BytesRefused::NoMemory) => Err(WfRefused::NoMemory),
        }
    }

    /// The law of skipped lines: each may follow, and a roster stands for one more of them as it is.
    pub fn law_of_skipped_lines(&self)
        ensures follows { (kinds : List Kind) (limits : Limits) (lines : List LineOf) →
            first_broken kinds limits lines LineOf.Skip ≡ None }
        ensures stands { (kinds : List Kind) (lines : List LineOf) →
            RosterStandsFor kinds self.now lines →
            RosterStandsFor kinds self.now (lines ++ LineOf.Skip ∷ []) }
        ensures few { (kinds : List Kind) (lines : List LineOf) → RosterStandsFor kinds self.now lines →
            length (threads_of (lines ++ LineOf.Skip ∷ [])) ≤ 4294967295 }
    {}

    /// Whether the lines may end here: a trace has a header. It takes no memory.
    pub fn finish(&self) -> Result<(), WfCause>
        ensures ok { OnOk result
            ((kinds : List Kind) (lines : List LineOf) → RosterStandsFor kinds self.now lines →
            0 < headers lines) }
        ensures err { IfErr result
            (λ e. (e ≡ WfCause.HeaderFirst)
            × ((kinds : List Kind) (lines : List LineOf) → RosterStandsFor kinds self.now lines →
            headers lines ≡ 0)) }
    {
        if self.header.is_some() {
            Ok(())
        } else {
            Err(WfCause::HeaderFirst)
        }
    }

    /// The version that the lines are of: that of their header, 0 where there is none. It takes no memory.
    pub fn version(&self) -> u8
        ensures { (kinds : List Kind) (lines : List LineOf) → RosterStandsFor kinds self.now lines →
            result ≡ version_of lines }
    {
        self.header.unwrap_or(0)
    }

    /// The name of the thread with this number, which is below `threads()`. It takes no memory.
    pub fn thread_name(&self, thread: u32) -> &Name
        requires { thread < thread_count self.now }
        ensures name { slice_get (names_in self.now) thread ≡ Some result.now }
        ensures history { (kinds : List Kind) (lines : List LineOf) →
            RosterStandsFor kinds self.now lines → slice_get (threads_of lines) thread ≡ Some result.now }
    {
        self.threads.get_index(thread as usize).unwrap().0
    }

    /// The name of the object with this number, which is below `objects()`. It takes no memory.
    pub fn object_name(&self, object: u32) -> &Name
        requires { object < object_count self.now }
        ensures name { slice_get (object_names_in self.now) object ≡ Some result.now }
        ensures history { (kinds : List Kind) (lines : List LineOf) →
            RosterStandsFor kinds self.now lines → slice_get (objects_of lines) object ≡ Some result.now }
    {
        self.objects.get_index(object as usize).unwrap().0
    }

    /// The name of the lock with this number, which is below `locks()`. It takes no memory.
    pub fn lock_name(&self, lock: u32) -> &Name
        requires { lock < lock_count self.now }
        ensures { (kinds : List Kind) (lines : List LineOf) → RosterStandsFor kinds self.now lines →
            slice_get (locks_of lines) lock ≡ Some result.now }
    {
        self.locks.get_index(lock as usize).unwrap().0
    }

    /// How many threads were begun. It takes no memory.
    pub fn threads(&self) -> u32
        ensures count { result ≡ thread_count self.now }
        ensures history { (kinds : List Kind) (lines : List LineOf) →
            RosterStandsFor kinds self.now lines → result ≡ length (threads_of lines) }
    {
        self.threads.len() as u32
    }

    /// How many locks were acquired or shared, each counted once. It takes no memory.
    pub fn locks(&self) -> u32
        ensures count { result ≡ lock_count self.now }
        ensures history { (kinds : List Kind) (lines : List LineOf) →
            RosterStandsFor kinds self.now lines → result ≡ length (locks_of lines) }
    {
        self.locks.len() as u32
    }

    /// How many objects were declared. It takes no memory.
    pub fn objects(&self) -> u32
        ensures count { result ≡ object_count self.now }
        ensures history { (kinds : List Kind) (lines : List LineOf) →
            RosterStandsFor kinds self.now lines → result ≡ length (objects_of lines) }
    {
        self.objects.len() as u32
    }

    /// How many events were accepted. It takes no memory.
    pub fn events(&self) -> u32
        ensures { (kinds : List Kind) (lines : List LineOf) → RosterStandsFor kinds self.now lines →
            result ≡ events lines }
    {
        self.events
    }
}
