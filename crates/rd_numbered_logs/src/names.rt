//! The names that logs mention.
ghost use Rattle.std.specs.Prelude.{◌≡◌, ◌∷◌, ◌++◌, ◌<◌, [], ℕ, Ok, None, Some, true, false, IfOk, IfSome, OnOk, length, map, not};
ghost use Rattle.rd_logs.specs.WholeLogs.{record_of};
ghost use Rattle.rd_numbered_logs.specs.LogNames.{LogNames, are_new, declared_names, have_own_names, begun_names, log_threads, mentioning, mentioning_all, with_name};
ghost use Rattle.rd_numbered_logs.specs.Numbering.{AreSteps, IsFrontOf, IsStepAmong, step_under};
ghost use Rattle.rd_rules.specs.MayFollow.{is_among, place};

use indexmap::IndexSet;
use rd_base::{Name, NoMemory};
use rd_event::LineEvent;
use rd_logs::{LogEvent, LogObject, ReadLog};
use rd_tables::NameBytes;
use rd_turns::Step;
use std::alloc::Global;
use std::marker::Model;

/// The names of threads, locks and objects, each once, by which they are numbered from 0.
#[derive(Drop)]
pub(crate) struct Names {
    threads: IndexSet<Name>,
    locks: IndexSet<Name>,
    objects: IndexSet<Name>,
}

impl Model for Names {
    ghost use Rattle.rd_numbered_logs.specs.LogNames.{LogNames};

    ghost Value = { LogNames };

    ghost view = { λ n. record { threads = n.threads.keys; locks = n.locks.keys; objects = n.objects.keys } };
}

// Puts a name last. Is it a new one?
fn add_new(names: &mut IndexSet<Name>, name: &Name) -> Result<bool, NoMemory>
    ensures new { IfOk result (λ new. new ≡ not (is_among names.old.keys name.now)) }
    ensures names { IfOk result (λ new. new ≡ true → names.new.keys ≡ names.old.keys ++ name.now ∷ []) }
{
    Ok(names.insert(name.copy())?)
}

// The number of a name, which comes last if it is new. Numbers are below 2^32; where they don't suffice, memory wouldn't either.
fn number_of(names: &mut IndexSet<Name>, name: &Name) -> Result<u32, NoMemory>
    ensures names { OnOk result (names.new.keys ≡ with_name names.old.keys name.now) }
    ensures number { IfOk result (λ number. number ≡ place names.new.keys name.now) }
    ensures within { IfOk result (λ number. number < length names.new.keys) }
{
    let key = NameBytes {
        bytes: name.items(),
    };
    let place = match names.get_index_of(key) {
        Some(place) => place,
        None => names.insert_full(name.copy())?.0,
    };
    match u32::try_from(place) {
        Ok(number) => Ok(number),
        Err(_) => Err(NoMemory),
    }
}

// Puts the names of objects last. Is each a new one?
fn add_objects(names: &mut IndexSet<Name>, objects: &[LogObject]) -> Result<bool, NoMemory>
    ensures new { IfOk result (λ new. new ≡ are_new names.old.keys (map (λ object. object.name) objects.now)) }
    ensures names { IfOk result (λ new. new ≡ true → names.new.keys ≡ names.old.keys ++ map (λ object. object.name) objects.now) }
{
    for object in objects {
        if !add_new(names, &object.name)? {
            return Ok(false);
        }
    }
    Ok(true)
}

// The threads of the logs, if no two are of one.
fn own_threads(alloc: Global, logs: &[ReadLog]) -> Result<Option<IndexSet<Name>>, NoMemory>
    ensures some { IfOk result (λ made. IfSome made (λ names. (names.keys ≡ log_threads (map record_of logs.now)) × (are_new [] (log_threads (map record_of logs.now)) ≡ true))) }
    ensures none { result ≡ Ok None → are_new [] (log_threads (map record_of logs.now)) ≡ false }
{
    let mut names = IndexSet::new(alloc);
    for log in logs {
        if !add_new(&mut names, &log.thread)? {
            return Ok(None);
        }
    }
    Ok(Some(names))
}

// The objects that the logs declare, if none is declared twice.
fn own_objects(alloc: Global, logs: &[ReadLog]) -> Result<Option<IndexSet<Name>>, NoMemory>
    ensures some { IfOk result (λ made. IfSome made (λ names. (names.keys ≡ declared_names (map record_of logs.now)) × (are_new [] (declared_names (map record_of logs.now)) ≡ true))) }
    ensures none { result ≡ Ok None → are_new [] (declared_names (map record_of logs.now)) ≡ false }
{
    let mut names = IndexSet::new(alloc);
    for log in logs {
        if !add_objects(&mut names, log.objects.as_slice())? {
            return Ok(None);
        }
    }
    Ok(Some(names))
}

impl Names {
    /// The names of the logs' threads and of the objects that they declare, if no two logs are of one thread and no object is declared twice.
    pub(crate) fn of(alloc: Global, logs: &[ReadLog]) -> Result<Option<Names>, NoMemory>
        ensures some { IfOk result (λ made. IfSome made (λ names. (names ≡ begun_names (map record_of logs.now)) × (have_own_names (map record_of logs.now) ≡ true))) }
        ensures none { result ≡ Ok None → have_own_names (map record_of logs.now) ≡ false }
    {
        let Some(threads) = own_threads(alloc, logs)? else {
            return Ok(None);
        };
        let Some(objects) = own_objects(alloc, logs)? else {
            return Ok(None);
        };
        Ok(Some(Names {
            threads,
            locks: IndexSet::new(alloc),
            objects,
        }))
    }

    // The step of an event of the thread with this number.
    fn step(&mut self, thread: u32, noted: &LogEvent) -> Result<Step, NoMemory>
        requires { thread < length self.old.threads }
        ensures names { OnOk result (self.new ≡ mentioning self.old noted.now.event) }
        ensures step { IfOk result (λ step. (all : LogNames) → IsFrontOf self.new all → step ≡ step_under all thread noted.now) }
        ensures among { IfOk result (IsStepAmong self.new) }
    {
        match &noted.event {
            LineEvent::Fork { child, .. } => Ok(Step::Fork(number_of(&mut self.threads, child)?)),
            LineEvent::Join { child, .. } => Ok(Step::Join(number_of(&mut self.threads, child)?)),
            LineEvent::Acquire { lock, .. } => {
                let number = noted.number;
                let lock = number_of(&mut self.locks, lock)?;
                Ok(Step::Acquire { lock, number })
            }
            LineEvent::Release { lock, .. } => Ok(Step::Release(number_of(&mut self.locks, lock)?)),
            LineEvent::Call { object, .. } => Ok(Step::Call(number_of(&mut self.objects, object)?)),
            _ => Ok(Step::Fork(thread)),
        }
    }

    /// The steps of the events of the thread with this number.
    pub(crate) fn steps(
        &mut self,
        alloc: Global,
        thread: u32,
        events: &[LogEvent],
    ) -> Result<Vec<Step>, NoMemory>
        requires { thread < length self.old.threads }
        ensures names { OnOk result (self.new ≡ mentioning_all self.old events.now) }
        ensures steps { IfOk result (λ steps. AreSteps self.new thread events.now steps.items) }
    {
        let mut steps = Vec::with_capacity(alloc, events.len())?;
        for noted in events {
            steps.push(self.step(thread, noted)?)?;
        }
        Ok(steps)
    }

    /// How many threads have a name here.
    pub(crate) fn thread_count(&self) -> usize
        ensures { result ≡ length self.now.threads }
    {
        self.threads.len()
    }

    /// How many locks.
    pub(crate) fn lock_count(&self) -> usize
        ensures { result ≡ length self.now.locks }
    {
        self.locks.len()
    }

    /// How many objects.
    pub(crate) fn object_count(&self) -> usize
        ensures { result ≡ length self.now.objects }
    {
        self.objects.len()
    }
}
