//! Logs by numbers.
ghost use Rattle.std.specs.Prelude.{◌≡◌, ◌==◌, ◌&&◌, ◌||◌, ◌<◌, ◌≤◌, ◌^◌, ℕ, List, Ok, None, Some, false, true, not, nat_lt, IfOk, IfSome, OnOk, length, map, slice_get, slice_index_or};
ghost use Rattle.std.specs.List.{list_any};
ghost use Rattle.rd_ecl.specs.Kinds.{Kind};
ghost use Rattle.rd_logs.specs.WholeLogs.{record_of};
ghost use Rattle.rd_numbered_logs.specs.LogNames.{have_own_names, mentioning_all, mentioning_in};
ghost use Rattle.rd_numbered_logs.specs.LogsUnder.{is_root_of, logs_under};
ghost use Rattle.rd_numbered_logs.specs.Numbering.{AreNumberedLogs, IsNumberedLog, step_forks};
ghost use Rattle.rd_turns.specs.NumberedLogs.{AreInRange, logs_by_numbers, thread_log};
ghost use Rattle.rd_turns.specs.declared.logs.ThreadSteps.{ThreadSteps as StepsOf};
ghost use Rattle.rd_weavings.specs.Alike.{AreAlike};
ghost use Rattle.rd_weavings.specs.Weavings.{HaveOwnThreads};

use crate::names::Names;
use rd_base::NoMemory;
use rd_logs::ReadLog;
use rd_turns::{NumberedLogs, Step, ThreadSteps};
use std::alloc::Global;

// The log of the thread with this number, by numbers.
fn number_log(
    alloc: Global,
    names: &mut Names,
    thread: u32,
    log: &ReadLog,
) -> Result<ThreadSteps, NoMemory>
    requires { thread < length names.old.threads }
    ensures names { OnOk result (names.new ≡ mentioning_all names.old (record_of log.now).events) }
    ensures log { IfOk result (IsNumberedLog names.new thread (record_of log.now)) }
{
    let steps = names.steps(alloc, thread, log.events.as_slice())?;
    match u32::try_from(steps.len()) {
        Ok(_) => Ok(ThreadSteps { thread, steps }),
        Err(_) => Err(NoMemory),
    }
}

// The logs by numbers. Each thread's number is that of its log.
fn number_each(
    alloc: Global,
    names: &mut Names,
    logs: &[ReadLog],
) -> Result<Vec<ThreadSteps>, NoMemory>
    requires { length logs.now ≤ length names.old.threads }
    ensures names { OnOk result (names.new ≡ mentioning_in names.old (map record_of logs.now)) }
    ensures logs { IfOk result (λ numbered. AreNumberedLogs names.new (map record_of logs.now) numbered.items) }
    ensures few { IfOk result (λ numbered. length numbered.items < 2 ^ 32) }
{
    let Ok(count) = u32::try_from(logs.len()) else {
        return Err(NoMemory);
    };
    let mut numbered = Vec::with_capacity(alloc, logs.len())?;
    for thread in 0..count {
        let log = number_log(alloc, names, thread, &logs[thread as usize])?;
        numbered.push(log)?;
    }
    Ok(numbered)
}

// Marks the threads of the logs.
fn mark_threads(roots: &mut [bool], logs: &[ThreadSteps])
    requires { (l : ℕ) (log : StepsOf) → slice_get logs.now l ≡ Some log → log.thread < length roots.old }
    ensures marks { (thread : ℕ) → slice_index_or roots.new thread false ≡ (slice_index_or roots.old thread false || list_any (λ log. log.thread == thread) logs.now) }
    ensures count { length roots.new ≡ length roots.old }
{
    for log in logs {
        roots[log.thread as usize] = true;
    }
}

// Takes the mark of the thread that this step forks.
#[tactic(auto, using(crate::proofs::MarkLemmas::unmarked, crate::proofs::MarkLemmas::unmarked_past))]
fn unmark(roots: &mut [bool], step: &Step)
    ensures marks { (thread : ℕ) → slice_index_or roots.new thread false ≡ (slice_index_or roots.old thread false && not (step_forks thread step.now)) }
    ensures count { length roots.new ≡ length roots.old }
{
    if let Step::Fork(child) = step {
        let child = *child as usize;
        if child < roots.len() {
            roots[child] = false;
        }
    }
}

// And of those that these steps fork.
fn unmark_forked(roots: &mut [bool], steps: &[Step])
    ensures marks { (thread : ℕ) → slice_index_or roots.new thread false ≡ (slice_index_or roots.old thread false && not (list_any (step_forks thread) steps.now)) }
    ensures count { length roots.new ≡ length roots.old }
{
    for step in steps {
        unmark(roots, step);
    }
}

// And of those that the logs fork.
fn unmark_all(roots: &mut [bool], logs: &[ThreadSteps])
    ensures marks { (thread : ℕ) → slice_index_or roots.new thread false
        ≡ (slice_index_or roots.old thread false && not (list_any (λ log. list_any (step_forks thread) log.steps.items) logs.now)) }
    ensures count { length roots.new ≡ length roots.old }
{
    for log in logs {
        unmark_forked(roots, log.steps.as_slice());
    }
}

// Which of so many threads have a log, and are forked by none.
fn roots_of(alloc: Global, logs: &[ThreadSteps], count: usize) -> Result<Vec<bool>, NoMemory>
    requires { (l : ℕ) (log : StepsOf) → slice_get logs.now l ≡ Some log → log.thread < count }
    ensures roots { IfOk result (λ roots. (thread : ℕ) → slice_index_or roots.items thread false ≡ is_root_of (map thread_log logs.now) thread) }
    ensures count { IfOk result (λ roots. length roots.items ≡ count) }
{
    let mut roots = vec![in alloc; false; count]?;
    mark_threads(&mut roots, logs);
    unmark_all(&mut roots, logs);
    Ok(roots)
}

// Marks the first ones of so many objects, which are declared.
fn declared_of(alloc: Global, declared: usize, count: usize) -> Result<Vec<bool>, NoMemory>
    requires { declared ≤ count }
    ensures marks { IfOk result (λ marks. (object : ℕ) → slice_index_or marks.items object false ≡ nat_lt object declared) }
    ensures count { IfOk result (λ marks. length marks.items ≡ count) }
{
    let mut marks = Vec::with_capacity(alloc, count)?;
    for object in 0..count {
        marks.push(object < declared)?;
    }
    Ok(marks)
}

/// The logs by numbers, if no two are of one thread and no object is declared twice. Want of memory is told too where numbers of 32 bits don't suffice for
/// the logs, their events or the names.
pub fn number_logs(alloc: Global, logs: &[ReadLog]) -> Result<Option<NumberedLogs>, NoMemory>
    // there is an answer where each log has a thread of its own, and each object one line that declares it
    ensures own { IfOk result (λ made. IfSome made (λ numbered. have_own_names (map record_of logs.now) ≡ true)) }
    ensures none { result ≡ Ok None → have_own_names (map record_of logs.now) ≡ false }

    // they say what the logs say, under any specification
    ensures alike { IfOk result (λ made. IfSome made (λ numbered. (kinds : List Kind) → AreAlike (logs_by_numbers numbered) (logs_under kinds (map record_of logs.now)))) }

    // and turns may be taken by them
    ensures range { IfOk result (λ made. IfSome made AreInRange) }
    ensures threads { IfOk result (λ made. IfSome made (λ numbered. HaveOwnThreads (logs_by_numbers numbered))) }
{
    let Some(mut names) = Names::of(alloc, logs)? else {
        return Ok(None);
    };
    let declared = names.object_count();
    let numbered = number_each(alloc, &mut names, logs)?;
    let Ok(locks) = u32::try_from(names.lock_count()) else {
        return Err(NoMemory);
    };
    Ok(Some(NumberedLogs {
        roots: roots_of(alloc, &numbered, names.thread_count())?,
        declared: declared_of(alloc, declared, names.object_count())?,
        logs: numbered,
        locks,
    }))
}
