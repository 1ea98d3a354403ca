//! The turns.
ghost use Rattle.std.specs.Prelude.{◌≡◌, ◌⊎◌, ◌<◌, ℕ, length, IfNone, IfOk, IfSome, IsTrue, None, OnOk, Some, slice_get, slice_index};
ghost use Rattle.std.specs.BTreeSet.{contains};
ghost use Rattle.std.specs.Ordering.{nat_cmp};
ghost use Rattle.rd_turns.specs.NumberedLogs.{AreInRange, IsStepInRange, logs_by_numbers};
ghost use Rattle.rd_turns.specs.Standing.{CanPlace, FitsLogs, next_step_of, placed_by};
ghost use Rattle.rd_turns.specs.Waiting.{CanWake, HasSlots, IsListed, IsWokenBy};
ghost use Rattle.rd_turns.specs.declared.logs.ThreadSteps.{ThreadSteps as StepsOf};
ghost use Rattle.rd_weavings.specs.Weavings.{HaveOwnThreads};
ghost use Rattle.rd_weavings.specs.WeaveTests.{woven_first};

use crate::logs::{NumberedLogs, Step};
use crate::tables::Tables;
use crate::waiting::Waiting;
use rd_base::NoMemory;
use rd_weavings::Spot;
use std::alloc::Global;
use std::collections::BTreeSet;

// All logs.
fn all_ready(alloc: Global, logs: &NumberedLogs) -> Result<BTreeSet<u32>, NoMemory>
    requires { AreInRange logs.now }
    ensures { IfOk result (λ ready. (l : ℕ) → l < length logs.now.logs.items → IsTrue (contains nat_cmp ready l)) }
{
    let mut ready = BTreeSet::new(alloc);
    for log in 0..logs.logs.len() as u32 {
        ready.insert(log)?;
    }
    Ok(ready)
}

// The least log that may give its next event, with it. Lesser ones that may not are taken out.
fn next_giver(
    tables: &Tables,
    logs: &NumberedLogs,
    ready: &mut BTreeSet<u32>,
) -> Option<(u32, Step)>
    requires range { AreInRange logs.now }
    requires tables { FitsLogs logs.now tables.now }
    ensures some { IfSome result (λ next. (next_step_of logs.now tables.now next.0 ≡ Some next.1) × IsTrue (contains nat_cmp ready.new next.0)) }
    ensures first { IfSome result (λ next. (l : ℕ) → l < next.0 → IsTrue (contains nat_cmp ready.old l) → next_step_of logs.now tables.now l ≡ None) }
    ensures kept { IfSome result (λ next. (l : ℕ) → IsTrue (contains nat_cmp ready.old l) → IsTrue (contains nat_cmp ready.new l) ⊎ (next_step_of logs.now tables.now l ≡ None)) }
    ensures none { IfNone result ((l : ℕ) → IsTrue (contains nat_cmp ready.old l) → next_step_of logs.now tables.now l ≡ None) }
{
    while let Some(first) = ready.first() {
        let log = *first;
        if let Some(step) = tables.next_step(logs, log) {
            return Some((log, step));
        }
        let _first = ready.pop_first();
    }
    None
}

// Makes those ready that wait for what the step did: to begin, or to acquire the lock that it freed.
fn wake_step(
    tables: &Tables,
    waiting: &Waiting,
    step: &Step,
    ready: &mut BTreeSet<u32>,
) -> Result<(), NoMemory>
    requires { CanWake waiting.now tables.now step.now }
    ensures kept { OnOk result ((l : ℕ) → IsTrue (contains nat_cmp ready.old l) → IsTrue (contains nat_cmp ready.new l)) }
    ensures woken { OnOk result ((l : ℕ) → IsWokenBy waiting.now tables.now step.now l → IsTrue (contains nat_cmp ready.new l)) }
{
    match step {
        Step::Fork(child) => waiting.wake_thread(*child, ready),
        Step::Release(lock) => {
            if let Some(number) = tables.next_acquire(*lock) {
                waiting.wake_acquire(*lock, number, ready)?;
            }
            Ok(())
        }
        _ => Ok(()),
    }
}

// Places the log's next event, and makes those ready that wait for it.
fn give(
    tables: &mut Tables,
    waiting: &Waiting,
    logs: &NumberedLogs,
    log: u32,
    step: &Step,
    ready: &mut BTreeSet<u32>,
) -> Result<(), NoMemory>
    requires range { AreInRange logs.now }
    requires next { CanPlace logs.now tables.old log step.now }
    requires wake { IsStepInRange logs.now step.now }
    requires slots { HasSlots logs.now waiting.now }
    ensures tables { (steps : StepsOf) → slice_get logs.now.logs.items log ≡ Some steps → tables.new ≡ placed_by tables.old log steps step.now }
    ensures kept { OnOk result ((l : ℕ) → IsTrue (contains nat_cmp ready.old l) → IsTrue (contains nat_cmp ready.new l)) }
    ensures woken { OnOk result ((l : ℕ) → IsWokenBy waiting.now tables.new step.now l → IsTrue (contains nat_cmp ready.new l)) }
    ensures left { OnOk result ((l : ℕ) (steps : StepsOf) → slice_get logs.now.logs.items log ≡ Some steps → slice_index tables.new.given log ≡ length steps.steps.items
        → IsListed waiting.now.threads steps.thread l → IsTrue (contains nat_cmp ready.new l)) }
{
    let used_up = tables.place(logs, log, step);
    wake_step(tables, waiting, step, ready)?;
    if used_up {
        waiting.wake_thread(logs.logs[log as usize].thread, ready)?;
    }
    Ok(())
}

/// Places the events of the logs one by one: at each turn the first log that may gives its next event, until none may. It takes time that is linear in
/// the events and logs, but for the logarithm of how many logs are ready: an event wakes those alone that wait for it.
pub fn take_turns(alloc: Global, logs: &NumberedLogs) -> Result<Vec<Spot>, NoMemory>
    requires range { AreInRange logs.now }
    requires own { HaveOwnThreads (logs_by_numbers logs.now) }
    ensures { IfOk result (λ spots. spots.items ≡ woven_first (logs_by_numbers logs.now)) }
{
    let waiting = Waiting::of(alloc, logs)?;
    let mut tables = Tables::new(alloc, logs)?;
    let mut ready = all_ready(alloc, logs)?;
    let mut spots = Vec::new(alloc);
    while let Some((log, step)) = next_giver(&tables, logs, &mut ready) {
        spots.push(Spot {
            log,
            place: tables.given(log),
        })?;
        give(&mut tables, &waiting, logs, log, &step, &mut ready)?;
    }
    Ok(spots)
}
