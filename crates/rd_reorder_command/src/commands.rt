//! The command `reorder`.
ghost use Rattle.rd_base.specs.Limits.{AreUsable};
ghost use Rattle.rd_reorder_command.specs.Meanings.{reorder_meaning};
ghost use Rattle.rd_walk.specs.Meanings.{Ran, seen};
ghost use Rattle.rd_walk.specs.Output.{ended_status};

use crate::reordering::Reordering;
use rd_base::{Limits, Steps, Word};
use rd_io::{Inputs, Sink};
use rd_kinds::shipped;
use rd_walk::{Ended, Halt, TraceLines, Walker, report_trace};
use std::alloc::Global;
use std::mem;
use std::sync::ledger::Ledger;

/// `reorder TRACE NUMBER`: writes the trace in the order of its events that the number picks, or why a line of it is refused, or that it
/// can't be opened or read.
pub fn reorder<I: Inputs, S: Sink, L: Ledger>(
    alloc: Global,
    trace: &Word,
    number: u64,
    inputs: &mut I,
    out: &mut S,
    limits: &Limits,
    steps: &mut Steps<L>,
) -> Result<Ended, Halt>
    requires { AreUsable limits.now }
    ensures { Ran (reorder_meaning trace.now number) limits.now
        (seen I.told I.faults inputs.old S.written S.faults S.at_fault out.old steps.old)
        (seen I.told I.faults inputs.new S.written S.faults S.at_fault out.new steps.new)
        (ended_status result) }
{
    let spec = shipped(alloc)?;
    let reordering = Reordering::new(alloc, number);
    let mut walker = Walker::new(alloc, limits, &spec, reordering)?;
    let ended = report_trace(&TraceLines, &mut walker, trace, inputs, out, steps);
    // what the walk held is left to the end of the process, which takes it back at once
    mem::forget(walker);
    ended
}
