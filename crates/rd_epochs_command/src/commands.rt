//! The command `epochs`.
ghost use Rattle.rd_base.specs.Limits.{AreUsable};
ghost use Rattle.rd_epochs_command.specs.Meanings.{epochs_meaning};
ghost use Rattle.rd_walk.specs.Meanings.{Ran, seen};
ghost use Rattle.rd_walk.specs.Output.{ended_status};

use crate::lines::MemoryLines;
use crate::variables::variables;
use crate::watching::FirstRaces;
use rd_base::{Limits, Steps, Word};
use rd_io::{Inputs, Sink};
use rd_walk::{Ended, Halt, Walker, report_trace};
use std::alloc::Global;
use std::mem;
use std::sync::ledger::Ledger;

/// `epochs TRACE`: writes the first race of each variable of a trace of reads and writes, with the line of the access and that of the latest earlier one
/// that races with it; then how many variables raced; or why a line is refused, or that the trace can't be opened or read.
pub fn epochs<I: Inputs, S: Sink, L: Ledger>(
    alloc: Global,
    trace: &Word,
    inputs: &mut I,
    out: &mut S,
    limits: &Limits,
    steps: &mut Steps<L>,
) -> Result<Ended, Halt>
    requires usable { AreUsable limits.now }
    ensures { Ran (epochs_meaning trace.now) limits.now
        (seen I.told I.faults inputs.old S.written S.faults S.at_fault out.old steps.old)
        (seen I.told I.faults inputs.new S.written S.faults S.at_fault out.new steps.new)
        (ended_status result) }
{
    let spec = variables(alloc)?;
    let lines = MemoryLines::new();
    let mut walker = Walker::new(alloc, limits, &spec, FirstRaces::new(alloc))?;
    let ended = report_trace(&lines, &mut walker, trace, inputs, out, steps);
    // what the walk held is left to the end of the process, which takes it back at once
    mem::forget(walker);
    ended
}
