//! The command `adjacent`.
ghost use Rattle.std.specs.Prelude.{◌<◌};
ghost use Rattle.rd_base.specs.Limits.{AreUsable};
ghost use Rattle.rd_adjacent_command.specs.Meanings.{adjacent_meaning};
ghost use Rattle.rd_walk.specs.Meanings.{Ran, seen};
ghost use Rattle.rd_walk.specs.Output.{ended_status};

use crate::adjoining::Adjoining;
use rd_base::{Limits, Steps, Word};
use rd_io::{Inputs, Sink};
use rd_kinds::shipped;
use rd_walk::{Ended, Halt, TraceLines, Walker, report_trace};
use std::alloc::Global;
use std::mem;
use std::sync::ledger::Ledger;

/// `adjacent TRACE LINE LINE`, by the two lines, the lesser first: writes the trace with the calls of these lines side by side, or the lines of
/// the path that orders them, or which line isn't that of a call; or why a line of the trace is refused, or that it can't be opened or read.
pub fn adjacent<I: Inputs, S: Sink, L: Ledger>(
    alloc: Global,
    trace: &Word,
    calls: (u64, u64),
    inputs: &mut I,
    out: &mut S,
    limits: &Limits,
    steps: &mut Steps<L>,
) -> Result<Ended, Halt>
    requires usable { AreUsable limits.now }
    requires order { calls.0 < calls.1 }
    ensures { Ran (adjacent_meaning trace.now calls.0 calls.1) limits.now
        (seen I.told I.faults inputs.old S.written S.faults S.at_fault out.old steps.old)
        (seen I.told I.faults inputs.new S.written S.faults S.at_fault out.new steps.new)
        (ended_status result) }
{
    let spec = shipped(alloc)?;
    let adjoining = Adjoining::new(alloc, calls.0, calls.1);
    let mut walker = Walker::new(alloc, limits, &spec, adjoining)?;
    let ended = report_trace(&TraceLines, &mut walker, trace, inputs, out, steps);
    // what the walk held is left to the end of the process, which takes it back at once
    mem::forget(walker);
    ended
}
