//! The command `weave`.
ghost use Rattle.std.specs.Prelude.{◌≡◌, ◌≢◌, ◌<◌, ◌^◌, ℕ, List, [], Some, nat_lt, IfOk};
ghost use Rattle.rd_base.specs.Limits.{AreUsable};
ghost use Rattle.rd_io.specs.Inputs.{Source};
ghost use Rattle.rd_io.specs.Sinks.{Appends};
ghost use Rattle.rd_walk.specs.Analysis.{TellsFaults};
ghost use Rattle.rd_walk.specs.Meanings.{Ran, Runs, seen};
ghost use Rattle.rd_walk.specs.Output.{ended_status};
ghost use Rattle.rd_weave_command.specs.Meanings.{weave_meaning};
ghost use Rattle.rd_weave_command.specs.Outcomes.{IsWeaveEnd};

use crate::answering::{refuse_limit, tell_fault, write_answer};
use rd_base::{Limits, Word};
use rd_io::{Inputs, Sink};
use rd_log_files::{LogsUnread, read_logs};
use rd_walk::{Ended, Halt};
use std::alloc::Global;

// What is written of the logs in these files, and of them alone.
fn report_logs<I: Inputs, S: Sink>(
    alloc: Global,
    files: &[Word],
    inputs: &mut I,
    out: &mut S,
    limits: &Limits,
) -> Result<Ended, Halt>
    requires usable { AreUsable limits.now }

    // what is written and the status are the defined ones, and no step is counted
    ensures runs { (steps : ℕ) (old : Source) → I.told inputs.old ≡ Some old →
        I.faults inputs.old < 2 ^ 63 → old.opens < 2 ^ 63 →
        (new : Source) × (part : List ℕ) × (I.told inputs.new ≡ Some new)
        × Appends (S.written out.old) (S.written out.new) part
        × Runs (weave_meaning files.now) limits.now
        (nat_lt (I.faults inputs.old) (I.faults inputs.new)) old new part
        (ended_status result) steps steps }

    // each fault is told as one
    ensures ends { IfOk result IsWeaveEnd }
    ensures faults { TellsFaults Ended.InputFault (I.faults inputs.old) (I.faults inputs.new)
        (S.faults out.old) (S.faults out.new) (S.at_fault out.new) (S.written out.new) result }
{
    match read_logs(alloc, files, inputs, limits) {
        Ok(logs) => write_answer(alloc, logs.as_slice(), out),
        Err(LogsUnread::Limit(passed)) => refuse_limit(alloc, &passed, out),
        Err(LogsUnread::Fault) => tell_fault(out),
        Err(LogsUnread::NoMemory) => Err(Halt::NoMemory),
    }
}

/// `weave FILE ..`: reads the logs in these files, one behind the other, and writes the trace that they are woven into; or the first bad line; or, where there
/// is no weaving, how many events of each log were placed. A limit that they pass is told before they are woven. No step is counted.
pub fn weave<I: Inputs, S: Sink>(
    alloc: Global,
    files: &[Word],
    inputs: &mut I,
    out: &mut S,
    limits: &Limits,
) -> Result<Ended, Halt>
    requires usable { AreUsable limits.now }
    requires some { files.now ≢ [] }
    ensures { (steps : ℕ) → Ran (weave_meaning files.now) limits.now
        (seen I.told I.faults inputs.old S.written S.faults S.at_fault out.old steps)
        (seen I.told I.faults inputs.new S.written S.faults S.at_fault out.new steps)
        (ended_status result) }
{
    report_logs(alloc, files, inputs, out, limits)
}
