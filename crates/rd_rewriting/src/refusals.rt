//! A refused line of a trace of which nothing was written before.
ghost use Rattle.std.specs.Prelude.{◌≡◌, ℕ, List, IfOk};
ghost use Rattle.rd_io.specs.Sinks.{Appends};
ghost use Rattle.rd_rewriting.specs.Ended.{ended_as};
ghost use Rattle.rd_walk.specs.Analysis.{TellsFault};
ghost use Rattle.rd_walk.specs.Output.{IsOutput, IsTraceEnd, Outcome, ended_status};
ghost use Rattle.rd_wf.specs.Roster.{names_in};

use rd_io::Sink;
use rd_report::{Ending, TraceCause, check_status, refused_text};
use rd_walk::{Ended, Halt, WalkEnd, write_line};
use rd_wf::Roster;
use std::alloc::Global;

/// Writes why a line of a trace was refused, and says how the report did. The roster has the names of the threads.
pub fn write_refused<S: Sink>(
    alloc: Global,
    names: &Roster,
    line: u64,
    cause: TraceCause,
    out: &mut S,
) -> Result<Ended, Halt>
    ensures output { (whole : Outcome) → (part : List ℕ) × Appends (S.written out.old) (S.written out.new) part
        × IsOutput (ended_status result) part
        (ended_as (names_in names.now) whole (WalkEnd.Refused line cause)) }
    ensures ends { IfOk result IsTraceEnd }
    ensures input { IfOk result (λ end. ¬ (end ≡ Ended.InputFault)) }
    ensures fault { TellsFault (S.faults out.old) (S.faults out.new) (S.at_fault out.new)
        (S.written out.new) result }
{
    let text = refused_text(alloc, line, cause, names)?;
    write_line(out, text.items())?;
    Ok(check_status(0, &Ending::Refused { line, cause }))
}
