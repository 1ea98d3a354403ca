//! The commands `gen` and `gen-text`.
ghost use Rattle.std.specs.Prelude.{◌≡◌, ◌≢◌, ◌≤◌, ℕ, List, Ok, Option, IfOk};
ghost use Rattle.rd_base.specs.Limits.{AreUsable};
ghost use Rattle.rd_base.specs.declared.limits.Limits.{Limits as LimitsOf};
ghost use Rattle.rd_check_command.specs.Checked.{check_bound, check_outcome, race_texts};
ghost use Rattle.rd_gen.specs.declared.counts.TheConstants.{MOST_CALLS};
ghost use Rattle.rd_gen_command.specs.GeneratedTexts.{gen_text_meaning};
ghost use Rattle.rd_gen_command.specs.GeneratedWalks.{CountsGenerated, gen_outcome, behind_counts, generated_walk};
ghost use Rattle.rd_gen_command.specs.Meanings.{gen_check_meaning};
ghost use Rattle.rd_io.specs.Inputs.{Source};
ghost use Rattle.rd_io.specs.Sinks.{Appends};
ghost use Rattle.rd_kinds.specs.Shipped.{shipped_kinds};
ghost use Rattle.rd_replay_command.specs.States.{built_in_kinds};
ghost use Rattle.rd_walk.specs.Analysis.{TellsFault};
ghost use Rattle.rd_walk.specs.Meanings.{Ran, seen_alone};
ghost use Rattle.rd_walk.specs.Output.{IsOutput, IsTraceEnd, IsWell, ended_status};
ghost use Rattle.rd_walk.specs.Walk.{ending_of};

use crate::checks::gen_check;
use crate::texts::write_text;
use rd_base::{Limits, Steps};
use rd_check_command::CheckReport;
use rd_gen::MOST_CALLS;
use rd_io::Sink;
use rd_json::Form;
use rd_kinds::shipped;
use rd_walk::{Ended, Halt, WalkEnd, Walker};
use std::alloc::Global;
use std::mem;
use std::sync::ledger::Ledger;

/// The lines of the trace are checked by the kinds that are built in, and the ending alone is written.
fn check_generated<S: Sink, L: Ledger>(
    alloc: Global,
    number: u64,
    count: u32,
    out: &mut S,
    limits: &Limits,
    steps: &mut Steps<L>,
) -> Result<Ended, Halt>
    requires usable { AreUsable limits.now }
    requires few { count ≤ MOST_CALLS }

    // what is written and the status, the steps, and that the trace was walked to its end where the status says so
    ensures output { (part : List ℕ) × Appends (S.written out.old) (S.written out.new) part
        × IsOutput (ended_status result) part (gen_outcome (check_outcome Form.EndingOnly shipped_kinds) built_in_kinds limits.now number count)
        × CountsGenerated (behind_counts (race_texts Form.EndingOnly shipped_kinds) number count) (check_bound shipped_kinds)
        (generated_walk built_in_kinds limits.now number count)
        part steps.old steps.new }
    ensures read { IsWell (ended_status result) →
        ending_of (generated_walk built_in_kinds limits.now number count) ≡ WalkEnd.End }

    // no input failed, and a failed write is told as one
    ensures ends { IfOk result IsTraceEnd }
    ensures input { result ≢ Ok Ended.InputFault }
    ensures fault { TellsFault (S.faults out.old) (S.faults out.new) (S.at_fault out.new)
        (S.written out.new) result }
{
    let spec = shipped(alloc)?;
    let report = CheckReport::new(alloc, Form::EndingOnly, &spec)?;
    let mut walker = Walker::new(alloc, limits, &spec, report)?;
    let ended = gen_check(&mut walker, number, count, out, steps);
    // what the walk held is left to the end of the process, which takes it back at once
    mem::forget(walker);
    ended
}

/// `gen NUMBER COUNT`: writes how many lines and calls the trace of this number with so many calls has, and then the ending of what
/// `check` writes for it. No file is opened.
pub fn generate<S: Sink, L: Ledger>(
    alloc: Global,
    number: u64,
    count: u32,
    out: &mut S,
    limits: &Limits,
    steps: &mut Steps<L>,
) -> Result<Ended, Halt>
    requires usable { AreUsable limits.now }
    requires few { count ≤ MOST_CALLS }
    ensures { (told : Option Source) (faults : ℕ) → Ran (gen_check_meaning number count) limits.now
        (seen_alone told faults S.written S.faults S.at_fault out.old steps.old)
        (seen_alone told faults S.written S.faults S.at_fault out.new steps.new)
        (ended_status result) }
{
    check_generated(alloc, number, count, out, limits, steps)
}

/// `gen-text NUMBER COUNT`: writes the lines of the trace of this number with so many calls, each handed to the output by itself.
pub fn generate_text<S: Sink>(
    alloc: Global,
    number: u64,
    count: u32,
    out: &mut S,
) -> Result<Ended, Halt>
    requires { count ≤ MOST_CALLS }
    ensures { (limits : LimitsOf) (told : Option Source) (faults steps : ℕ) → Ran (gen_text_meaning number count) limits
        (seen_alone told faults S.written S.faults S.at_fault out.old steps)
        (seen_alone told faults S.written S.faults S.at_fault out.new steps)
        (ended_status result) }
{
    write_text(alloc, number, count, out)
}
