//! A report on a generated trace.
ghost use Rattle.std.specs.Prelude.{◌≡◌, ◌≢◌, ◌≤◌, ℕ, List, [], Ok, IfOk, OnOk, OnErr};
ghost use Rattle.rd_base.specs.Limits.{AreUsable};
ghost use Rattle.rd_event.specs.declared.items.Line.{Line as Item};
ghost use Rattle.rd_gen.specs.declared.counts.TheConstants.{MOST_CALLS};
ghost use Rattle.rd_gen_command.specs.GeneratedWalks.{CountsGenerated, trace_counts_text, gen_outcome, behind_counts, generated_walk};
ghost use Rattle.rd_io.specs.Sinks.{Appends};
ghost use Rattle.rd_walk.specs.Analysis.{TellsFault, WritesFront};
ghost use Rattle.rd_walk.specs.Output.{IsOutput, IsTraceEnd, IsWell, ended_status};
ghost use Rattle.rd_walk.specs.Walk.{ending_of};
ghost use Rattle.rd_wf.specs.Roster.{RosterStandsFor, kinds_in};

use crate::walk::walk_generated;
use rd_base::{Bytes, NoMemory, Steps, append_number};
use rd_gen::{Generator, calls_in, lines_in};
use rd_io::Sink;
use rd_walk::{Ended, Halt, Report, WalkEnd, Walker, write_lines};
use std::alloc::Global;
use std::sync::ledger::Ledger;

// How many lines and calls the trace has.
fn counts(alloc: Global, number: u64, count: u32) -> Result<Bytes, NoMemory>
    requires { count ≤ MOST_CALLS }
    ensures { IfOk result (λ text. text ≡ trace_counts_text number count) }
{
    let mut text = Bytes::new(alloc);
    text.append(b"lines ")?;
    append_number(&mut text, u64::from(lines_in(number, count)))?;
    text.append(b"\ncalls ")?;
    append_number(&mut text, u64::from(calls_in(count)))?;
    text.push(b'\n')?;
    Ok(text)
}

// Writes these.
fn write_counts<S: Sink>(alloc: Global, number: u64, count: u32, out: &mut S) -> Result<(), Halt>
    requires { count ≤ MOST_CALLS }
    ensures ok { OnOk result
        (Appends (S.written out.old) (S.written out.new) (trace_counts_text number count)) }
    ensures front { OnErr result (WritesFront (S.written out.old) (S.written out.new) []
        (trace_counts_text number count)) }
    ensures fault { TellsFault (S.faults out.old) (S.faults out.new) (S.at_fault out.new)
        (S.written out.new) result }
{
    let text = counts(alloc, number, count)?;
    write_lines(out, text.items())
}

// The report on the trace, behind the counts.
fn report_generated<A: Report, S: Sink, L: Ledger>(
    walker: &mut Walker<A>,
    number: u64,
    count: u32,
    out: &mut S,
    steps: &mut Steps<L>,
) -> Result<Ended, Halt>
    requires few { count ≤ MOST_CALLS }
    requires usable { AreUsable walker.old.limits }
    requires asks { (item : Item) → A.asks [] item }
    requires none { RosterStandsFor (kinds_in walker.old.roster) walker.old.roster [] }
    requires begins { A.begins (kinds_in walker.old.roster) walker.old.analysis }
    ensures output { (part : List ℕ) × Appends (S.written out.old) (S.written out.new) part
        × IsOutput (ended_status result) part (A.outcome (kinds_in walker.old.roster) walker.old.analysis
        (generated_walk (kinds_in walker.old.roster) walker.old.limits number count))
        × CountsGenerated (A.text (kinds_in walker.old.roster) walker.old.analysis) (A.bound (kinds_in walker.old.roster) walker.old.analysis)
        (generated_walk (kinds_in walker.old.roster) walker.old.limits number count)
        part steps.old steps.new }
    ensures ends { IfOk result IsTraceEnd }
    ensures input { result ≢ Ok Ended.InputFault }
    ensures fault { TellsFault (S.faults out.old) (S.faults out.new) (S.at_fault out.new)
        (S.written out.new) result }
{
    // its type says that it fits 32 bits
    let _threads = walker.limits.threads;
    // and this that the count of the lines does
    let _lines = lines_in(number, count);
    walker.analysis.law_of_outcomes();
    let mut generator = Generator::new(walker.alloc, number, count);
    let ending = walk_generated(walker, &mut generator, out, steps)?;
    walker
        .analysis
        .conclude(walker.alloc, &walker.roster, ending, out)
}

/// Writes how many lines and calls the trace of this number with so many calls has, and then what a report writes for
/// it, from the first states of a walk on. The lines are judged as those of a trace are, without the limits on bytes. No list of
/// them is kept.
pub(crate) fn gen_check<A: Report, S: Sink, L: Ledger>(
    walker: &mut Walker<A>,
    number: u64,
    count: u32,
    out: &mut S,
    steps: &mut Steps<L>,
) -> Result<Ended, Halt>
    requires few { count ≤ MOST_CALLS }
    requires usable { AreUsable walker.old.limits }
    requires asks { (item : Item) → A.asks [] item }
    requires none { RosterStandsFor (kinds_in walker.old.roster) walker.old.roster [] }
    requires begins { A.begins (kinds_in walker.old.roster) walker.old.analysis }

    // what is written and the status are the defined ones, the steps are those of the accepted lines that were begun, and the trace was walked
    // over to its end where the status says so
    ensures output { (part : List ℕ) × Appends (S.written out.old) (S.written out.new) part
        × IsOutput (ended_status result) part (gen_outcome
        (A.outcome (kinds_in walker.old.roster) walker.old.analysis) (kinds_in walker.old.roster) walker.old.limits number count)
        × CountsGenerated (behind_counts (A.text (kinds_in walker.old.roster) walker.old.analysis) number count)
        (A.bound (kinds_in walker.old.roster) walker.old.analysis)
        (generated_walk (kinds_in walker.old.roster) walker.old.limits number count)
        part steps.old steps.new }
    ensures read { IsWell (ended_status result) →
        ending_of (generated_walk (kinds_in walker.old.roster) walker.old.limits number count) ≡ WalkEnd.End }

    // no input failed, and a failed write is told as one
    ensures ends { IfOk result IsTraceEnd }
    ensures input { result ≢ Ok Ended.InputFault }
    ensures fault { TellsFault (S.faults out.old) (S.faults out.new) (S.at_fault out.new)
        (S.written out.new) result }
{
    walker.analysis.law_of_outcomes();
    write_counts(walker.alloc, number, count, out)?;
    report_generated(walker, number, count, out, steps)
}
