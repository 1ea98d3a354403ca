//! A report on a trace: the walk over its lines, and what stands behind their texts.
ghost use Rattle.std.specs.Prelude.{◌≡◌, ◌↔◌, ◌+◌, ◌<◌, ◌≤◌, ◌^◌, ℕ, nat_lt, List, [], ◌++◌, Some, length, IfOk};
ghost use Rattle.rd_base.specs.Bytes.{IsFront};
ghost use Rattle.rd_base.specs.Limits.{AreUsable};
ghost use Rattle.rd_ecl.specs.Kinds.{Kind};
ghost use Rattle.rd_io.specs.Inputs.{Source, Goes, Takes};
ghost use Rattle.rd_io.specs.LineReader.{fresh};
ghost use Rattle.rd_io.specs.Sinks.{Appends};
ghost use Rattle.rd_walk.specs.Meanings.{Ran, Runs, report_meaning, seen};
ghost use Rattle.rd_walk.specs.Traces.{HasReported, texts_of};
ghost use Rattle.rd_walk.specs.Analysis.{TellsFault, TellsFaults};
ghost use Rattle.rd_walk.specs.Output.{IsOutput, IsTraceEnd, IsWell, Outcome, ended_status};
ghost use Rattle.rd_walk.specs.Progress.{IsBegun, IsTakenOfTrace};
ghost use Rattle.rd_walk.specs.Walk.{Entry, Walked, after, ending_of, ends, entries_of, items, lines_begun, step_bound};
ghost use Rattle.rd_rules.specs.Events.{AreAccepted};
ghost use Rattle.rd_wf.specs.Roster.{RosterStandsFor, kinds_in};

use crate::analysis::{Analysis, Halt};
use crate::grammar::Grammar;
use crate::status::Ended;
use crate::walk::{WalkEnd, Walker, walk_lines};
use crate::writing::write_line;
use rd_base::{Steps, Word};
use rd_io::{Inputs, LineReader, Sink};
use rd_wf::Roster;
use std::alloc::Global;
use std::sync::ledger::Ledger;

/// An analysis that says behind the last line how the trace ends.
pub trait Report: Analysis {
    /// What is written for a trace whose lines are these, from the first state on, and the status.
    ghost outcome: { List Kind → Self → Walked → Outcome };

    /// What is written where the trace can't be opened.
    ghost unopened: { Self → List ℕ };

    /// What is written where the trace can't be opened.
    fn unopened_text(&self) -> &'static [u8]
        ensures { result.now ≡ unopened self.now };

    /// Writes what stands behind the texts of the lines, and gives the status, by how the lines end. The roster has their names.
    fn conclude<S: Sink>(
        &self,
        alloc: Global,
        names: &Roster,
        ending: WalkEnd,
        out: &mut S,
    ) -> Result<Ended, Halt>
        requires { (kinds : List Kind) × (start : Self) × (entries : List Entry)
            × Self.leads kinds start entries self.now
            × RosterStandsFor kinds names.now (items entries) }

        // the outcome is written behind the texts of the lines
        ensures output { (kinds : List Kind) (start : Self) (entries : List Entry) →
            Self.leads kinds start entries self.now →
            RosterStandsFor kinds names.now (items entries) → (part : List ℕ)
            × Appends (S.written out.old) (S.written out.new) part
            × IsOutput (ended_status result) (Self.text kinds start entries ++ part)
            (outcome kinds start (after entries (ends ending))) }

        // each fault is told as one
        ensures ends { IfOk result IsTraceEnd }
        ensures input { IfOk result
            (λ end. (end ≡ Ended.InputFault) ↔ (ending ≡ WalkEnd.Fault)) }
        ensures fault { TellsFault (S.faults out.old) (S.faults out.new) (S.at_fault out.new)
            (S.written out.new) result };

    /// The law of a report: the text of the first lines is a front of what is written for all, and the status says that the trace was read
    /// to its end exactly where it was.
    fn law_of_outcomes(&self)
        ensures fronts { (kinds : List Kind) (entries : List Entry) (walked : Walked) →
            Self.begins kinds self.now →
            AreAccepted kinds (items (entries_of (after entries walked))) →
            IsFront (Self.text kinds self.now entries)
            (outcome kinds self.now (after entries walked)).text }
        ensures well { (kinds : List Kind) (walked : Walked) →
            (IsWell (outcome kinds self.now walked).status ↔ ending_of walked ≡ WalkEnd.End) };
}

/// A report on the current input, from its first byte on.
fn report_opened<G: Grammar<A>, A: Report, I: Inputs, S: Sink, L: Ledger>(
    grammar: &G,
    walker: &mut Walker<A>,
    reader: &mut LineReader,
    inputs: &mut I,
    out: &mut S,
    steps: &mut Steps<L>,
) -> Result<Ended, Halt>
    requires usable { AreUsable walker.old.limits }
    requires fresh { reader.old ≡ fresh walker.old.limits }
    requires none { RosterStandsFor (kinds_in walker.old.roster) walker.old.roster [] }
    requires begins { A.begins (kinds_in walker.old.roster) walker.old.analysis }

    // the report, and each fault is told as one
    ensures reported { (entries : List Entry) × (taken : List ℕ) × (part : List ℕ)
        × Appends (S.written out.old) (S.written out.new) part
        × (steps.new ≤ steps.old + step_bound (A.bound (kinds_in walker.old.roster) walker.old.analysis) entries)
        × IsTakenOfTrace walker.old.limits taken (lines_begun entries)
        × IsBegun (A.text (kinds_in walker.old.roster) walker.old.analysis) part entries
        × Goes (I.told inputs.old) (I.told inputs.new) (λ old new. Takes old new taken
        × HasReported (texts_of G.says A.text A.outcome A.bound A.unopened
        (kinds_in walker.old.roster) walker.old.analysis)
        (kinds_in walker.old.roster) walker.old.limits taken new.held entries part (ended_status result)
        (I.faults inputs.old) (I.faults inputs.new)) }
    ensures ends { IfOk result IsTraceEnd }
    ensures faults { TellsFaults Ended.InputFault (I.faults inputs.old) (I.faults inputs.new)
        (S.faults out.old) (S.faults out.new) (S.at_fault out.new) (S.written out.new) result }
{
    let ending = walk_lines(grammar, walker, reader, inputs, out, steps)?;
    walker
        .analysis
        .conclude(walker.alloc, &walker.roster, ending, out)
}

/// A report on a trace, from the first states of a walk on, as one of the files that a command opens.
pub fn report_named<G: Grammar<A>, A: Report, I: Inputs, S: Sink, L: Ledger>(
    grammar: &G,
    walker: &mut Walker<A>,
    trace: &Word,
    inputs: &mut I,
    out: &mut S,
    steps: &mut Steps<L>,
) -> Result<Ended, Halt>
    requires usable { AreUsable walker.old.limits }
    requires none { RosterStandsFor (kinds_in walker.old.roster) walker.old.roster [] }
    requires begins { A.begins (kinds_in walker.old.roster) walker.old.analysis }

    // the report, and each fault is told as one
    ensures reports { (old : Source) → I.told inputs.old ≡ Some old → I.faults inputs.old < 2 ^ 63 →
        old.opens ≤ 2 ^ 63 →
        (new : Source) × (part : List ℕ) × (I.told inputs.new ≡ Some new)
        × Appends (S.written out.old) (S.written out.new) part
        × Runs (report_meaning (texts_of G.says A.text A.outcome A.bound A.unopened
        (kinds_in walker.old.roster) walker.old.analysis) (kinds_in walker.old.roster) trace.now) walker.old.limits
        (nat_lt (I.faults inputs.old)
        (I.faults inputs.new)) old new part (ended_status result) steps.old steps.new }
    ensures ends { IfOk result IsTraceEnd }
    ensures faults { TellsFaults Ended.InputFault (I.faults inputs.old) (I.faults inputs.new)
        (S.faults out.old) (S.faults out.new) (S.at_fault out.new) (S.written out.new) result }
{
    let mut reader = LineReader::new(walker.alloc, &walker.limits)?;
    let Ok(()) = inputs.open(trace) else {
        write_line(out, walker.analysis.unopened_text())?;
        return Ok(Ended::InputFault);
    };
    // its type says that it fits 32 bits
    let _threads = walker.limits.threads;
    walker.analysis.law_of_outcomes();
    report_opened(grammar, walker, &mut reader, inputs, out, steps)
}

/// A report on a trace, from the first states of a walk on, as all that a command does.
pub fn report_trace<G: Grammar<A>, A: Report, I: Inputs, S: Sink, L: Ledger>(
    grammar: &G,
    walker: &mut Walker<A>,
    trace: &Word,
    inputs: &mut I,
    out: &mut S,
    steps: &mut Steps<L>,
) -> Result<Ended, Halt>
    requires usable { AreUsable walker.old.limits }
    requires none { RosterStandsFor (kinds_in walker.old.roster) walker.old.roster [] }
    requires begins { A.begins (kinds_in walker.old.roster) walker.old.analysis }
    ensures { Ran (report_meaning (texts_of G.says A.text A.outcome A.bound A.unopened
        (kinds_in walker.old.roster) walker.old.analysis) (kinds_in walker.old.roster) trace.now) walker.old.limits
        (seen I.told I.faults inputs.old S.written S.faults S.at_fault out.old steps.old)
        (seen I.told I.faults inputs.new S.written S.faults S.at_fault out.new steps.new)
        (ended_status result) }
{
    walker.analysis.law_of_outcomes();
    report_named(grammar, walker, trace, inputs, out, steps)
}
