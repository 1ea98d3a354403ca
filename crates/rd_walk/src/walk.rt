//! The walk over the lines of a trace.
ghost use Rattle.std.specs.Prelude.{◌≡◌, ◌≢◌, ◌⊎◌, ℕ, ◌+◌, ◌-◌, ◌<◌, ◌≤◌, ◌^◌, true, false, List, [], Ok, Err, None, Some, IsSome, length, IfOk, IfErr, OnErr};
ghost use Rattle.rd_base.specs.Bytes.{IsFront};
ghost use Rattle.rd_base.specs.Limits.{AreUsable};
ghost use Rattle.rd_event.specs.declared.items.Line.{Line as Item};
ghost use Rattle.rd_io.specs.Inputs.{Goes, Takes, Rose};
ghost use Rattle.rd_io.specs.LineReader.{fresh};
ghost use Rattle.rd_io.specs.Lines.LinesEnding.{at_end};
ghost use Rattle.rd_io.specs.Sinks.{Appends};
ghost use Rattle.rd_walk.specs.Analysis.{AreBefore, IsCutIn, IsHandedOn, TellsFault};
ghost use Rattle.rd_walk.specs.Progress.{IsBegun, IsTakenOfTrace, WalksOn, WalksTo, ending_for};
ghost use Rattle.rd_rules.specs.MayFollow.{MayFollow, first_broken};
ghost use Rattle.rd_rules.specs.declared.causes.WfCause.{WfCause};
ghost use Rattle.rd_walk.specs.Walk.{Entry, lines_begun, trace_end_of, items, step_bound};
ghost use Rattle.rd_ecl.specs.Kinds.{Kind};
ghost use Rattle.rd_wf.specs.Roster.{RosterStandsFor, kinds_in};

use crate::analysis::{Analysis, Halt};
use crate::grammar::Grammar;
use rd_base::{LimitName, Limits, NoMemory, Steps};
use rd_ecl::Spec;
use rd_event::{Line, is_skipped};
use rd_io::{Inputs, LineReader, Next, ReadEnd, Sink};
use rd_wf::{Roster, TraceCause, WfRefused};
use std::alloc::Global;
use std::sync::ledger::Ledger;

/// How the lines of a trace end.
#[derive(Clone, Copy, PartialEq, Eq)]
pub enum WalkEnd {
    /// the trace was read to its end
    End,
    /// a line was refused
    Refused { line: u64, cause: TraceCause },
    /// a read of the input failed
    Fault,
}

/// What goes over the lines of a trace: the roster of the accepted lines, and the analysis that is handed each of them.
#[derive(Drop)]
pub struct Walker<A> {
    pub alloc: Global,
    pub limits: Limits,
    pub roster: Roster,
    pub analysis: A,
    /// the last line that was read
    pub line: Line,
    /// why the last line was refused, where it was
    pub refused: Option<TraceCause>,
}

impl<A: Drop> Walker<A> {
    ghost use Rattle.std.specs.Prelude.{◌≡◌, ◌≢◌, ◌<◌, ◌^◌, [], length, AllPairs, IfOk};
    ghost use Rattle.rd_ecl.specs.Kinds.{kind_names, kinds_of};
    ghost use Rattle.rd_wf.specs.Roster.{RosterStandsFor, kinds_in};

    /// At the first line of a trace whose objects are of these kinds, which have different names. Its error is want of memory.
    pub fn new(
        alloc: Global,
        limits: &Limits,
        spec: &Spec,
        analysis: A,
    ) -> Result<Walker<A>, NoMemory>
        requires few { length spec.now < 2 ^ 32 }
        requires different { AllPairs (λ x y. x ≢ y) (kind_names (kinds_of spec.now)) }
        ensures limits { IfOk result (λ walker. walker.limits ≡ limits.now) }
        ensures analysis { IfOk result (λ walker. walker.analysis ≡ analysis) }
        ensures kinds { IfOk result (λ walker. kinds_in walker.roster ≡ kinds_of spec.now) }
        ensures none { IfOk result
            (λ walker. RosterStandsFor (kinds_in walker.roster) walker.roster []) }
    {
        let roster = Roster::new(alloc, spec)?;
        Ok(Walker {
            alloc,
            limits: *limits,
            roster,
            analysis,
            line: Line::Skip,
            refused: None,
        })
    }
}

/// What became of a line. Where it is refused, the walker has the cause, so that the answer for each line is small.
#[derive(Clone, Copy, PartialEq, Eq)]
pub enum Taken {
    /// it is accepted and was handed on
    Accepted,
    /// it is refused
    Refused,
}

/// How a trace ends whose lines ended well. The number is that of its last line.
pub fn at_end(roster: &Roster, number: u64) -> WalkEnd
    requires { number < 2 ^ 64 - 1 }
    ensures ending { (kinds : List Kind) (before : List Item) → RosterStandsFor kinds roster.now before →
        (limits : _) → result ≡ trace_end_of limits before (number + 1) at_end }
    ensures whole { result ≢ WalkEnd.Fault }
{
    match roster.finish() {
        Ok(()) => WalkEnd::End,
        Err(cause) => WalkEnd::Refused {
            line: number + 1,
            cause: TraceCause::Wf(cause),
        },
    }
}

/// How a trace ends whose lines the reader refused. The number is that of the line that was being read.
fn at_refusal(refused: ReadEnd, number: u64, limits: &Limits) -> WalkEnd
    ensures { result ≡ ending_for limits.now number refused }
{
    let cause = match refused {
        ReadEnd::ReadFault => return WalkEnd::Fault,
        ReadEnd::LineTooLong => TraceCause::Limit(LimitName::Line, u64::from(limits.line)),
        ReadEnd::BytesLimit => TraceCause::Limit(LimitName::Bytes, limits.bytes),
        ReadEnd::NoFinalNewline => TraceCause::NoFinalNewline,
    };
    WalkEnd::Refused {
        line: number,
        cause,
    }
}

/// Takes an item that the line with this number says, which the walker keeps, without the bytes of the line: where it may follow the accepted
/// ones it is handed on, and else the walker has the cause. So each walk goes from an item to the next, whatever its lines are read from.
pub fn take<A: Analysis, S: Sink, L: Ledger>(
    walker: &mut Walker<A>,
    number: u64,
    out: &mut S,
    steps: &mut Steps<L>,
) -> Result<Taken, Halt>
    requires usable { AreUsable walker.old.limits }
    requires asks { A.asks [] walker.old.line }
    requires stands { (kinds : List Kind) × (start : A) × (before : List Entry)
        × RosterStandsFor kinds walker.old.roster (items before)
        × A.leads kinds start before walker.old.analysis × AreBefore number before }
    ensures limits { walker.new.limits ≡ walker.old.limits }

    // the item may follow, and is handed on
    ensures taken { result ≡ Ok Taken.Accepted → (kinds : List Kind) (start : A) (before : List Entry) →
        RosterStandsFor kinds walker.old.roster (items before) →
        A.leads kinds start before walker.old.analysis → AreBefore number before →
        (first_broken kinds walker.old.limits (items before) walker.old.line ≡ None)
        × IsHandedOn (A.leads kinds start) (A.text kinds start) (A.bound kinds start) kinds
        walker.new.roster walker.new.analysis (S.written out.old) (S.written out.new)
        steps.old steps.new before (record { number = number; item = walker.old.line }) }

    // or it is refused, and all else is as before
    ensures cause { result ≡ Ok Taken.Refused → IsSome walker.new.refused }
    ensures refused { result ≡ Ok Taken.Refused → (cause : TraceCause) → walker.new.refused ≡ Some cause →
        (kinds : List Kind) (before : List Entry) →
        RosterStandsFor kinds walker.old.roster (items before) → (broken : WfCause)
        × (cause ≡ TraceCause.Wf broken)
        × (first_broken kinds walker.old.limits (items before) walker.old.line ≡ Some broken)
        × RosterStandsFor kinds walker.new.roster (items before) }
    ensures silent { result ≡ Ok Taken.Refused → (out.new ≡ out.old)
        × (walker.new.analysis ≡ walker.old.analysis) × (steps.new ≡ steps.old) }

    // or memory runs out in judging it, or in what is done with it, or a write fails; memory runs out only where it may follow
    ensures memory { result ≡ Err Halt.NoMemory → (kinds : List Kind) (before : List Item) →
        RosterStandsFor kinds walker.old.roster before →
        MayFollow kinds walker.old.limits before walker.old.line }
    ensures halted { OnErr result
        ((kinds : List Kind) (start : A) (before : List Entry) →
        RosterStandsFor kinds walker.old.roster (items before) →
        A.leads kinds start before walker.old.analysis → AreBefore number before →
        ((S.written out.new ≡ S.written out.old) × (steps.new ≡ steps.old))
        ⊎ ((first_broken kinds walker.old.limits (items before) walker.old.line ≡ None)
        × IsCutIn (A.text kinds start) (A.bound kinds start) (S.written out.old) (S.written out.new)
        steps.old steps.new before (record { number = number; item = walker.old.line }))) }
    ensures fault { TellsFault (S.faults out.old) (S.faults out.new) (S.at_fault out.new)
        (S.written out.new) result }
{
    match walker.roster.accept(&walker.line, &walker.limits) {
        Ok(accepted) => {
            let Err(halt) = walker
                .analysis
                .accept(number, b"", &accepted, &walker.roster, out, steps)
            else {
                return Ok(Taken::Accepted);
            };
            Err(halt)
        }
        Err(WfRefused::Cause(cause)) => {
            walker.refused = Some(TraceCause::Wf(cause));
            Ok(Taken::Refused)
        }
        Err(WfRefused::NoMemory) => Err(Halt::NoMemory),
    }
}

/// Walks over the lines of the current input from its first byte on, by what the grammar says of a line, and hands each accepted item to the
/// analysis. The roster then has all of them. The answer says how the lines end, or why the walk stopped before that: a write failed, or
/// memory ran out. A turn takes at least one byte of the input, and no more is taken than `IsTakenOfTrace` says.
pub fn walk_lines<G: Grammar<A>, A: Analysis, I: Inputs, S: Sink, L: Ledger>(
    grammar: &G,
    walker: &mut Walker<A>,
    reader: &mut LineReader,
    inputs: &mut I,
    out: &mut S,
    steps: &mut Steps<L>,
) -> Result<WalkEnd, Halt>
    requires usable { AreUsable walker.old.limits }
    requires fresh { reader.old ≡ fresh walker.old.limits }
    requires none { RosterStandsFor (kinds_in walker.old.roster) walker.old.roster [] }
    requires begins { A.begins (kinds_in walker.old.roster) walker.old.analysis }

    // all lines were walked over, as far as they go
    ensures walked { IfOk result (λ ending. (entries : List Entry) × (taken : List ℕ)
        × A.leads (kinds_in walker.old.roster) walker.old.analysis entries walker.new.analysis
        × RosterStandsFor (kinds_in walker.old.roster) walker.new.roster (items entries)
        × Appends (S.written out.old) (S.written out.new)
        (A.text (kinds_in walker.old.roster) walker.old.analysis entries)
        × (steps.new ≤ steps.old + step_bound (A.bound (kinds_in walker.old.roster) walker.old.analysis) entries)
        × IsTakenOfTrace walker.old.limits taken (lines_begun entries)
        × Goes (I.told inputs.old) (I.told inputs.new)
        (λ old new. Takes old new taken
        × WalksTo G.says (kinds_in walker.old.roster) walker.old.limits taken new.held entries ending)) }

    // or some of them, and no line behind one of which not all was written
    ensures halted { OnErr result ((entries : List Entry) × (taken : List ℕ) × (part : List ℕ)
        × Appends (S.written out.old) (S.written out.new) part
        × IsFront part (A.text (kinds_in walker.old.roster) walker.old.analysis entries)
        × IsBegun (A.text (kinds_in walker.old.roster) walker.old.analysis) part entries
        × (steps.new ≤ steps.old + step_bound (A.bound (kinds_in walker.old.roster) walker.old.analysis) entries)
        × IsTakenOfTrace walker.old.limits taken (lines_begun entries)
        × WalksOn G.says (kinds_in walker.old.roster) walker.old.limits taken entries
        × Goes (I.told inputs.old) (I.told inputs.new) (λ old new. Takes old new taken)) }

    // each fault is told as one
    ensures input_fault { result ≡ Ok WalkEnd.Fault →
        Rose (I.faults inputs.old) (I.faults inputs.new) }
    ensures calm { result ≢ Ok WalkEnd.Fault → I.faults inputs.new ≡ I.faults inputs.old }
    ensures fault { TellsFault (S.faults out.old) (S.faults out.new) (S.at_fault out.new)
        (S.written out.new) result }
{
    'lines: loop {
        match reader.next(inputs) {
            Ok(Next::Line) => {}
            Ok(Next::End) => return Ok(at_end(&walker.roster, reader.number())),
            Err(refused) => return Ok(at_refusal(refused, reader.number(), &walker.limits)),
        }
        let number = reader.number();
        if is_skipped(reader.line()) {
            grammar.law_of_skipped_bytes();
            walker.roster.law_of_skipped_lines();
            walker.analysis.law_of_skipped_lines(number, &walker.roster);
            continue;
        }
        match grammar.take_line(walker, number, reader.line(), out, steps) {
            Ok(Taken::Accepted) => {}
            Ok(Taken::Refused) => return Ok(WalkEnd::Refused {
                line: number,
                cause: walker.refused.unwrap(),
            }),
            Err(halt) => return Err(halt),
        }
    }
}
