//! The walk over the lines of a generated trace.
ghost use Rattle.std.specs.Prelude.{◌≡◌, ◌≢◌, ℕ, ◌+◌, ◌<◌, ◌≤◌, ◌^◌, List, [], ◌++◌, Ok, length, IfOk, OnErr};
ghost use Rattle.rd_base.specs.Limits.{AreUsable};
ghost use Rattle.rd_event.specs.declared.items.Line.{Line as Item};
ghost use Rattle.rd_gen_command.specs.GeneratedWalks.{CountsGenerated, walk_items};
ghost use Rattle.rd_io.specs.Sinks.{Appends};
ghost use Rattle.rd_walk.specs.Analysis.{TellsFault};
ghost use Rattle.rd_walk.specs.Walk.{Entry, Walked, after, ends, items, step_bound};
ghost use Rattle.rd_wf.specs.Roster.{RosterStandsFor, kinds_in};

use rd_base::Steps;
use rd_gen::Generator;
use rd_io::Sink;
use rd_walk::{Analysis, Halt, Taken, WalkEnd, Walker, at_end, take};
use std::sync::ledger::Ledger;

/// Walks over the lines that a generator has still to give, from the first on, and hands each accepted line to the analysis. The roster
/// then has all of them. The answer says how the lines end, or why the walk stopped before that: a write failed, or memory ran out.
pub(crate) fn walk_generated<A: Analysis, S: Sink, L: Ledger>(
    walker: &mut Walker<A>,
    generator: &mut Generator,
    out: &mut S,
    steps: &mut Steps<L>,
) -> Result<WalkEnd, Halt>
    requires usable { AreUsable walker.old.limits }
    requires asks { (item : Item) → A.asks [] item }
    requires none { RosterStandsFor (kinds_in walker.old.roster) walker.old.roster [] }
    requires begins { A.begins (kinds_in walker.old.roster) walker.old.analysis }
    requires few { length generator.old.lines < 2 ^ 63 }

    // all lines were walked over, as far as they go
    ensures walked { IfOk result (λ ending. (entries : List Entry)
        × A.leads (kinds_in walker.old.roster) walker.old.analysis entries walker.new.analysis
        × RosterStandsFor (kinds_in walker.old.roster) walker.new.roster (items entries)
        × Appends (S.written out.old) (S.written out.new)
        (A.text (kinds_in walker.old.roster) walker.old.analysis entries)
        × (steps.new ≤ steps.old + step_bound (A.bound (kinds_in walker.old.roster) walker.old.analysis) entries)
        × (walk_items (kinds_in walker.old.roster) walker.old.limits [] 1 generator.old.lines
        ≡ after entries (ends ending))) }
    ensures whole { result ≢ Ok WalkEnd.Fault }

    // or some of them, of the last of which not all may be written
    ensures halted { OnErr result ((entries : List Entry) × (part : List ℕ) × (rest : List ℕ)
        × Appends (S.written out.old) (S.written out.new) part
        × (A.text (kinds_in walker.old.roster) walker.old.analysis entries ≡ part ++ rest)
        × CountsGenerated (A.text (kinds_in walker.old.roster) walker.old.analysis) (A.bound (kinds_in walker.old.roster) walker.old.analysis)
        (walk_items (kinds_in walker.old.roster) walker.old.limits [] 1 generator.old.lines)
        part steps.old steps.new
        × (walked : Walked)
        × (walk_items (kinds_in walker.old.roster) walker.old.limits [] 1 generator.old.lines
        ≡ after entries walked)) }

    // a failed write is told as one
    ensures fault { TellsFault (S.faults out.old) (S.faults out.new) (S.at_fault out.new)
        (S.written out.new) result }
{
    let mut number = 0u64;
    'lines: while generator.next_into(&mut walker.line)? {
        number += 1;
        match take(walker, number, out, steps) {
            Ok(Taken::Accepted) => {}
            Ok(Taken::Refused) => return Ok(WalkEnd::Refused {
                line: number,
                cause: walker.refused.unwrap(),
            }),
            Err(halt) => return Err(halt),
        }
    }
    Ok(at_end(&walker.roster, number))
}
