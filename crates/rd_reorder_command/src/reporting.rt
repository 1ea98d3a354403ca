//! What `reorder` writes behind the last line of a trace.
ghost use Rattle.std.specs.Prelude.{List, [], OnOk, OnErr};
ghost use Rattle.rd_ecl.specs.Kinds.{Kind};
ghost use Rattle.rd_event.specs.declared.items.Line.{Line as LineOf};
ghost use Rattle.rd_io.specs.Sinks.{Appends};
ghost use Rattle.rd_reorder_command.specs.Outcomes.{picked_text};
ghost use Rattle.rd_reorder_command.specs.Reordering.{ReordersNamed};
ghost use Rattle.rd_walk.specs.Analysis.{TellsFault, WritesFront};

use crate::reordering::Reordering;
use rd_io::Sink;
use rd_linear::reorder;
use rd_rewriting::write_refused;
use rd_walk::{Ended, Halt, Report, WalkEnd, write_line};
use rd_wf::Roster;
use std::alloc::Global;

impl Reordering {
    /// Writes the trace in the order that the number picks.
    fn write_picked<S: Sink>(&self, alloc: Global, names: &Roster, out: &mut S) -> Result<(), Halt>
        requires { (kinds : List Kind) × (lines : List LineOf)
            × ReordersNamed kinds self.now names.now lines }
        ensures ok { OnOk result ((kinds : List Kind) (lines : List LineOf) →
            ReordersNamed kinds self.now names.now lines →
            Appends (S.written out.old) (S.written out.new) (picked_text kinds lines self.now.number)) }
        ensures front { OnErr result ((kinds : List Kind) (lines : List LineOf) →
            ReordersNamed kinds self.now names.now lines →
            WritesFront (S.written out.old) (S.written out.new) []
            (picked_text kinds lines self.now.number)) }
        ensures fault { TellsFault (S.faults out.old) (S.faults out.new) (S.at_fault out.new)
            (S.written out.new) result }
    {
        let places = reorder(alloc, self.events.as_slice(), self.number)?;
        self.kept.write_lines(alloc, names, places.items(), out)
    }
}

impl Report for Reordering {
    ghost use Rattle.rd_io.specs.Inputs.{fault_line};
    ghost use Rattle.rd_reorder_command.specs.Outcomes.{reorder_outcome};

    ghost outcome = { λ kinds start. reorder_outcome start.number kinds };

    ghost unopened = { λ _. fault_line };

    fn unopened_text(&self) -> &'static [u8] {
        b"fault input\n"
    }

    fn conclude<S: Sink>(
        &self,
        alloc: Global,
        names: &Roster,
        ending: WalkEnd,
        out: &mut S,
    ) -> Result<Ended, Halt> {
        match ending {
            WalkEnd::End => {
                self.write_picked(alloc, names, out)?;
                Ok(Ended::Clean)
            }
            WalkEnd::Refused { line, cause } => write_refused(alloc, names, line, cause, out),
            WalkEnd::Fault => {
                write_line(out, self.unopened_text())?;
                Ok(Ended::InputFault)
            }
        }
    }

    fn law_of_outcomes(&self) {}
}
