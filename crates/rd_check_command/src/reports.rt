//! What `check` does with each accepted line and behind the last: it reports races, and replays the calls.
ghost use Rattle.std.specs.Prelude.{◌≡◌, ◌↔◌, ℕ, List, IfOk};
ghost use Rattle.rd_io.specs.Sinks.{Appends};
ghost use Rattle.rd_json.specs.Forms.{ending_in};
ghost use Rattle.rd_report.specs.Endings.{check_status};
ghost use Rattle.rd_walk.specs.Analysis.{TellsFault};
ghost use Rattle.rd_walk.specs.Output.{IsOutput, IsTraceEnd, ended_status};
ghost use Rattle.rd_wf.specs.Roster.{names_in};

use crate::checking::Check;
use rd_base::{NoMemory, Steps};
use rd_ecl::Spec;
use rd_io::Sink;
use rd_json::{Form, ending_in, fault_in};
use rd_replay::Replayer;
use rd_replay_command::follow;
use rd_report::{Ending, check_status, ending_of_report};
use rd_walk::{Analysis, Ended, Halt, Report, WalkEnd, write_lines};
use rd_wf::{Accepted, Roster};
use std::alloc::Global;
use std::sync::ledger::Ledger;

/// Reports races, and replays the calls.
#[derive(Drop)]
pub struct CheckReport<'a> {
    check: Check<'a>,
    replayer: Replayer,
}

impl<'a> CheckReport<'a> {
    ghost use Rattle.std.specs.Prelude.{◌≡◌, IfOk};
    ghost use Rattle.rd_check_command.specs.Replayed.{IsNewReport};

    /// A check of no lines, whose report has this form, of a trace whose objects are of these kinds.
    pub fn new(alloc: Global, form: Form, spec: &'a Spec) -> Result<CheckReport<'a>, NoMemory>
        ensures { IfOk result (IsNewReport form spec.now) }
    {
        let check = Check::new(alloc, form, spec)?;
        Ok(CheckReport {
            check,
            replayer: Replayer::new(alloc),
        })
    }
}

impl<'a> Analysis for CheckReport<'a> {
    ghost use Rattle.rd_check_command.specs.Checked.{check_bound, race_texts};
    ghost use Rattle.rd_check_command.specs.Replayed.{ReportBegins, ReportLeads};
    ghost use Rattle.rd_check_command.specs.laws.CheckLaws.{checks_none, no_text};

    ghost begins = { ReportBegins };

    ghost leads = { ReportLeads };

    ghost text = { λ _ start. race_texts start.check.form start.check.spec.now };

    ghost asks = { λ _ _. Unit {0} };

    ghost bound = { λ _ start. check_bound start.check.spec.now };

    ghost starts = { λ kinds start begins. record {
      checks = checks_none kinds start.check begins.checks;
      replayed = begins.replayed;
    } };

    ghost silent = { λ _ start. no_text start.check };

    ghost said = { λ _ _ _ _. tt };

    #[inline(always)]
    fn accept<S: Sink, L: Ledger>(
        &mut self,
        number: u64,
        bytes: &[u8],
        accepted: &Accepted,
        roster: &Roster,
        out: &mut S,
        steps: &mut Steps<L>,
    ) -> Result<(), Halt> {
        match self
            .check
            .accept(number, bytes, accepted, roster, out, steps)
        {
            Ok(()) => follow(&mut self.replayer, number, accepted),
            Err(halt) => Err(halt),
        }
    }

    fn law_of_skipped_lines(&self, number: u64, roster: &Roster) {
        self.check.law_of_skipped_lines(number, roster);
    }
}

/// Writes in this form how a report of `check` ends, and says how it did. The roster has the names of the threads.
fn write_ending<S: Sink>(
    form: Form,
    alloc: Global,
    names: &Roster,
    races: u64,
    ending: &Ending,
    out: &mut S,
) -> Result<Ended, Halt>
    ensures output { (part : List ℕ) × Appends (S.written out.old) (S.written out.new) part
        × IsOutput (ended_status result) part
        (record { text = ending_in form (names_in names.now) races ending.now; status = check_status races ending.now }) }
    ensures ends { IfOk result IsTraceEnd }
    ensures input { IfOk result
        (λ end. (end ≡ Ended.InputFault) ↔ (ending.now ≡ Ending.Fault)) }
    ensures fault { TellsFault (S.faults out.old) (S.faults out.new) (S.at_fault out.new)
        (S.written out.new) result }
{
    let text = ending_in(form, alloc, races, ending, names)?;
    write_lines(out, text.items())?;
    Ok(check_status(races, ending))
}

impl<'a> Report for CheckReport<'a> {
    ghost use Rattle.rd_check_command.specs.Checked.{check_outcome};
    ghost use Rattle.rd_json.specs.Forms.{fault_in};

    ghost outcome = { λ _ start walked. check_outcome start.check.form start.check.spec.now walked };

    ghost unopened = { λ start. fault_in start.check.form };

    fn unopened_text(&self) -> &'static [u8] {
        fault_in(self.check.form)
    }

    fn conclude<S: Sink>(
        &self,
        alloc: Global,
        names: &Roster,
        ending: WalkEnd,
        out: &mut S,
    ) -> Result<Ended, Halt> {
        let ending = ending_of_report(self.check.races, &self.replayer, ending)?;
        write_ending(
            self.check.form,
            alloc,
            names,
            self.check.races,
            &ending,
            out,
        )
    }

    fn law_of_outcomes(&self) {}
}
