//! What `epochs` writes behind the last line of a trace.
ghost use Rattle.std.specs.Prelude.{◌≡◌, ◌++◌, IfOk};
ghost use Rattle.rd_epochs_command.specs.Firsts.{last_line};
ghost use Rattle.rd_object.specs.declared.shapes.ReplayEnd.TheVariants.{NotShipped};
ghost use Rattle.rd_report.specs.Endings.{ending_of_report};
ghost use Rattle.rd_report.specs.Texts.{races_line};
ghost use Rattle.rd_wf.specs.Roster.{names_in};

use crate::watching::FirstRaces;
use rd_base::{Bytes, NoMemory, append_number};
use rd_io::Sink;
use rd_object::ReplayEnd;
use rd_report::{Ending, check_status, ending_text};
use rd_walk::{Ended, Halt, Report, WalkEnd, write_lines};
use rd_wf::Roster;
use std::alloc::Global;

// How many variables raced.
fn races_text(alloc: Global, firsts: u64) -> Result<Bytes, NoMemory>
    ensures { IfOk result (λ text. text ≡ races_line firsts) }
{
    let mut text = Bytes::new(alloc);
    text.append(b"races ")?;
    append_number(&mut text, firsts)?;
    text.push(b'\n')?;
    Ok(text)
}

// How a report without a replay ends.
fn ending_of(firsts: u64, ending: WalkEnd) -> Ending
    ensures { result ≡ ending_of_report firsts NotShipped ending }
{
    match ending {
        WalkEnd::End => Ending::End {
            replay: ReplayEnd::NotShipped,
            shown: false,
        },
        WalkEnd::Refused { line, cause } => Ending::Refused { line, cause },
        WalkEnd::Fault => Ending::Fault,
    }
}

// What stands behind the first races. The roster has the names of the threads.
fn last_text(alloc: Global, firsts: u64, ending: WalkEnd, names: &Roster) -> Result<Bytes, NoMemory>
    ensures { IfOk result (λ text. text ≡ races_line firsts ++ last_line (names_in names.now) ending) }
{
    match ending {
        WalkEnd::End => races_text(alloc, firsts),
        WalkEnd::Refused { line, cause } => {
            ending_text(alloc, firsts, &Ending::Refused { line, cause }, names)
        }
        WalkEnd::Fault => ending_text(alloc, firsts, &Ending::Fault, names),
    }
}

impl Report for FirstRaces {
    ghost use Rattle.rd_epochs_command.specs.Firsts.{epochs_outcome};
    ghost use Rattle.rd_io.specs.Inputs.{fault_line};

    ghost outcome = { λ _ _. epochs_outcome };

    ghost unopened = { λ _. fault_line };

    fn unopened_text(&self) -> &'static [u8] {
        b"fault input\n"
    }

    fn conclude<S: Sink>(
        &self,
        alloc: Global,
        names: &Roster,
        ending: WalkEnd,
        out: &mut S,
    ) -> Result<Ended, Halt> {
        let text = last_text(alloc, self.firsts, ending, names)?;
        write_lines(out, text.items())?;
        Ok(check_status(self.firsts, &ending_of(self.firsts, ending)))
    }

    fn law_of_outcomes(&self) {}
}
