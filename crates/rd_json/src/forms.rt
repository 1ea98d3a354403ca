//! The forms in which a report is written.
ghost use Rattle.std.specs.Prelude.{◌≡◌, ◌≤◌, ◌++◌, IfOk, OnOk, length};
ghost use Rattle.rd_json.specs.Forms.{EndLinesIn, ending_in, fault_in, race_in, refused_in};
ghost use Rattle.rd_report.specs.Races.{IsFailedRace, race_formula, told_by};
ghost use Rattle.rd_report.specs.Texts.{naming_in};
ghost use Rattle.rd_wf.specs.Roster.{names_in};

use crate::endings::ending_json;
use crate::races::append_race_json;
use crate::refusals::spec_refused_json;
use rd_base::{Bytes, NoMemory};
use rd_ecl::Spec;
use rd_reading::{SpecRefused, spec_refused_line};
use rd_report::{Ending, RaceEnds, append_race as append_race_text, ending_text};
use rd_store::Race;
use rd_wf::Roster;
use std::alloc::Global;

/// The form in which a report is written.
#[derive(Clone, Copy, PartialEq, Eq)]
pub enum Form {
    /// lines of text
    Text,
    /// a line with one JSON object for each race, and one for the ending
    Json,
    /// the ending alone, as lines of text
    EndingOnly,
}

// The ends of a text of at most one line, behind which nothing stands.
fn all_of(text: &Bytes) -> RaceEnds
    ensures { (result.later ≡ length text.now) × (result.earlier ≡ length text.now) }
{
    let end = text.items().len();
    RaceEnds {
        later: end,
        earlier: end,
    }
}

/// Puts a race behind the text in this form. The line of the formula is handed in. The numbers in the race are known to the specification
/// and the roster, and its kind and its methods are those of its calls. After want of memory the text may have a front of it.
#[tactic(auto, using(rd_report::proofs::FailedLemmas::failed_is_known, rd_report::proofs::FailedLemmas::failed_lines, crate::proofs::FailedLemmas::failed_object))]
pub fn append_race(
    text: &mut Bytes,
    form: Form,
    alloc: Global,
    race: &Race,
    formula: &[u8],
    spec: &Spec,
    names: &Roster,
) -> Result<RaceEnds, NoMemory>
    requires failed { IsFailedRace spec.now (naming_in names.now) race.now }
    requires formula { formula.now ≡ race_formula spec.now race.now }
    ensures text { OnOk result
        (text.new ≡ text.old ++ race_in form spec.now (naming_in names.now)
        (told_by race.now.later.value) (told_by race.now.earlier.value)) }
    ensures ends { IfOk result (λ ends. (ends.later ≤ ends.earlier) × (ends.earlier ≤ length text.new)) }
    ensures lines { IfOk result (EndLinesIn form text.old spec.now (naming_in names.now)
        (told_by race.now.later.value) (told_by race.now.earlier.value)) }
{
    match form {
        Form::Text => append_race_text(text, race, formula, spec, names),
        Form::Json => {
            append_race_json(text, alloc, race, formula, spec, names)?;
            Ok(all_of(text))
        }
        Form::EndingOnly => Ok(all_of(text)),
    }
}

/// How the lines of a trace end, in this form. The roster has the names of the threads.
pub fn ending_in(
    form: Form,
    alloc: Global,
    races: u64,
    ending: &Ending,
    names: &Roster,
) -> Result<Bytes, NoMemory>
    ensures { IfOk result (λ text. text ≡ ending_in form (names_in names.now) races ending.now) }
{
    match form {
        Form::Text | Form::EndingOnly => ending_text(alloc, races, ending, names),
        Form::Json => ending_json(alloc, races, ending, names),
    }
}

/// What is written in this form where a file can't be opened or a specification not be read. It takes no memory.
pub fn fault_in(form: Form) -> &'static [u8]
    ensures { result.now ≡ fault_in form }
{
    match form {
        Form::Text | Form::EndingOnly => b"fault input\n",
        Form::Json => b"{\"ending\":\"fault input\"}\n",
    }
}

/// Where and why a specification is refused, in this form.
pub fn refused_in(form: Form, alloc: Global, refused: &SpecRefused) -> Result<Bytes, NoMemory>
    ensures { IfOk result (λ text. text ≡ refused_in form refused.now) }
{
    match form {
        Form::Text | Form::EndingOnly => spec_refused_line(alloc, refused),
        Form::Json => spec_refused_json(alloc, refused),
    }
}
