//! The call that the program makes.
ghost use Rattle.std.specs.Prelude.{◌≡◌, ◌⊎◌, ℕ, ◌+◌, ◌<◌, ◌≤◌, ◌^◌, List, Option, Some, IfOk, IfErr};
ghost use Rattle.rd_base.specs.Limits.{AreUsable};
ghost use Rattle.rd_base.specs.declared.limits.Limits.{Limits as LimitsOf};
ghost use Rattle.rd_check_command.specs.Checked.{check_bound};
ghost use Rattle.rd_check_command.specs.Meanings.{AreKinds};
ghost use Rattle.rd_check_command.specs.Reports.{IsChecked};
ghost use Rattle.rd_ecl.specs.Kinds.{kinds_of};
ghost use Rattle.rd_ecl.specs.Specified.{SpecifiedKind};
ghost use Rattle.rd_io.specs.Inputs.{Source, file_of};
ghost use Rattle.rd_io.specs.Lines.Stop.{end};
ghost use Rattle.rd_io.specs.Sinks.{Appends};
ghost use Rattle.rd_json.specs.declared.forms.Form.{Form};
ghost use Rattle.rd_run.specs.Commands.{AskForCheck, command_of, meaning_of, usage_meaning, usage_outcome};
ghost use Rattle.rd_walk.specs.Analysis.{TellsFault};
ghost use Rattle.rd_walk.specs.Meanings.{Ran, seen, seen_alone};
ghost use Rattle.rd_walk.specs.Output.{IsOutput, ended_status};
ghost use Rattle.rd_walk.specs.Walk.{entries_of, step_bound, trace_of};

use crate::commands::{Command, command_of, file_words, nth_word, third_word};
use rd_adjacent_command::adjacent;
use rd_base::{Limits, Steps, Word};
use rd_check_command::{ToCheck, check};
use rd_epochs_command::epochs;
use rd_gen_command::{generate, generate_text};
use rd_io::{Inputs, Sink};
use rd_points_command::points;
use rd_reorder_command::reorder;
use rd_replay_command::replay;
use rd_spec_command::{kind, spec};
use rd_walk::{Ended, Halt, Status, ended_status, write_line};
use rd_weave_command::weave;
use std::alloc::Global;
use std::sync::ledger::Ledger;

/// Writes that the words match no command.
fn write_usage<S: Sink>(out: &mut S) -> Result<Ended, Halt>
    ensures output { (part : List ℕ) × Appends (S.written out.old) (S.written out.new) part
        × IsOutput (ended_status result) part usage_outcome }
    ensures usage { IfOk result (λ end. end ≡ Ended.Usage) }
    ensures only { IfErr result (λ halt. halt ≡ Halt.OutputFault) }
    ensures fault { TellsFault (S.faults out.old) (S.faults out.new) (S.at_fault out.new)
        (S.written out.new) result }
{
    write_line(out, b"refused usage\n")?;
    Ok(Ended::Usage)
}

/// Says that the words match no command.
fn refuse_usage<S: Sink>(out: &mut S) -> Result<Ended, Halt>
    ensures { (limits : LimitsOf) (told : Option Source) (faults steps : ℕ) → Ran usage_meaning limits
        (seen_alone told faults S.written S.faults S.at_fault out.old steps)
        (seen_alone told faults S.written S.faults S.at_fault out.new steps)
        (ended_status result) }
{
    write_usage(out)
}

/// Does what the words ask for.
fn obey<I: Inputs, S: Sink, L: Ledger>(
    alloc: Global,
    words: &[Word],
    inputs: &mut I,
    out: &mut S,
    limits: &Limits,
    steps: &mut Steps<L>,
) -> Result<Ended, Halt>
    requires { AreUsable limits.now }
    ensures { Ran (meaning_of words.now (command_of words.now)) limits.now
        (seen I.told I.faults inputs.old S.written S.faults S.at_fault out.old steps.old)
        (seen I.told I.faults inputs.new S.written S.faults S.at_fault out.new steps.new)
        (ended_status result) }
{
    let Some(command) = command_of(words) else {
        return refuse_usage(out);
    };
    let file = nth_word(words, 1);
    match command {
        Command::Check(form) => {
            let asked = ToCheck {
                form,
                trace: file,
                specification: third_word(words),
            };
            check(alloc, &asked, inputs, out, limits, steps)
        }
        Command::Replay => replay(alloc, file, inputs, out, limits, steps),
        Command::Epochs => epochs(alloc, file, inputs, out, limits, steps),
        Command::Reorder(number) => reorder(alloc, file, number, inputs, out, limits, steps),
        Command::Adjacent(first, second) => {
            adjacent(alloc, file, (first, second), inputs, out, limits, steps)
        }
        Command::Spec => spec(alloc, file, inputs, out),
        Command::Points => points(alloc, file, inputs, out),
        Command::Weave => weave(alloc, file_words(words), inputs, out, limits),
        Command::Kind(number) => kind(alloc, number, out),
        Command::Gen(number, count) => generate(alloc, number, count, out, limits, steps),
        Command::GenText(number, count) => generate_text(alloc, number, count, out),
    }
}

/// Runs the command that the words of the command line ask for, without the program's own name: `check TRACE` and `check TRACE SPEC`,
/// which report the races of a trace by the formulas of the kinds that are built in, and of those of a specification, and say whether the
/// recorded results are those of the objects; `check-json TRACE` and `check-json TRACE SPEC`, the same as lines with one JSON object each;
/// `replay TRACE`, which says this alone, and where it is so what the objects hold in the end; `reorder TRACE NUMBER`, which writes the
/// trace in the order of its events that the number picks; `adjacent TRACE LINE LINE`, which writes it with the calls of two lines side by side, or
/// the path that orders them; `epochs TRACE`, which writes the first race of each variable of a trace of reads and writes;
/// `spec SPEC`, which writes the canonical text of a specification, and `points SPEC`, which writes the access points of its kinds, or where
/// and why it is refused; `weave FILE ..`, which writes the trace that logs of threads are woven into, or why there is none; `kind NAME`,
/// which writes the canonical text of a kind that is built in; `gen NUMBER COUNT`, which checks the trace of a number with so many calls and
/// writes how many lines and calls it has and the ending of the report; or
/// `gen-text NUMBER COUNT`, which writes that trace. Any other words write `refused usage`. Each line is handed to the output by itself, with its line feed.
pub fn run<I: Inputs, S: Sink, L: Ledger>(
    alloc: Global,
    words: &[Word],
    inputs: &mut I,
    out: &mut S,
    limits: &Limits,
    steps: &mut Steps<L>,
) -> Status
    requires { AreUsable limits.now }

    // The headline. Under the words of `check` and `check-json`, where the files are there and neither a read nor a write failed, unless memory
    // ran out: of the lines of the trace those are accepted that say an item which may follow, up to the first that doesn't; what is written has,
    // for each call among their events with which an earlier one on its object races (they don't commute, and no order of the run ties
    // the two), the latest such call, both clocks, and the formula that the two fail; then how many calls are reported and how the replay ends, and
    // `deterministic` only where every order of the events that keeps what comes before what ends the same; or why a line is refused; and the
    // status says which it was. The steps on clocks are bounded by those of the accepted lines.
    ensures headline { (form : Form) (trace : List ℕ) (file : Option (List ℕ)) →
        AskForCheck words.now form trace file →
        (old : Source) → I.told inputs.old ≡ Some old → I.faults inputs.old < 2 ^ 63 →
        old.opens < 2 ^ 63 → S.faults out.old < 2 ^ 63 →
        I.faults inputs.new ≡ I.faults inputs.old → S.faults out.new ≡ S.faults out.old →
        (kinds : List SpecifiedKind) (bytes : List ℕ) → AreKinds old file kinds →
        file_of old.files trace ≡ Some bytes →
        (part : List ℕ) × Appends (S.written out.old) (S.written out.new) part
        × ((result ≡ Status.NoMemory)
        ⊎ IsChecked form kinds limits.now end bytes (record { text = part; status = result }))
        × (steps.new ≤ steps.old + step_bound (check_bound kinds)
        (entries_of (trace_of (kinds_of kinds) limits.now end bytes))) }

    // Each command, whatever the inputs and the output tell: what is written, the status, what is opened and taken, the steps, and each fault
    ensures ran { Ran (meaning_of words.now (command_of words.now)) limits.now
        (seen I.told I.faults inputs.old S.written S.faults S.at_fault out.old steps.old)
        (seen I.told I.faults inputs.new S.written S.faults S.at_fault out.new steps.new) result }
{
    ended_status(obey(alloc, words, inputs, out, limits, steps))
}
