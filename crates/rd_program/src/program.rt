//! The call that the program makes of the system.
ghost use Rattle.std.specs.Prelude.{◌≡◌, ◌⊎◌, ◌<◌, ℕ};
ghost use Rattle.std.specs.Process.{exit_status};
ghost use Rattle.rd_base.specs.Limits.{standard};
ghost use Rattle.rd_run.specs.Commands.{command_of, meaning_of};
ghost use Rattle.rd_walk.specs.Meanings.{Ran, seen};
ghost use Rattle.rd_walk.specs.Output.{code_of};
ghost use Rattle.rd_walk.specs.declared.status.Status.{Status as StatusOf};

use crate::arguments::{WordsRefused, words};
use crate::files::FileInputs;
use crate::output::OutputSink;
use rd_base::{Limits, Steps, Word};
use rd_io::{Inputs, Sink};
use rd_run::{Status, run};
use std::alloc::Global;
use std::env::Env;
use std::marker::Brand;
use std::process::ExitCode;
use std::rt::Files;
use std::sync::ledger::{Blank, Ledger};

/// What the program ends with where the system doesn't give the words of the command line.
const NO_WORDS: u8 = 20;

/// What the program ends with: the number of the status.
fn exit_code(status: Status) -> ExitCode
    ensures { exit_status result ≡ code_of status }
{
    ExitCode::from(status.code())
}

/// Runs the command that the words ask for with the limits of the program and a counter of steps of its own, and ends with the number of the
/// status of `run`.
pub fn run_words<I: Inputs, S: Sink, L: Ledger>(
    alloc: Global,
    words: &[Word],
    inputs: &mut I,
    out: &mut S,
    blank: Blank,
) -> ExitCode
    requires name { blank.name ≡ L.name }
    requires parts { blank.parts ≡ L.parts }
    requires some { 0 < blank.parts }
    ensures ran { (status : StatusOf) × (steps : ℕ) × (exit_status result ≡ code_of status)
        × Ran (meaning_of words.now (command_of words.now)) standard
        (seen I.told I.faults inputs.old S.written S.faults S.at_fault out.old 0)
        (seen I.told I.faults inputs.new S.written S.faults S.at_fault out.new steps) status }
{
    let mut steps = Steps::<L>::new(blank);
    let limits = Limits::standard();
    exit_code(run(alloc, words, inputs, out, &limits, &mut steps))
}

/// Runs the command of the words over real files and standard output.
fn run_on_system<R: Files + Print>(rt: &R, alloc: Global, words: &[Word]) -> ExitCode
    ensures { (status : StatusOf) × (exit_status result ≡ code_of status) }
{
    let mut inputs = FileInputs::new(rt);
    let mut out = OutputSink::new(rt);
    run_words::<_, _, Brand>(alloc, words, &mut inputs, &mut out, Blank::new(1))
}

/// Runs the command that the words of the command line ask for over real files and standard output, with the limits of the program. It ends
/// with the number of the status of `run`; with 20 where the system doesn't give the words, and with 8 where memory ran out for them, with nothing
/// written.
pub fn run_program<R: Files + Print + Env>(rt: &R, alloc: Global) -> ExitCode
    ensures { (exit_status result ≡ 20) ⊎ ((status : StatusOf) × (exit_status result ≡ code_of status)) }
{
    match words(rt, alloc) {
        Ok(words) => run_on_system(rt, alloc, words.as_slice()),
        Err(WordsRefused::NoMemory) => exit_code(Status::NoMemory),
        Err(WordsRefused::NotGiven) => ExitCode::from(NO_WORDS),
    }
}
