//! The commands `check` and `check-json`.
ghost use Rattle.std.specs.Prelude.{◌≡◌, ◌≢◌, ◌<◌, ◌≤◌, ◌^◌, ◌++◌, ℕ, nat_lt, List, length, AllPairs, IfOk, option_map};
ghost use Rattle.rd_base.specs.Limits.{AreUsable};
ghost use Rattle.rd_check_command.specs.Checked.{check_texts};
ghost use Rattle.rd_check_command.specs.Meanings.{check_meaning};
ghost use Rattle.rd_ecl.specs.Kinds.{kind_names, kinds_of};
ghost use Rattle.rd_io.specs.Inputs.{Source};
ghost use Rattle.rd_io.specs.Sinks.{Appends};
ghost use Rattle.rd_kinds.specs.Shipped.{shipped_kinds};
ghost use Rattle.rd_replay_command.specs.Replaying.{BeginWithBuiltIn};
ghost use Rattle.rd_walk.specs.Analysis.{TellsFaults};
ghost use Rattle.rd_walk.specs.Meanings.{Ran, Runs, report_meaning, seen};
ghost use Rattle.rd_walk.specs.Output.{IsTraceEnd, ended_status};

use crate::reports::CheckReport;
use rd_base::{Limits, NoMemory, Steps, Word};
use rd_ecl::Spec;
use rd_io::{Inputs, Sink};
use rd_json::Form;
use rd_kinds::shipped;
use rd_spec_command::{read_spec, refuse_unread};
use rd_walk::{Ended, Halt, TraceLines, Walker, report_named};
use std::alloc::Global;
use std::mem;
use std::sync::ledger::Ledger;

/// What is to be checked, and the form of the report.
#[derive(Clone, Copy)]
pub struct ToCheck<'a> {
    pub form: Form,
    /// the name of the trace
    pub trace: &'a Word,
    /// that of a specification of more kinds, where there is one
    pub specification: Option<&'a Word>,
}

/// Checks a trace whose objects are of these kinds.
fn check_over<I: Inputs, S: Sink, L: Ledger>(
    alloc: Global,
    spec: &Spec,
    asked: &ToCheck<'_>,
    inputs: &mut I,
    out: &mut S,
    limits: &Limits,
    steps: &mut Steps<L>,
) -> Result<Ended, Halt>
    requires usable { AreUsable limits.now }
    requires few { length spec.now < 2 ^ 32 }
    requires different { AllPairs (λ x y. x ≢ y) (kind_names (kinds_of spec.now)) }
    requires numbered { BeginWithBuiltIn (kinds_of spec.now) }

    // the report, and each fault is told as one
    ensures reports { (old : Source) → I.told inputs.old ≡ Some old → I.faults inputs.old < 2 ^ 63 →
        old.opens ≤ 2 ^ 63 →
        (new : Source) × (part : List ℕ) × (I.told inputs.new ≡ Some new)
        × Appends (S.written out.old) (S.written out.new) part
        × Runs (report_meaning (check_texts asked.now.form spec.now) (kinds_of spec.now) asked.now.trace.now) limits.now
        (nat_lt (I.faults inputs.old)
        (I.faults inputs.new)) old new part (ended_status result) steps.old steps.new }
    ensures ends { IfOk result IsTraceEnd }
    ensures faults { TellsFaults Ended.InputFault (I.faults inputs.old) (I.faults inputs.new)
        (S.faults out.old) (S.faults out.new) (S.at_fault out.new) (S.written out.new) result }
{
    let report = CheckReport::new(alloc, asked.form, spec)?;
    let mut walker = Walker::new(alloc, limits, spec, report)?;
    let ended = report_named(&TraceLines, &mut walker, asked.trace, inputs, out, steps);
    // what the walk held is left to the end of the process, which takes it back at once
    mem::forget(walker);
    ended
}

/// `check TRACE`
fn check_shipped<I: Inputs, S: Sink, L: Ledger>(
    alloc: Global,
    asked: &ToCheck<'_>,
    inputs: &mut I,
    out: &mut S,
    limits: &Limits,
    steps: &mut Steps<L>,
) -> Result<Ended, Halt>
    requires { AreUsable limits.now }
    ensures { Ran (check_meaning asked.now.form asked.now.trace.now None) limits.now
        (seen I.told I.faults inputs.old S.written S.faults S.at_fault out.old steps.old)
        (seen I.told I.faults inputs.new S.written S.faults S.at_fault out.new steps.new)
        (ended_status result) }
{
    // its type says that it fits 32 bits
    let _threads = limits.threads;
    let spec = shipped(alloc)?;
    check_over(alloc, &spec, asked, inputs, out, limits, steps)
}

/// The shipped kinds, then those of a specification.
fn with_shipped(alloc: Global, said: Spec) -> Result<Spec, NoMemory>
    ensures { IfOk result (λ spec. spec ≡ shipped_kinds ++ said) }
{
    match shipped(alloc)?.append(said) {
        Ok(spec) => Ok(spec),
        Err(_) => Err(NoMemory),
    }
}

/// `check TRACE SPEC`
fn check_with<I: Inputs, S: Sink, L: Ledger>(
    alloc: Global,
    asked: &ToCheck<'_>,
    file: &Word,
    inputs: &mut I,
    out: &mut S,
    limits: &Limits,
    steps: &mut Steps<L>,
) -> Result<Ended, Halt>
    requires { AreUsable limits.now }
    ensures { Ran (check_meaning asked.now.form asked.now.trace.now (Some file.now)) limits.now
        (seen I.told I.faults inputs.old S.written S.faults S.at_fault out.old steps.old)
        (seen I.told I.faults inputs.new S.written S.faults S.at_fault out.new steps.new)
        (ended_status result) }
{
    // its type says that it fits 32 bits
    let _threads = limits.threads;
    let said = match read_spec(alloc, file, inputs) {
        Ok(said) => said,
        Err(unread) => return refuse_unread(alloc, asked.form, &unread, out),
    };
    match with_shipped(alloc, said) {
        Ok(spec) => check_over(alloc, &spec, asked, inputs, out, limits, steps),
        Err(_) => Err(Halt::NoMemory),
    }
}

/// `check TRACE`, `check TRACE SPEC` and the same in another form: writes the races of a trace by the formulas of the kinds that are built
/// in, and of those of the specification, how many calls are reported, how the replay of the calls ends, and the verdict; or why a
/// line of the trace or of the specification is refused, or that a file can't be opened or read.
pub fn check<I: Inputs, S: Sink, L: Ledger>(
    alloc: Global,
    asked: &ToCheck<'_>,
    inputs: &mut I,
    out: &mut S,
    limits: &Limits,
    steps: &mut Steps<L>,
) -> Result<Ended, Halt>
    requires { AreUsable limits.now }
    ensures { Ran (check_meaning asked.now.form asked.now.trace.now
        (option_map (λ file. file.now) asked.now.specification)) limits.now
        (seen I.told I.faults inputs.old S.written S.faults S.at_fault out.old steps.old)
        (seen I.told I.faults inputs.new S.written S.faults S.at_fault out.new steps.new)
        (ended_status result) }
{
    match asked.specification {
        None => check_shipped(alloc, asked, inputs, out, limits, steps),
        Some(file) => check_with(alloc, asked, file, inputs, out, limits, steps),
    }
}
