//! Specifications from files, and the commands that write a text of their kinds.
ghost use Rattle.rd_spec_command.specs.Meanings.{said_meaning, LeavesSpec, ReadsSpec};
ghost use Rattle.std.specs.Prelude.{◌≡◌, ◌≢◌, ◌↔◌, Ok, ℕ, ◌<◌, ◌^◌, nat_lt, List, [], Err, Some, IfOk, IfErr, OnOk, OnErr};
ghost use Rattle.rd_ecl.specs.Specified.{SpecifiedKind};
ghost use Rattle.rd_base.specs.declared.limits.Limits.{Limits};
ghost use Rattle.rd_io.specs.Inputs.{Source, Goes, Rose};
ghost use Rattle.rd_io.specs.Sinks.{Appends};
ghost use Rattle.rd_kinds.specs.Shipped.{reserved_names};
ghost use Rattle.rd_print.specs.Printed.{spec_text};
ghost use Rattle.rd_reading.specs.Texts.{HasNewNames, IsSpecRefused, SpecSays};
ghost use Rattle.rd_reading.specs.declared.parsing.SpecRefused.{SpecRefused as Refusal};
ghost use Rattle.rd_walk.specs.Analysis.{TellsFault, TellsFaults, WritesFront};
ghost use Rattle.rd_walk.specs.Output.{IsOutput, IsSpecEnd, ended_status};
ghost use Rattle.rd_walk.specs.Meanings.{Ran, Runs, seen};
ghost use Rattle.rd_spec_command.specs.Specifications.{TellsUnread, accepted_outcome, refused_outcome, spec_status};

use rd_base::{MOST_SPEC_BYTES, Word};
use rd_ecl::Spec;
use rd_io::{FrontRefused, Inputs, Sink, read_front};
use rd_json::{Form, fault_in, refused_in};
use rd_kinds::reserved;
use rd_print::print;
use rd_reading::{ParseRefused, SpecCause, SpecRefused, parse};
use rd_walk::{Ended, Halt, write_line, write_lines};
use std::alloc::Global;

/// How many bytes of a file are read at most: one more than a text may have.
const MOST_BYTES: u32 = MOST_SPEC_BYTES + 1;

/// Why a specification isn't there.
#[derive(Drop)]
pub enum Unread {
    /// the file could not be opened or read
    Fault,
    /// its text is refused
    Refused(SpecRefused),
    /// memory ran out
    NoMemory,
}

/// Reads and judges the specification in a file, where the names of the shipped kinds and of those to come are taken.
pub fn read_spec<I: Inputs>(alloc: Global, file: &Word, inputs: &mut I) -> Result<Spec, Unread>
    // what was opened and taken
    ensures leaves { Goes (I.told inputs.old) (I.told inputs.new)
        (λ old new. old.opens < 2 ^ 63 → LeavesSpec file.now old new) }

    // the text says the specification, or is refused
    ensures said { IfOk result
        (λ said. Goes (I.told inputs.old) (I.told inputs.new) (λ old new. old.opens < 2 ^ 63 →
        (bytes : List ℕ) × ReadsSpec file.now old new bytes × SpecSays bytes reserved_names said)) }
    ensures refused { IfErr result
        (λ unread. (refused : Refusal) → unread ≡ Unread.Refused refused →
        Goes (I.told inputs.old) (I.told inputs.new) (λ old new. old.opens < 2 ^ 63 →
        (bytes : List ℕ) × ReadsSpec file.now old new bytes
        × IsSpecRefused bytes reserved_names refused)) }

    // and has names of its own
    ensures names { IfOk result (HasNewNames reserved_names) }

    // or the file could not be opened or read
    ensures fault { result ≡ Err Unread.Fault → Rose (I.faults inputs.old) (I.faults inputs.new) }
    ensures calm { result ≢ Err Unread.Fault → I.faults inputs.new ≡ I.faults inputs.old }
{
    let Ok(()) = inputs.open(file) else {
        return Err(Unread::Fault);
    };
    let text = match read_front(alloc, inputs, MOST_BYTES) {
        Ok(text) => text,
        Err(FrontRefused::Fault) => return Err(Unread::Fault),
        Err(FrontRefused::NoMemory) => return Err(Unread::NoMemory),
    };
    match parse(alloc, text.items(), &reserved()) {
        Ok(said) => Ok(said),
        Err(ParseRefused::Spec(refused)) => Err(Unread::Refused(refused)),
        Err(ParseRefused::NoMemory) => Err(Unread::NoMemory),
    }
}

/// What a command writes of the kinds that a specification says.
pub trait SpecReport {
    /// The text of these kinds.
    ghost text: { Self → List SpecifiedKind → List ℕ };

    /// Writes the text of a specification's kinds.
    fn write<S: Sink>(&self, alloc: Global, said: &Spec, out: &mut S) -> Result<(), Halt>
        ensures ok { OnOk result
            (Appends (S.written out.old) (S.written out.new) (text self.now said.now)) }
        ensures front { OnErr result (WritesFront (S.written out.old) (S.written out.new) []
            (text self.now said.now)) }
        ensures fault { TellsFault (S.faults out.old) (S.faults out.new) (S.at_fault out.new)
            (S.written out.new) result };
}

/// Their canonical text.
#[derive(Clone, Copy, PartialEq, Eq)]
pub struct CanonicalText;

impl SpecReport for CanonicalText {
    ghost use Rattle.rd_print.specs.Printed.{spec_text};

    ghost text = { λ _ kinds. spec_text kinds };

    fn write<S: Sink>(&self, alloc: Global, said: &Spec, out: &mut S) -> Result<(), Halt> {
        let text = print(alloc, said)?;
        write_lines(out, text.items())
    }
}

/// Writes what is to be written of an accepted specification.
fn accept<R: SpecReport, S: Sink>(
    alloc: Global,
    report: &R,
    said: &Spec,
    out: &mut S,
) -> Result<Ended, Halt>
    ensures output { (part : List ℕ) × Appends (S.written out.old) (S.written out.new) part
        × IsOutput (ended_status result) part
        (accepted_outcome (R.text report.now) said.now) }
    ensures clean { IfOk result (λ end. end ≡ Ended.Clean) }
    ensures fault { TellsFault (S.faults out.old) (S.faults out.new) (S.at_fault out.new)
        (S.written out.new) result }
{
    report.write(alloc, said, out)?;
    Ok(Ended::Clean)
}

/// How a command on a specification ended that told this cause against it.
fn refusal_status(cause: &SpecCause) -> Ended
    ensures status { ended_status (Ok result) ≡ spec_status cause.now }
    ensures ends { IsSpecEnd result }
    ensures read { result ≢ Ended.InputFault }
{
    match cause {
        SpecCause::Limit(_, _) => Ended::LimitReached,
        _ => Ended::SpecRefused,
    }
}

/// Writes in this form where and why a specification is refused.
fn refuse<S: Sink>(
    alloc: Global,
    form: Form,
    refused: &SpecRefused,
    out: &mut S,
) -> Result<Ended, Halt>
    ensures output { (part : List ℕ) × Appends (S.written out.old) (S.written out.new) part
        × IsOutput (ended_status result) part (refused_outcome form refused.now) }
    ensures ends { IfOk result IsSpecEnd }
    ensures read { IfOk result (λ end. end ≢ Ended.InputFault) }
    ensures fault { TellsFault (S.faults out.old) (S.faults out.new) (S.at_fault out.new)
        (S.written out.new) result }
{
    let line = refused_in(form, alloc, refused)?;
    write_line(out, line.items())?;
    Ok(refusal_status(&refused.cause))
}

/// Says in this form why a specification isn't there.
pub fn refuse_unread<S: Sink>(
    alloc: Global,
    form: Form,
    unread: &Unread,
    out: &mut S,
) -> Result<Ended, Halt>
    ensures output { (part : List ℕ) × Appends (S.written out.old) (S.written out.new) part
        × TellsUnread form unread.now (ended_status result) part }

    // each fault is told as one, and memory runs out only where the file was read
    ensures ends { IfOk result IsSpecEnd }
    ensures input { IfOk result
        (λ end. (end ≡ Ended.InputFault) ↔ (unread.now ≡ Unread.Fault)) }
    ensures memory { result ≡ Err Halt.NoMemory → unread.now ≢ Unread.Fault }
    ensures fault { TellsFault (S.faults out.old) (S.faults out.new) (S.at_fault out.new)
        (S.written out.new) result }
{
    match unread {
        Unread::Fault => {
            write_line(out, fault_in(form))?;
            Ok(Ended::InputFault)
        }
        Unread::Refused(refused) => refuse(alloc, form, refused, out),
        Unread::NoMemory => Err(Halt::NoMemory),
    }
}

/// What is written of the specification in a file, and of it alone, or where and why it is refused.
fn report_file<R: SpecReport, I: Inputs, S: Sink>(
    alloc: Global,
    report: &R,
    file: &Word,
    inputs: &mut I,
    out: &mut S,
) -> Result<Ended, Halt>
    // what is written and the status are the defined ones, whatever the limits on traces, and no step is counted
    ensures runs { (limits : Limits) (steps : ℕ) (old : Source) → I.told inputs.old ≡ Some old →
        I.faults inputs.old < 2 ^ 63 → old.opens < 2 ^ 63 →
        (new : Source) × (part : List ℕ) × (I.told inputs.new ≡ Some new)
        × Appends (S.written out.old) (S.written out.new) part
        × Runs (said_meaning (R.text report.now) file.now) limits
        (nat_lt (I.faults inputs.old) (I.faults inputs.new)) old new part
        (ended_status result) steps steps }

    // each fault is told as one
    ensures ends { IfOk result IsSpecEnd }
    ensures faults { TellsFaults Ended.InputFault (I.faults inputs.old) (I.faults inputs.new)
        (S.faults out.old) (S.faults out.new) (S.at_fault out.new) (S.written out.new) result }
{
    match read_spec(alloc, file, inputs) {
        Ok(said) => accept(alloc, report, &said, out),
        Err(unread) => refuse_unread(alloc, Form::Text, &unread, out),
    }
}

/// Reads the specification in a file, and writes this of its kinds, or where and why it is refused. No limit on traces is asked, and no
/// step is counted.
pub fn report_spec<R: SpecReport, I: Inputs, S: Sink>(
    alloc: Global,
    report: &R,
    file: &Word,
    inputs: &mut I,
    out: &mut S,
) -> Result<Ended, Halt>
    ensures { (limits : Limits) (steps : ℕ) → Ran (said_meaning (R.text report.now) file.now) limits
        (seen I.told I.faults inputs.old S.written S.faults S.at_fault out.old steps)
        (seen I.told I.faults inputs.new S.written S.faults S.at_fault out.new steps)
        (ended_status result) }
{
    report_file(alloc, report, file, inputs, out)
}

/// `spec SPEC`: writes the canonical text of a specification, or where and why it is refused.
pub fn spec<I: Inputs, S: Sink>(
    alloc: Global,
    file: &Word,
    inputs: &mut I,
    out: &mut S,
) -> Result<Ended, Halt>
    ensures { (limits : Limits) (steps : ℕ) → Ran (said_meaning spec_text file.now) limits
        (seen I.told I.faults inputs.old S.written S.faults S.at_fault out.old steps)
        (seen I.told I.faults inputs.new S.written S.faults S.at_fault out.new steps)
        (ended_status result) }
{
    report_spec(alloc, &CanonicalText, file, inputs, out)
}
