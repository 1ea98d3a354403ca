//! What is written of logs that were read, or are not.
ghost use Rattle.std.specs.Prelude.{◌≡◌, ◌≢◌, ◌+◌, ℕ, List, All, Err, IfOk};
ghost use Rattle.rd_event.specs.Items.{IsSpellable};
ghost use Rattle.rd_event.specs.declared.items.Line.{Line as LineOf};
ghost use Rattle.rd_io.specs.Sinks.{Appends};
ghost use Rattle.rd_logs.specs.WholeLogs.{log_texts};
ghost use Rattle.rd_walk.specs.Analysis.{TellsFault};
ghost use Rattle.rd_walk.specs.Output.{IsOutput, ended_status, fault_outcome};
ghost use Rattle.rd_weave.specs.Answers.WeaveAnswer.{Bad, Stuck as StuckAt, Woven};
ghost use Rattle.rd_weave.specs.Answers.{weave_answer};
ghost use Rattle.rd_weave_command.specs.Outcomes.{IsWeaveEnd, answer_outcome, limit_outcome};

use crate::texts::{bad_log_text, log_limit_text, stuck_text};
use crate::writing::write_trace;
use rd_event::Line;
use rd_io::Sink;
use rd_log_files::LogLimit;
use rd_logs::Log;
use rd_walk::{Ended, Halt, write_line};
use rd_weave::{WeaveRefused, weave};
use std::alloc::Global;

// Writes that a line of a log is bad, by the numbers that weaving has for them.
fn refuse_bad<S: Sink>(alloc: Global, log: u32, line: u64, out: &mut S) -> Result<Ended, Halt>
    ensures output { (part : List ℕ) × Appends (S.written out.old) (S.written out.new) part
        × IsOutput (ended_status result) part
        (answer_outcome (Bad (record { log = log; line = line }))) }
    ensures refused { IfOk result (λ end. end ≡ Ended.LogRefused) }
    ensures fault { TellsFault (S.faults out.old) (S.faults out.new) (S.at_fault out.new)
        (S.written out.new) result }
{
    let text = bad_log_text(alloc, u64::from(log) + 1, line)?;
    write_line(out, text.items())?;
    Ok(Ended::LogRefused)
}

// Writes how far each log came.
fn refuse_stuck<S: Sink>(alloc: Global, counts: &[u32], out: &mut S) -> Result<Ended, Halt>
    ensures output { (part : List ℕ) × Appends (S.written out.old) (S.written out.new) part
        × IsOutput (ended_status result) part (answer_outcome (StuckAt counts.now)) }
    ensures refused { IfOk result (λ end. end ≡ Ended.LogRefused) }
    ensures fault { TellsFault (S.faults out.old) (S.faults out.new) (S.at_fault out.new)
        (S.written out.new) result }
{
    let text = stuck_text(alloc, counts)?;
    write_line(out, text.items())?;
    Ok(Ended::LogRefused)
}

// Writes a weaving.
fn write_woven<S: Sink>(alloc: Global, lines: &[Line], out: &mut S) -> Result<Ended, Halt>
    requires { All IsSpellable lines.now }
    ensures output { (part : List ℕ) × Appends (S.written out.old) (S.written out.new) part
        × IsOutput (ended_status result) part (answer_outcome (Woven lines.now)) }
    ensures clean { IfOk result (λ end. end ≡ Ended.Clean) }
    ensures fault { TellsFault (S.faults out.old) (S.faults out.new) (S.at_fault out.new)
        (S.written out.new) result }
{
    write_trace(alloc, lines, out)?;
    Ok(Ended::Clean)
}

/// Weaves logs, and writes the weaving, or that there is none.
pub(crate) fn write_answer<S: Sink>(alloc: Global, logs: &[Log], out: &mut S) -> Result<Ended, Halt>
    ensures output { (part : List ℕ) × Appends (S.written out.old) (S.written out.new) part
        × IsOutput (ended_status result) part (answer_outcome (weave_answer (log_texts logs.now))) }
    ensures ends { IfOk result IsWeaveEnd }
    ensures input { IfOk result (λ end. end ≢ Ended.InputFault) }
    ensures fault { TellsFault (S.faults out.old) (S.faults out.new) (S.at_fault out.new)
        (S.written out.new) result }
{
    match weave(alloc, logs) {
        Ok(weaving) => write_woven(alloc, weaving.lines.items(), out),
        Err(WeaveRefused::BadLog(log, line)) => refuse_bad(alloc, log, line, out),
        Err(WeaveRefused::Stuck(counts)) => refuse_stuck(alloc, counts.items(), out),
        Err(WeaveRefused::NoMemory) => Err(Halt::NoMemory),
    }
}

/// Writes the limit that a log passes.
pub(crate) fn refuse_limit<S: Sink>(
    alloc: Global,
    passed: &LogLimit,
    out: &mut S,
) -> Result<Ended, Halt>
    ensures output { (part : List ℕ) × Appends (S.written out.old) (S.written out.new) part
        × IsOutput (ended_status result) part (limit_outcome passed.now) }
    ensures limit { IfOk result (λ end. end ≡ Ended.LimitReached) }
    ensures fault { TellsFault (S.faults out.old) (S.faults out.new) (S.at_fault out.new)
        (S.written out.new) result }
{
    let text = log_limit_text(alloc, passed)?;
    write_line(out, text.items())?;
    Ok(Ended::LimitReached)
}

/// Writes that a file could not be opened or read.
pub(crate) fn tell_fault<S: Sink>(out: &mut S) -> Result<Ended, Halt>
    ensures output { (part : List ℕ) × Appends (S.written out.old) (S.written out.new) part
        × IsOutput (ended_status result) part fault_outcome }
    ensures failed { IfOk result (λ end. end ≡ Ended.InputFault) }
    ensures only { result ≢ Err Halt.NoMemory }
    ensures fault { TellsFault (S.faults out.old) (S.faults out.new) (S.at_fault out.new)
        (S.written out.new) result }
{
    write_line(out, b"fault input\n")?;
    Ok(Ended::InputFault)
}
