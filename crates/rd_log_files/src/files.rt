//! Reading logs from files.
ghost use Rattle.std.specs.Prelude.{◌≡◌, ◌≢◌, ◌<◌, ◌^◌, ◌+◌, ◌-◌, ◌++◌, ◌∷◌, [], None, Ok, Err, IfOk, IfErr, OnOk};
ghost use Rattle.rd_base.specs.Limits.{AreUsable};
ghost use Rattle.rd_io.specs.Inputs.{Goes, Rose};
ghost use Rattle.rd_log_files.specs.Gathered.{counted_log, first_limit};
ghost use Rattle.rd_log_files.specs.LogFiles.{LeavesFile, LeavesLogs, PassesIn, PassesLimit, ReadsFile, ReadsLogs};
ghost use Rattle.rd_logs.specs.WholeLogs.{log_texts};
ghost use Rattle.rd_log_files.specs.declared.unread.LogLimit.{LogLimit as Passed};

use crate::lines::read_lines;
use crate::unread::LogsUnread;
use rd_base::{Bytes, Limits, NoMemory, Word};
use rd_io::{Inputs, LineReader};
use rd_logs::Log;
use std::alloc::Global;

// Opens a file and reads it as the log with this number, where so many lines that aren't skipped came before it.
fn read_file<I: Inputs>(
    alloc: Global,
    limits: &Limits,
    log: u64,
    file: &Word,
    inputs: &mut I,
    events: &mut u32,
) -> Result<Log, LogsUnread>
    requires usable { AreUsable limits.now }
    ensures counted { IfOk result (λ text. counted_log limits.now log events.old text.bytes ≡ Ok events.new) }
    ensures read { IfOk result (λ text. Goes (I.told inputs.old) (I.told inputs.new)
        (λ old new. old.opens < 2 ^ 64 - 1 → ReadsFile file.now old new text.bytes)) }
    ensures limit { IfErr result (λ unread. (passed : Passed) → unread ≡ LogsUnread.Limit passed →
        Goes (I.told inputs.old) (I.told inputs.new) (λ old new. old.opens < 2 ^ 64 - 1 →
        PassesIn limits.now log events.old file.now old new passed)) }
    ensures leaves { Goes (I.told inputs.old) (I.told inputs.new)
        (λ old new. old.opens < 2 ^ 64 - 1 → LeavesFile limits.now log events.old file.now old new) }
    ensures fault { result ≡ Err LogsUnread.Fault → Rose (I.faults inputs.old) (I.faults inputs.new) }
    ensures calm { result ≢ Err LogsUnread.Fault → I.faults inputs.new ≡ I.faults inputs.old }
{
    let mut reader = LineReader::new(alloc, limits)?;
    let mut bytes = Bytes::new(alloc);
    let Ok(()) = inputs.open(file) else {
        return Err(LogsUnread::Fault);
    };
    read_lines(limits, log, &mut reader, inputs, events, &mut bytes)?;
    Ok(Log { bytes })
}

// Puts a log behind the others.
fn keep_log(logs: &mut Vec<Log>, log: Log) -> Result<(), NoMemory>
    ensures { OnOk result (logs.new.items ≡ logs.old.items ++ log ∷ []) }
{
    logs.push(log)?;
    Ok(())
}

/// Reads the logs in these files, one file after the other, each to its end. `first_limit` says which limit logs pass, if any; nothing more is
/// read or opened then. Else the logs are the files' bytes.
pub fn read_logs<I: Inputs>(
    alloc: Global,
    files: &[Word],
    inputs: &mut I,
    limits: &Limits,
) -> Result<Vec<Log>, LogsUnread>
    requires usable { AreUsable limits.now }

    // what was opened and taken
    ensures leaves { Goes (I.told inputs.old) (I.told inputs.new)
        (λ old new. old.opens < 2 ^ 63 → LeavesLogs limits.now files.now old new) }

    // the logs are the files' bytes, and pass no limit
    ensures read { IfOk result (λ logs. Goes (I.told inputs.old) (I.told inputs.new)
        (λ old new. old.opens < 2 ^ 63 → ReadsLogs files.now old new (log_texts logs.items))) }
    ensures within { IfOk result (λ logs. first_limit limits.now (log_texts logs.items) ≡ None) }

    // or they pass this limit first
    ensures limit { IfErr result (λ unread. (passed : Passed) → unread ≡ LogsUnread.Limit passed →
        Goes (I.told inputs.old) (I.told inputs.new)
        (λ old new. old.opens < 2 ^ 63 → PassesLimit limits.now files.now old new passed)) }

    // or a file could not be opened or read
    ensures fault { result ≡ Err LogsUnread.Fault → Rose (I.faults inputs.old) (I.faults inputs.new) }
    ensures calm { result ≢ Err LogsUnread.Fault → I.faults inputs.new ≡ I.faults inputs.old }
{
    let mut logs = Vec::new(alloc);
    let mut events = 0;
    for file in files {
        let number = logs.len() as u64 + 1;
        let log = read_file(alloc, limits, number, file, inputs, &mut events)?;
        keep_log(&mut logs, log)?;
    }
    Ok(logs)
}
