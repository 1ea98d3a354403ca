//! Reading all logs.
ghost use Rattle.std.specs.Prelude.{◌≡◌, ◌∷◌, ◌++◌, [], ℕ, Ok, Err, IfErr, IfOk, OnOk, map};
ghost use Rattle.rd_logs.specs.WholeLogs.{log_of, log_texts, record_of};
ghost use Rattle.rd_weave.specs.Answers.{records_of};

use rd_base::NoMemory;
use rd_logs::{Log, LogRefused, ReadLog, read_log};
use std::alloc::Global;

/// Why logs aren't read.
#[derive(Clone, Copy, PartialEq, Eq)]
pub(crate) enum ReadRefused {
    /// the number of the log with the first bad line, from 0, and of that line, from 1
    BadLog(u32, u64),
    /// memory ran out
    NoMemory,
}

impl From<NoMemory> for ReadRefused {
    ghost use Rattle.std.specs.Prelude.{◌≡◌};
    ghost use Rattle.rd_weave.specs.declared.reading.ReadRefused.TheVariants.{NoMemory as MemoryRanOut};

    ghost from_gives = { λ _ refused. refused ≡ MemoryRanOut };

    fn from(_error: NoMemory) -> ReadRefused {
        ReadRefused::NoMemory
    }
}

// Reads the log with this number. Numbers are below 2^32; where they don't suffice, memory wouldn't either.
fn read_one(alloc: Global, number: usize, log: &Log) -> Result<ReadLog, ReadRefused>
    ensures ok { IfOk result (λ read. log_of log.now.bytes ≡ Ok (record_of read)) }
    ensures bad { IfErr result (λ refused. (bad line : ℕ) → refused ≡ ReadRefused.BadLog bad line → (bad ≡ number) × (log_of log.now.bytes ≡ Err line)) }
{
    match read_log(alloc, log.bytes.items()) {
        Ok(read) => Ok(read),
        Err(LogRefused::BadLine(line)) => match u32::try_from(number) {
            Ok(number) => Err(ReadRefused::BadLog(number, line)),
            Err(_) => Err(ReadRefused::NoMemory),
        },
        Err(LogRefused::NoMemory) => Err(ReadRefused::NoMemory),
    }
}

// Puts a log behind the others.
fn keep_log(read: &mut Vec<ReadLog>, log: ReadLog) -> Result<(), NoMemory>
    ensures { OnOk result (read.new.items ≡ read.old.items ++ log ∷ []) }
{
    read.push(log)?;
    Ok(())
}

/// Reads the logs, up to the first bad line.
pub(crate) fn read_all(alloc: Global, logs: &[Log]) -> Result<Vec<ReadLog>, ReadRefused>
    ensures ok { IfOk result (λ read. records_of (log_texts logs.now) ≡ Ok (map record_of read.items)) }
    ensures bad { IfErr result (λ refused. (log line : ℕ) → refused ≡ ReadRefused.BadLog log line →
        records_of (log_texts logs.now) ≡ Err (record { log = log; line = line })) }
{
    let mut read = Vec::new(alloc);
    for log in logs {
        let one = match read_one(alloc, read.len(), log) {
            Ok(one) => one,
            Err(refused) => return Err(refused),
        };
        keep_log(&mut read, one)?;
    }
    Ok(read)
}
