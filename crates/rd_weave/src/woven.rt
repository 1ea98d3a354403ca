//! Weaving.
ghost use Rattle.std.specs.Prelude.{◌≡◌, ◌≢◌, [], ℕ, List, IfOk, IfErr, map, true};
ghost use Rattle.rd_logs.specs.WholeLogs.{log_texts, record_of};
ghost use Rattle.rd_numbered_logs.specs.LogNames.{have_own_names};
ghost use Rattle.rd_numbered_logs.specs.LogsUnder.{logs_under};
ghost use Rattle.rd_turns.specs.NumberedLogs.{AreInRange, logs_by_numbers};
ghost use Rattle.rd_weave.specs.Answers.{records_answer, weave_answer};
ghost use Rattle.rd_weavings.specs.Alike.{AreAlike};
ghost use Rattle.rd_weavings.specs.Weavings.{HaveOwnThreads};
ghost use Rattle.rd_weave.specs.Answers.WeaveAnswer.{Bad, Stuck as StuckAt, Woven};

use crate::counts::{counts_of, is_left, no_counts, places_of};
use crate::lines::{TraceLines, woven_lines};
use crate::reading::{ReadRefused, read_all};
use rd_base::NoMemory;
use rd_logs::{Log, ReadLog};
use rd_numbered_logs::number_logs;
use rd_order::Places;
use rd_turns::{NumberedLogs, take_turns};
use rd_weavings::{law_of_alike_logs, law_of_ends};
use std::alloc::Global;

/// A trace that logs are woven into.
#[derive(Drop)]
pub struct Weaving {
    pub lines: TraceLines,
}

/// Why logs aren't woven.
#[derive(Drop)]
pub enum WeaveRefused {
    /// the first bad line: the number of its log, from 0, and its own, from 1; where a log has no header, the number of its lines and one
    BadLog(u32, u64),
    /// there is no weaving: how many events of each log were placed when no further one could be; none, where two logs are of one thread or two lines
    /// declare one object
    Stuck(Places),
    /// memory ran out
    NoMemory,
}

impl From<NoMemory> for WeaveRefused {
    ghost use Rattle.std.specs.Prelude.{◌≡◌};
    ghost use Rattle.rd_weave.specs.declared.woven.WeaveRefused.TheVariants.{NoMemory as MemoryRanOut};

    ghost from_gives = { λ _ refused. refused ≡ MemoryRanOut };

    fn from(_error: NoMemory) -> WeaveRefused {
        WeaveRefused::NoMemory
    }
}

// Weaves the logs that were read, by their numbers.
fn weave_read(
    alloc: Global,
    read: Vec<ReadLog>,
    numbered: &NumberedLogs,
) -> Result<Weaving, WeaveRefused>
    requires own { have_own_names (map record_of read.items) ≡ true }
    requires alike { AreAlike (logs_by_numbers numbered.now) (logs_under [] (map record_of read.items)) }
    requires range { AreInRange numbered.now }
    requires threads { HaveOwnThreads (logs_by_numbers numbered.now) }
    ensures woven { IfOk result (λ weaving. records_answer (map record_of read.items) ≡ Woven weaving.lines) }
    ensures stuck { IfErr result (λ refused. (counts : List ℕ) → refused ≡ WeaveRefused.Stuck counts → records_answer (map record_of read.items) ≡ StuckAt counts) }
    ensures read { IfErr result (λ refused. (log line : ℕ) → refused ≢ WeaveRefused.BadLog log line) }
{
    law_of_alike_logs();
    law_of_ends();
    let spots = take_turns(alloc, numbered)?;
    let counts = counts_of(alloc, spots.as_slice(), read.len())?;
    if is_left(read.as_slice(), counts.as_slice()) {
        let places = places_of(alloc, counts.as_slice())?;
        return Err(WeaveRefused::Stuck(places));
    }
    let lines = woven_lines(alloc, read, numbered.roots.as_slice(), spots.as_slice())?;
    Ok(Weaving { lines })
}

/// Weaves logs that threads kept for themselves into one trace: the header, the roots, the objects, and the events, of which at each turn the first log that
/// may gives its next one. Or it answers the first bad line; or, where there is no weaving, how far each log came. It takes time that is linear in the lines
/// and logs, but for the logarithm of how many logs may give.
pub fn weave(alloc: Global, logs: &[Log]) -> Result<Weaving, WeaveRefused>
    ensures woven { IfOk result (λ weaving. weave_answer (log_texts logs.now) ≡ Woven weaving.lines) }
    ensures bad { IfErr result (λ refused. (log line : ℕ) → refused ≡ WeaveRefused.BadLog log line →
        weave_answer (log_texts logs.now) ≡ Bad (record { log = log; line = line })) }
    ensures stuck { IfErr result (λ refused. (counts : List ℕ) → refused ≡ WeaveRefused.Stuck counts →
        weave_answer (log_texts logs.now) ≡ StuckAt counts) }
{
    let read = match read_all(alloc, logs) {
        Ok(read) => read,
        Err(ReadRefused::BadLog(log, line)) => return Err(WeaveRefused::BadLog(log, line)),
        Err(ReadRefused::NoMemory) => return Err(WeaveRefused::NoMemory),
    };
    let Some(numbered) = number_logs(alloc, read.as_slice())? else {
        let counts = no_counts(alloc, read.len())?;
        return Err(WeaveRefused::Stuck(counts));
    };
    weave_read(alloc, read, &numbered)
}
