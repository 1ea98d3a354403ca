//! How many events of each log are placed.
ghost use Rattle.std.specs.Prelude.{◌≡◌, ◌+◌, ◌<◌, ◌≤◌, ◌^◌, ℕ, IfOk, Some, false, true, length, map, replicate, slice_get, slice_index_or, take};
ghost use Rattle.std.specs.List.{range_with_len};
ghost use Rattle.rd_logs.specs.WholeLogs.{record_of};
ghost use Rattle.rd_weave.specs.Answers.{events_of_log};
ghost use Rattle.rd_weavings.specs.declared.spots.Spot.{Spot as SpotOf};
ghost use Rattle.rd_weavings.specs.Logs.{given};

use rd_base::NoMemory;
use rd_logs::ReadLog;
use rd_order::Places;
use rd_weavings::Spot;
use std::alloc::Global;

/// How many events of each of so many logs stand at the spots, where each is the next one of its log.
pub(crate) fn counts_of(alloc: Global, spots: &[Spot], logs: usize) -> Result<Vec<u32>, NoMemory>
    requires { (j : ℕ) (s : SpotOf) → slice_get spots.now j ≡ Some s → (s.log < logs) × (s.place ≡ given (take j spots.now) s.log) × (s.place + 1 < 2 ^ 32) }
    ensures { IfOk result (λ counts. counts.items ≡ map (given spots.now) (range_with_len 0 logs)) }
{
    let mut counts = vec![in alloc; 0u32; logs]?;
    for spot in spots {
        counts[spot.log as usize] = spot.place + 1;
    }
    Ok(counts)
}

/// Whether a log has more events than these.
pub(crate) fn is_left(logs: &[ReadLog], counts: &[u32]) -> bool
    requires { length counts.now ≡ length logs.now }
    ensures none { result ≡ false → (l : ℕ) → l < length logs.now → length (events_of_log (map record_of logs.now) l) ≤ slice_index_or counts.now l 0 }
    ensures some { result ≡ true → (l : ℕ) × (l < length logs.now) × (slice_index_or counts.now l 0 < length (events_of_log (map record_of logs.now) l)) }
{
    for place in 0..logs.len() {
        if (counts[place] as usize) < logs[place].events.len() {
            return true;
        }
    }
    false
}

/// The counts as they are told.
pub(crate) fn places_of(alloc: Global, counts: &[u32]) -> Result<Places, NoMemory>
    ensures { IfOk result (λ places. places ≡ counts.now) }
{
    let mut places = Places::new(alloc);
    for count in counts {
        places.push(*count)?;
    }
    Ok(places)
}

/// Those of so many logs of which no event is placed.
pub(crate) fn no_counts(alloc: Global, logs: usize) -> Result<Places, NoMemory>
    ensures { IfOk result (λ places. places ≡ replicate logs 0) }
{
    let counts = vec![in alloc; 0u32; logs]?;
    places_of(alloc, &counts)
}
