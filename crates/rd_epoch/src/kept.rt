//! What is kept of an access, and whether a clock counts it.
ghost use Rattle.std.specs.Prelude.{◌≡◌, ◌+◌, ◌≤◌, length};
ghost use Rattle.rd_epoch.specs.EpochParts.{is_heard, later_line_seen, latest_line};
ghost use Rattle.rd_epoch.specs.Epochs.{reads_of_one};

use rd_base::Steps;
use rd_clock::Clock;
use std::sync::ledger::Ledger;

/// What is kept of an access: its thread, its own number there, from 1, and the number of its line.
#[derive(Clone, Copy)]
pub(crate) struct Epoch {
    pub(crate) thread: u32,
    pub(crate) number: u32,
    pub(crate) line: u64,
}

/// Whether the clock counts the access. It takes one step.
#[inline(always)]
pub(crate) fn is_heard<L: Ledger>(epoch: &Epoch, clock: &Clock, steps: &mut Steps<L>) -> bool
    ensures value { result ≡ is_heard clock.now epoch.now }
    ensures cost { steps.new ≡ steps.old + 1 }
{
    clock.covers(epoch.thread, epoch.number, steps)
}

/// The later line of what was found before and an access, where there is one that the clock doesn't count.
#[inline(always)]
pub(crate) fn later_unheard<L: Ledger>(
    found: Option<u64>,
    kept: &Option<Epoch>,
    clock: &Clock,
    steps: &mut Steps<L>,
) -> Option<u64>
    ensures value { result ≡ latest_line clock.now found (reads_of_one kept.now) }
    ensures cost { steps.new ≡ steps.old + length (reads_of_one kept.now) }
{
    let Some(epoch) = kept else {
        return found;
    };
    if is_heard(epoch, clock, steps) {
        return found;
    }
    later_line_seen(found, epoch.line)
}

/// The later of what was found before and a line.
#[inline(always)]
pub(crate) fn later_line_seen(found: Option<u64>, line: u64) -> Option<u64>
    ensures { result ≡ later_line_seen found line }
{
    match found {
        Some(before) if line <= before => found,
        _ => Some(line),
    }
}
