//! The open reads of a variable.
ghost use Rattle.std.specs.Prelude.{◌≡◌, ◌≢◌, ◌+◌, ◌<◌, ◌≤◌, true, [], ◌∷◌, ◌++◌, IsPermutation, length, slice_get, if◌then◌else◌, vec_len, vec_capacity, IfSome, OnOk, OnErr};
ghost use Rattle.rd_epoch.specs.EpochParts.{AreStill, latest_line, unheard};
ghost use Rattle.rd_epoch.specs.Epochs.{reads_of_one};

use crate::kept::{Epoch, is_heard, later_line_seen, later_unheard};
use rd_base::{NoMemory, Steps};
use rd_clock::Clock;
use std::alloc::Global;
use std::marker::Model;
use std::sync::ledger::Ledger;

// The latest line of these that the clock doesn't count, from what was found before.
// kept out of line, so that a variable with one open read doesn't pay for it
#[inline(never)]
fn latest_line<L: Ledger>(
    found: Option<u64>,
    epochs: &[Epoch],
    clock: &Clock,
    steps: &mut Steps<L>,
) -> Option<u64>
    ensures value { result ≡ latest_line clock.now found epochs.now }
    ensures cost { steps.new ≡ steps.old + length epochs.now }
{
    let mut latest = found;
    for epoch in epochs {
        if !is_heard(epoch, clock, steps) {
            latest = later_line_seen(latest, epoch.line);
        }
    }
    latest
}

// Drops those that the clock counts.
fn keep_unheard<L: Ledger>(epochs: &mut Vec<Epoch>, clock: &Clock, steps: &mut Steps<L>)
    ensures items { epochs.new.items ≡ unheard clock.now epochs.old.items }
    ensures room { vec_capacity epochs.new ≡ vec_capacity epochs.old }
    ensures fewer { vec_len epochs.new ≤ vec_len epochs.old }
    ensures cost { steps.new ≡ steps.old + length epochs.old.items }
{
    let mut kept = 0;
    for place in 0..epochs.len() {
        let epoch = epochs[place];
        if !is_heard(&epoch, clock, steps) {
            epochs[kept] = epoch;
            kept += 1;
        }
    }
    epochs.truncate(kept);
}

// Where the thread's own read stands, if it is of a later line than this one.
#[inline(always)]
fn own_place(epochs: &[Epoch], thread: u32, learnt: u64) -> Option<usize>
    ensures { IfSome result (λ place. (place < length epochs.now)
        × IfSome (slice_get epochs.now place) (λ own. (own.thread ≡ thread) × (learnt < own.line))) }
{
    for (place, epoch) in epochs.iter().enumerate() {
        if epoch.thread == thread && epoch.line > learnt {
            return Some(place);
        }
    }
    None
}

// Whether there is a read that the clock doesn't count.
#[inline(always)]
fn stays<L: Ledger>(read: &Option<Epoch>, clock: &Clock, steps: &mut Steps<L>) -> bool
    ensures value { unheard clock.now (reads_of_one read.now) ≡ (if result then reads_of_one read.now else []) }
    ensures some { result ≡ true → reads_of_one read.now ≢ [] }
    ensures cost { steps.new ≡ steps.old + length (reads_of_one read.now) }
{
    match read {
        Some(epoch) => !is_heard(epoch, clock, steps),
        None => false,
    }
}

// Adds a read beside others, where it is told whether the first of them stays.
// kept out of line, so that a variable with one open read doesn't pay for it
#[inline(never)]
#[tactic(auto, using(crate::proofs::ReadLemmas::unheard_joined))]
fn add_beside<L: Ledger>(
    first: &mut Option<Epoch>,
    more: &mut Vec<Epoch>,
    stays: bool,
    now: &Epoch,
    clock: &Clock,
    steps: &mut Steps<L>,
) -> Result<(), NoMemory>
    requires first { unheard clock.now (reads_of_one first.old) ≡ (if stays then reads_of_one first.old else []) }
    ensures items { OnOk result (reads_of_one first.new ++ more.new.items
        ≡ unheard clock.now (reads_of_one first.old ++ more.old.items) ++ now.now ∷ []) }
    ensures first { OnErr result (first.new ≡ first.old) }
    ensures more { OnErr result (more.new.items ≡ more.old.items) }
    ensures cost { steps.new ≤ steps.old + length more.old.items }
{
    more.reserve(1)?;
    keep_unheard(more, clock, steps);
    if stays {
        more.push_reserved(*now);
    } else if more.is_empty() {
        *first = Some(*now);
    } else {
        *first = None;
        more.push_reserved(*now);
    }
    Ok(())
}

/// The open reads of a variable: one lies in the value, and a second one takes an allocation. Contracts see them as their list.
#[derive(Drop)]
pub(crate) struct Reads {
    first: Option<Epoch>,
    more: Vec<Epoch>,
}

impl Model for Reads {
    ghost use Rattle.std.specs.Prelude.{List, ◌++◌};
    ghost use Rattle.rd_epoch.specs.Epochs.{reads_of_one};
    ghost use Rattle.rd_epoch.specs.declared.kept.Epoch.{Epoch};

    ghost Value = { List Epoch };

    ghost view = { λ r. reads_of_one r.first ++ r.more.items };
}

impl Reads {
    /// None. It takes no memory.
    pub(crate) fn new(alloc: Global) -> Reads
        ensures { result ≡ [] }
    {
        Reads {
            first: None,
            more: Vec::new(alloc),
        }
    }

    /// The latest line of those that the clock doesn't count, from what was found before. It takes a step for each.
    #[inline(always)]
    #[tactic(auto, using(crate::proofs::ReadLemmas::latest_joined))]
    pub(crate) fn latest<L: Ledger>(
        &self,
        found: Option<u64>,
        clock: &Clock,
        steps: &mut Steps<L>,
    ) -> Option<u64>
        ensures value { result ≡ latest_line clock.now found self.now }
        ensures cost { steps.new ≡ steps.old + length self.now }
    {
        let latest = later_unheard(found, &self.first, clock, steps);
        if self.more.is_empty() {
            return latest;
        }
        latest_line(latest, self.more.as_slice(), clock, steps)
    }

    /// Drops all, and keeps the memory.
    #[inline(always)]
    pub(crate) fn clear(&mut self)
        ensures { self.new ≡ [] }
    {
        self.first = None;
        self.more.clear();
    }

    /// Drops those that the clock counts, and adds one, somewhere among the others. It takes a step for each that was there, or fewer: where the thread
    /// learnt nothing behind this line, and has a read behind it, it has heard of no other one, and none is counted. After want of memory, which comes
    /// only where one was there, all is as before.
    #[inline(always)]
    pub(crate) fn add<L: Ledger>(
        &mut self,
        now: &Epoch,
        clock: &Clock,
        learnt: u64,
        steps: &mut Steps<L>,
    ) -> Result<(), NoMemory>
        requires still { AreStill clock.now learnt now.now self.old }
        ensures ok { OnOk result (IsPermutation (unheard clock.now self.old ++ now.now ∷ []) self.new) }
        ensures err { OnErr result (self.new ≡ self.old) }
        ensures cost { steps.new ≤ steps.old + length self.old }
        ensures memory { OnErr result (self.old ≢ []) }
    {
        if let Some(place) = own_place(self.more.as_slice(), now.thread, learnt) {
            self.more[place] = *now;
            return Ok(());
        }
        self.add_last(now, clock, steps)
    }

    // The same, behind the others, each of which is counted.
    #[inline(always)]
    fn add_last<L: Ledger>(
        &mut self,
        now: &Epoch,
        clock: &Clock,
        steps: &mut Steps<L>,
    ) -> Result<(), NoMemory>
        ensures ok { OnOk result (self.new ≡ unheard clock.now self.old ++ now.now ∷ []) }
        ensures err { OnErr result (self.new ≡ self.old) }
        ensures cost { steps.new ≤ steps.old + length self.old }
        ensures memory { OnErr result (self.old ≢ []) }
    {
        let stays = stays(&self.first, clock, steps);
        if stays || !self.more.is_empty() {
            return add_beside(&mut self.first, &mut self.more, stays, now, clock, steps);
        }
        self.first = Some(*now);
        Ok(())
    }
}
