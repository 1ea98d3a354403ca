//! What is kept of a variable.
ghost use Rattle.std.specs.Prelude.{◌≡◌, ◌≢◌, ◌+◌, ◌≤◌, true, false, [], length, IfOk, OnOk, OnErr};
ghost use Rattle.rd_epoch.specs.EpochParts.{AreStill, IsLikeHeld, found_for, held_after, held_with};
ghost use Rattle.rd_epoch.specs.Epochs.{no_access};

use crate::kept::{Epoch, later_unheard};
use crate::reads::Reads;
use rd_base::{NoMemory, Steps};
use rd_clock::Clock;
use std::alloc::Global;
use std::marker::Model;
use std::sync::ledger::Ledger;

/// What is kept of a variable: that its first race has come; or its last write, and its open reads: those that reach no later access to it.
#[derive(Drop)]
pub(crate) struct Variable {
    write: Option<Epoch>,
    reads: Reads,
    raced: bool,
}

impl Model for Variable {
    ghost use Rattle.rd_epoch.specs.Epochs.{HeldAccesses};

    ghost Value = { HeldAccesses };

    ghost view = { λ v. record { raced = v.raced; write = v.write; reads = v.reads } };
}

impl Variable {
    /// One without an access. It takes no memory.
    pub(crate) fn new(alloc: Global) -> Variable
        ensures { result ≡ no_access }
    {
        Variable {
            write: None,
            reads: Reads::new(alloc),
            raced: false,
        }
    }

    // The line that is found for an access.
    #[inline(always)]
    fn find<L: Ledger>(&self, write: bool, clock: &Clock, steps: &mut Steps<L>) -> Option<u64>
        requires { self.now.raced ≡ false }
        ensures value { result ≡ found_for clock.now write self.now }
        ensures cost { steps.new ≤ steps.old + (1 + length self.now.reads) }
        ensures read { write ≡ false → steps.new ≤ steps.old + 1 }
    {
        let found = later_unheard(None, &self.write, clock, steps);
        if write {
            self.reads.latest(found, clock, steps)
        } else {
            found
        }
    }

    // Keeps an access for which nothing was found. After want of memory all is as before.
    #[inline(always)]
    fn keep<L: Ledger>(
        &mut self,
        write: bool,
        now: &Epoch,
        clock: &Clock,
        learnt: u64,
        steps: &mut Steps<L>,
    ) -> Result<(), NoMemory>
        requires quiet { self.old.raced ≡ false }
        requires still { AreStill clock.now learnt now.now self.old.reads }
        ensures held { OnOk result (IsLikeHeld (held_with clock.now write now.now self.old) self.new) }
        ensures err { OnErr result (self.new ≡ self.old) }
        ensures cost { steps.new ≤ steps.old + length self.old.reads }
        ensures write { write ≡ true → steps.new ≡ steps.old }
        ensures read { OnErr result (write ≡ false) }
        ensures beside { OnErr result (self.old.reads ≢ []) }
    {
        if !write {
            return self.reads.add(now, clock, learnt, steps);
        }
        self.write = Some(*now);
        self.reads.clear();
        Ok(())
    }

    /// Takes an access of a thread that learnt last by this line: answers the line of the latest earlier one that races with it, where none raced before,
    /// and keeps it. It takes memory only for a read where one is open. After want of memory all is as before.
    #[inline(always)]
    pub(crate) fn take<L: Ledger>(
        &mut self,
        write: bool,
        now: &Epoch,
        clock: &Clock,
        learnt: u64,
        steps: &mut Steps<L>,
    ) -> Result<Option<u64>, NoMemory>
        requires still { self.old.raced ≡ false → AreStill clock.now learnt now.now self.old.reads }
        ensures found { IfOk result (λ found. found ≡ found_for clock.now write self.old) }
        ensures held { IfOk result (λ found. IsLikeHeld (held_after clock.now write now.now self.old found) self.new) }
        ensures err { OnErr result (self.new ≡ self.old) }
        ensures cost { steps.new ≤ steps.old + (1 + length self.old.reads) }
        ensures raced { self.old.raced ≡ true → steps.new ≡ steps.old }
        ensures read { OnErr result (write ≡ false) }
        ensures beside { OnErr result (self.old.reads ≢ []) }
    {
        if self.raced {
            return Ok(None);
        }
        let found = self.find(write, clock, steps);
        match found {
            Some(_) => self.raced = true,
            None => self.keep(write, now, clock, learnt, steps)?,
        }
        Ok(found)
    }
}
