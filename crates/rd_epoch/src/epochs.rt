//! What is kept of all variables.
ghost use Rattle.std.specs.Prelude.{◌≡◌, ◌≢◌, ◌⊎◌, ℕ, ◌+◌, ◌<◌, ◌≤◌, Bool, true, false, [], ◌∷◌, ◌++◌, length, option_map, List, IfOk, OnOk, OnErr};
ghost use Rattle.rd_event.specs.declared.events.Event.{Event as EventOf};
ghost use Rattle.rd_ecl.specs.Kinds.{kinds_of};
ghost use Rattle.rd_clock.specs.Stamps.{lent_stamp};
ghost use Rattle.rd_hb.specs.Tracker.{last_stamp};
ghost use Rattle.rd_order.specs.EventLists.{WellFormedWith};
ghost use Rattle.rd_epoch.specs.Accesses.{variable_kinds};
ghost use Rattle.rd_epoch.specs.EpochParts.{AreStill, IsHeldAt, IsLikeHeld, found_for, held_after};
ghost use Rattle.rd_epoch.specs.Epochs.{EpochsStandFor, HeldAccesses, held_at, no_access};
ghost use Rattle.rd_epoch.specs.Taking.{MayTakeSince, MayTake, TakesAccess};

#[cfg(test)]
mod tests;

use crate::kept::Epoch;
use crate::variables::Variable;
use rd_base::{NoMemory, Steps};
use rd_clock::{Clock, Stamp, StampRef};
use rd_hb::Tracker;
use std::alloc::Global;
use std::marker::Model;
use std::sync::ledger::Ledger;

/// An access of a thread to a variable: its place among the events, from 0; the number of its line, from 1; the number of the variable, from 0 in the
/// order of first accesses; and whether it is a write, or else a read.
#[derive(Clone, Copy)]
pub struct Access {
    pub place: u32,
    pub line: u64,
    pub variable: u32,
    pub write: bool,
}

/// The first race of a variable: the number of the line of the access, and that of the latest earlier one that races with it.
#[derive(Clone, Copy)]
pub struct First {
    pub later: u64,
    pub earlier: u64,
}

/// What is kept of all variables, by their numbers (after FastTrack, Flanagan and Freund, PLDI 2009). Contracts see it as the list of what is held of each.
#[derive(Drop)]
pub struct Epochs {
    alloc: Global,
    variables: Vec<Variable>,
}

impl Model for Epochs {
    ghost use Rattle.std.specs.Prelude.{List};
    ghost use Rattle.rd_epoch.specs.Epochs.{HeldAccesses};

    ghost Value = { List HeldAccesses };

    ghost view = { λ e. e.variables.items };
}

// The first race of a variable, where an earlier access was found.
#[inline(always)]
fn first_of(later: u64, found: Option<u64>) -> Option<First>
    ensures { result ≡ option_map (λ line. record { later = later; earlier = line }) found }
{
    match found {
        Some(earlier) => Some(First { later, earlier }),
        None => None,
    }
}

impl Epochs {
    /// Nothing is kept. It stands for the list of no events, and takes no memory.
    pub fn new(alloc: Global) -> Epochs
        ensures empty { result ≡ [] }
        ensures stands { (roots : ℕ → Bool) → WellFormedWith (kinds_of variable_kinds) roots [] → EpochsStandFor result roots [] [] }
    {
        Epochs {
            alloc,
            variables: Vec::new(alloc),
        }
    }

    /// One variable more, which has the next number, and no access yet. After want of memory all is as before.
    pub fn declare(&mut self) -> Result<(), NoMemory>
        ensures ok { OnOk result (self.new ≡ self.old ++ no_access ∷ []) }
        ensures stands { OnOk result ((roots : ℕ → Bool) (lines : List ℕ) (es : List EventOf) →
            EpochsStandFor self.old roots lines es → EpochsStandFor self.new roots lines es) }
        ensures err { OnErr result (self.new ≡ self.old) }
    {
        self.add()
    }

    fn add(&mut self) -> Result<(), NoMemory>
        ensures ok { OnOk result (self.new ≡ self.old ++ no_access ∷ []) }
        ensures err { OnErr result (self.new ≡ self.old) }
    {
        self.variables.push(Variable::new(self.alloc))?;
        Ok(())
    }

    // Takes an access as `access` does, with its stamp lent, and with the line by which its thread learnt last.
    #[inline(always)]
    fn judge<L: Ledger>(
        &mut self,
        access: &Access,
        stamp: &StampRef,
        learnt: u64,
        steps: &mut Steps<L>,
    ) -> Result<Option<First>, NoMemory>
        requires next { MayTakeSince self.old access.now (lent_stamp stamp.now) learnt }
        ensures { TakesAccess self.old self.new access.now (lent_stamp stamp.now) result steps.old steps.new }
    {
        let now = Epoch {
            thread: stamp.thread,
            number: stamp.number,
            line: access.line,
        };
        let found = self.take(
            access.variable,
            access.write,
            &now,
            stamp.clock,
            learnt,
            steps,
        )?;
        Ok(first_of(access.line, found))
    }

    /// Takes the next access of a trace, with the stamp that the tracker gave for it. It answers the first race of the variable, where this is it: the
    /// line of the access, and that of the latest earlier one that races with it. It takes at most 2 steps and one for each read of the variable that
    /// was open, and none once its first race has come. After want of memory, which comes only at the first access to a variable or at a read where
    /// one is open, all is as before.
    pub fn access<L: Ledger>(
        &mut self,
        access: &Access,
        stamp: &Stamp,
        steps: &mut Steps<L>,
    ) -> Result<Option<First>, NoMemory>
        requires next { MayTake self.old access.now stamp.now }
        ensures { TakesAccess self.old self.new access.now stamp.now result steps.old steps.new }
    {
        // its thread may have learnt something up to its line
        self.judge(access, &StampRef::new(stamp), access.line, steps)
    }

    /// Takes an access as `access` does, where the tracker passed it last, and so has its stamp, of which no copy is made. By the event of this line or
    /// an earlier one its thread learnt last what others did; 0 where it did never. So a read by a thread that learnt nothing since its last one asks no
    /// other.
    #[inline(always)]
    pub fn follow<L: Ledger>(
        &mut self,
        access: &Access,
        thread: u32,
        tracker: &Tracker,
        learnt: u64,
        steps: &mut Steps<L>,
    ) -> Result<Option<First>, NoMemory>
        requires known { thread < length tracker.now.threads }
        requires next { MayTakeSince self.old access.now (last_stamp tracker.now.threads thread) learnt }
        ensures { TakesAccess self.old self.new access.now (last_stamp tracker.now.threads thread) result steps.old steps.new }
    {
        self.judge(access, &tracker.last_stamp(thread), learnt, steps)
    }

    // Takes an access: answers the line of the latest earlier one that races with it, where none raced before, and keeps it.
    #[inline(always)]
    fn take<L: Ledger>(
        &mut self,
        variable: u32,
        write: bool,
        now: &Epoch,
        clock: &Clock,
        learnt: u64,
        steps: &mut Steps<L>,
    ) -> Result<Option<u64>, NoMemory>
        requires numbered { variable ≤ length self.old }
        requires still { (held_at self.old variable).raced ≡ false → AreStill clock.now learnt now.now (held_at self.old variable).reads }
        ensures found { IfOk result (λ found. found ≡ found_for clock.now write (held_at self.old variable)) }
        ensures held { IfOk result (λ found. IsHeldAt variable (held_after clock.now write now.now (held_at self.old variable) found) self.old self.new) }
        ensures err { OnErr result (self.new ≡ self.old) }
        ensures cost { steps.new ≤ steps.old + (1 + length (held_at self.old variable).reads) }
        ensures raced { (held_at self.old variable).raced ≡ true → steps.new ≡ steps.old }
        ensures memory { OnErr result ((variable ≡ length self.old) ⊎ ((write ≡ false) × ((held_at self.old variable).reads ≢ []))) }
    {
        let place = variable as usize;
        if place < self.variables.len() {
            return self.variables[place].take(write, now, clock, learnt, steps);
        }
        self.begin(write, now, clock, steps)
    }

    // Takes the first access to a variable, which has the next number.
    // kept out of line, so that a variable that is known doesn't pay for it
    #[inline(never)]
    fn begin<L: Ledger>(
        &mut self,
        write: bool,
        now: &Epoch,
        clock: &Clock,
        steps: &mut Steps<L>,
    ) -> Result<Option<u64>, NoMemory>
        ensures found { IfOk result (λ found. found ≡ found_for clock.now write no_access) }
        ensures held { IfOk result (λ found. (held : HeldAccesses) × IsLikeHeld (held_after clock.now write now.now no_access found) held
            × (self.new ≡ self.old ++ held ∷ [])) }
        ensures err { OnErr result (self.new ≡ self.old) }
        ensures cost { steps.new ≤ steps.old + 1 }
    {
        let mut first = Variable::new(self.alloc);
        let found = first.take(write, now, clock, now.line, steps)?;
        self.variables.push(first)?;
        Ok(found)
    }
}
