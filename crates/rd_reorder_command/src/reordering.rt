//! What `reorder` does with each accepted line.
ghost use Rattle.std.specs.Prelude.{◌≡◌, ◌++◌, List, [], OnOk};
ghost use Rattle.std.specs.List.{cons_option};
ghost use Rattle.rd_ecl.specs.Kinds.{Kind};
ghost use Rattle.rd_reorder_command.specs.Reordering.{ReorderingBegins, event_kept};
ghost use Rattle.rd_reorder_command.specs.Values.{without_values};
ghost use Rattle.rd_rewriting.specs.Keeping.{KeepsMore};

use rd_base::{NoMemory, Slots, Steps};
use rd_event::{Call, Event};
use rd_io::Sink;
use rd_rewriting::Kept;
use rd_walk::{Analysis, Halt};
use rd_wf::{Accepted, Roster};
use std::alloc::Global;
use std::sync::ledger::Ledger;

/// Keeps the lines of a trace, which are written in another order.
#[derive(Drop)]
pub(crate) struct Reordering {
    alloc: Global,
    /// the number that picks the order
    pub(crate) number: u64,
    pub(crate) kept: Kept,
    /// the events, in the order of their lines, without the values of calls
    pub(crate) events: Vec<Event>,
}

// The event, without the values where it is a call. No order hangs on them.
fn without_values(alloc: Global, event: &Event) -> Event
    ensures { result ≡ without_values event.now }
{
    match event {
        Event::Fork { thread, child } => Event::Fork {
            thread: *thread,
            child: *child,
        },
        Event::Join { thread, child } => Event::Join {
            thread: *thread,
            child: *child,
        },
        Event::Acquire { thread, lock } => Event::Acquire {
            thread: *thread,
            lock: *lock,
        },
        Event::Release { thread, lock } => Event::Release {
            thread: *thread,
            lock: *lock,
        },
        Event::Share { thread, lock } => Event::Share {
            thread: *thread,
            lock: *lock,
        },
        Event::Unshare { thread, lock } => Event::Unshare {
            thread: *thread,
            lock: *lock,
        },
        Event::Call(call) => Event::Call(Call {
            thread: call.thread,
            object: call.object,
            kind: call.kind,
            method: call.method,
            slots: Slots::new(alloc),
        }),
    }
}

impl Reordering {
    /// Nothing is kept. The order is the one that the number picks. It takes no memory.
    pub(crate) fn new(alloc: Global, number: u64) -> Reordering
        ensures begins { (kinds : List Kind) → ReorderingBegins kinds result }
        ensures number { result.number ≡ number }
    {
        Reordering {
            alloc,
            number,
            kept: Kept::new(alloc),
            events: Vec::new(alloc),
        }
    }

    // Keeps the next accepted line, which is this in numbers, and its event if it is one.
    // kept out of line, so that a walk for another command doesn't pay for its locals
    #[inline(never)]
    fn keep(&mut self, bytes: &[u8], accepted: &Accepted) -> Result<(), NoMemory>
        ensures kept { OnOk result (KeepsMore self.old.kept self.new.kept bytes.now accepted.now) }
        ensures events { OnOk result (self.new.events.items ≡ self.old.events.items ++ cons_option (event_kept accepted.now) []) }
        ensures number { self.new.number ≡ self.old.number }
    {
        self.kept.keep(bytes, accepted)?;
        if let Accepted::Event(event) = accepted {
            self.events.push(without_values(self.alloc, event))?;
        }
        Ok(())
    }
}

impl Analysis for Reordering {
    ghost use Rattle.std.specs.Prelude.{[]};
    ghost use Rattle.std.proofs.Common.{refl};
    ghost use Rattle.rd_reorder_command.specs.Reordering.{ReorderingLeads};
    ghost use Rattle.rd_reorder_command.specs.laws.NoLines.{leads_none};
    ghost use Rattle.rd_rewriting.specs.Keeping.{Spells};
    ghost use Rattle.rd_rewriting.specs.laws.Spelling.{spelled};

    ghost begins = { ReorderingBegins };

    ghost leads = { ReorderingLeads };

    ghost text = { λ _ _ _. [] };

    ghost asks = { Spells };

    ghost bound = { λ _ _ _ _. 0 };

    ghost starts = { leads_none };

    ghost silent = { λ _ _. refl };

    ghost said = { spelled };

    #[inline(always)]
    fn accept<S: Sink, L: Ledger>(
        &mut self,
        _number: u64,
        bytes: &[u8],
        accepted: &Accepted,
        _roster: &Roster,
        _out: &mut S,
        _steps: &mut Steps<L>,
    ) -> Result<(), Halt> {
        match self.keep(bytes, accepted) {
            Ok(()) => Ok(()),
            Err(_) => Err(Halt::NoMemory),
        }
    }

    fn law_of_skipped_lines(&self, _number: u64, _roster: &Roster) {}
}
