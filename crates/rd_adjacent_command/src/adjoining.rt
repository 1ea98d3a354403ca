//! What `adjacent` does with each accepted line.
ghost use Rattle.std.specs.Prelude.{◌≡◌, ◌++◌, [], OnOk};
ghost use Rattle.std.specs.List.{cons_option};
ghost use Rattle.rd_adjacent_command.specs.Adjoining.{event_told, line_told};
ghost use Rattle.rd_rewriting.specs.Keeping.{KeepsMore};

use rd_base::{NoMemory, Steps};
use rd_event::Event;
use rd_io::Sink;
use rd_rewriting::Kept;
use rd_walk::{Analysis, Halt};
use rd_wf::{Accepted, Roster};
use std::alloc::Global;
use std::sync::ledger::Ledger;

/// Keeps the lines of a trace of which two calls are to stand side by side.
#[derive(Drop)]
pub(crate) struct Adjoining {
    alloc: Global,
    /// the line of one call
    pub(crate) first: u64,
    /// the line of the other
    pub(crate) second: u64,
    pub(crate) kept: Kept,
    /// the events, in the order of their lines
    pub(crate) events: Vec<Event>,
    /// the line of each event
    pub(crate) lines: Vec<u64>,
}

impl Adjoining {
    ghost use Rattle.std.specs.Prelude.{◌<◌, List};
    ghost use Rattle.rd_adjacent_command.specs.Adjoining.{AdjoiningBegins};
    ghost use Rattle.rd_ecl.specs.Kinds.{Kind};

    /// Nothing is kept. The two calls are on these lines, the lesser first. It takes no memory.
    pub(crate) fn new(alloc: Global, first: u64, second: u64) -> Adjoining
        requires { first < second }
        ensures begins { (kinds : List Kind) → AdjoiningBegins kinds result }
        ensures lines { (result.first ≡ first) × (result.second ≡ second) }
    {
        Adjoining {
            alloc,
            first,
            second,
            kept: Kept::new(alloc),
            events: Vec::new(alloc),
            lines: Vec::new(alloc),
        }
    }

    // Keeps the next accepted line, which is this in numbers, and its event and its number if it is one.
    fn keep(&mut self, number: u64, bytes: &[u8], accepted: &Accepted) -> Result<(), NoMemory>
        ensures kept { OnOk result (KeepsMore self.old.kept self.new.kept bytes.now accepted.now) }
        ensures events { OnOk result (self.new.events.items ≡ self.old.events.items ++ cons_option (event_told accepted.now) []) }
        ensures lines { OnOk result (self.new.lines.items ≡ self.old.lines.items ++ cons_option (line_told number accepted.now) []) }
        ensures same { (self.new.first ≡ self.old.first) × (self.new.second ≡ self.old.second) }
    {
        self.kept.keep(bytes, accepted)?;
        if let Accepted::Event(event) = accepted {
            self.events.push(event.copy(self.alloc)?)?;
            self.lines.push(number)?;
        }
        Ok(())
    }
}

impl Analysis for Adjoining {
    ghost use Rattle.std.specs.Prelude.{[]};
    ghost use Rattle.std.proofs.Common.{refl};
    ghost use Rattle.rd_adjacent_command.specs.Adjoining.{AdjoiningBegins, AdjoiningLeads};
    ghost use Rattle.rd_adjacent_command.specs.laws.NoLines.{adjoining_none};
    ghost use Rattle.rd_rewriting.specs.Keeping.{Spells};
    ghost use Rattle.rd_rewriting.specs.laws.Spelling.{spelled};

    ghost begins = { AdjoiningBegins };

    ghost leads = { AdjoiningLeads };

    ghost text = { λ _ _ _. [] };

    ghost asks = { Spells };

    ghost bound = { λ _ _ _ _. 0 };

    ghost starts = { adjoining_none };

    ghost silent = { λ _ _. refl };

    ghost said = { spelled };

    #[inline(always)]
    fn accept<S: Sink, L: Ledger>(
        &mut self,
        number: u64,
        bytes: &[u8],
        accepted: &Accepted,
        _roster: &Roster,
        _out: &mut S,
        _steps: &mut Steps<L>,
    ) -> Result<(), Halt> {
        match self.keep(number, bytes, accepted) {
            Ok(()) => Ok(()),
            Err(_) => Err(Halt::NoMemory),
        }
    }

    fn law_of_skipped_lines(&self, _number: u64, _roster: &Roster) {}
}
