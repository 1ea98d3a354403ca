//! What a command does with each accepted line of a trace.
ghost use Rattle.std.specs.Prelude.{◌≡◌, ◌+◌, ◌≤◌, ℕ, List, [], ◌∷◌, ◌++◌, OnOk, OnErr};
ghost use Rattle.rd_event.specs.Items.{Says};
ghost use Rattle.rd_event.specs.declared.items.Line.{Line as Item};
ghost use Rattle.rd_walk.specs.Analysis.{IsNextEntry, TellsFault, WritesBetween, WritesFront};
ghost use Rattle.rd_walk.specs.Walk.{Entry, items};
ghost use Rattle.rd_ecl.specs.Kinds.{Kind};

use rd_base::{NoMemory, Steps};
use rd_io::Sink;
use rd_wf::{Accepted, Roster};
use std::sync::ledger::Ledger;

/// Why a command stops before its end.
#[derive(Clone, Copy, PartialEq, Eq)]
pub enum Halt {
    /// a write failed
    OutputFault,
    /// memory ran out
    NoMemory,
}

impl From<NoMemory> for Halt {
    ghost use Rattle.std.specs.Prelude.{◌≡◌};
    ghost use Rattle.rd_walk.specs.declared.analysis.Halt.TheVariants.{NoMemory as MemoryRanOut};

    ghost from_gives = { λ _ halt. halt ≡ MemoryRanOut };

    fn from(_error: NoMemory) -> Halt {
        Halt::NoMemory
    }
}

/// What a command does with each accepted line of a trace, one after another. The kinds are those of the trace's objects.
pub trait Analysis {
    /// It has taken no line yet, of a trace whose objects are of these kinds.
    ghost begins: { List Kind → Self → Type 0 };

    /// From the first, these accepted lines lead to the second.
    ghost leads: { List Kind → Self → List Entry → Self → Type 0 };

    /// What is written for these accepted lines, from the first on.
    ghost text: { List Kind → Self → List Entry → List ℕ };

    /// What it asks of the bytes of a line that says an item.
    ghost asks: { List ℕ → Item → Type 0 };

    /// How many steps it may take for a line behind other accepted ones, from the first on.
    ghost bound: { List Kind → Self → List Item → Item → ℕ };

    /// Takes the next accepted line, with its bytes without the line feed. After an `Err` the analysis is used no more.
    fn accept<S: Sink, L: Ledger>(
        &mut self,
        number: u64,
        bytes: &[u8],
        accepted: &Accepted,
        roster: &Roster,
        out: &mut S,
        steps: &mut Steps<L>,
    ) -> Result<(), Halt>
        requires { (kinds : List Kind) × (start : Self) × (before : List Entry) × (item : Item)
            × leads kinds start before self.old
            × IsNextEntry kinds roster.now before number item accepted.now }

        // the lines lead on, where the bytes are as it asks, and what is written for the line is written, or a front of it
        ensures leads { OnOk result
            ((kinds : List Kind) (start : Self) (before : List Entry) (item : Item) →
            leads kinds start before self.old →
            IsNextEntry kinds roster.now before number item accepted.now →
            asks bytes.now item → leads kinds start
            (before ++ record { number = number; item = item } ∷ []) self.new) }
        ensures written { OnOk result
            ((kinds : List Kind) (start : Self) (before : List Entry) (item : Item) →
            leads kinds start before self.old →
            IsNextEntry kinds roster.now before number item accepted.now →
            WritesBetween (S.written out.old) (S.written out.new)
            (text kinds start before)
            (text kinds start (before ++ record { number = number; item = item } ∷ []))) }
        ensures halted { OnErr result
            ((kinds : List Kind) (start : Self) (before : List Entry) (item : Item) →
            leads kinds start before self.old →
            IsNextEntry kinds roster.now before number item accepted.now →
            WritesFront (S.written out.old) (S.written out.new)
            (text kinds start before)
            (text kinds start (before ++ record { number = number; item = item } ∷ []))) }

        // the steps are bounded, and a failed write is told as one
        ensures cost { (kinds : List Kind) (start : Self) (before : List Entry) (item : Item) →
            leads kinds start before self.old →
            IsNextEntry kinds roster.now before number item accepted.now →
            steps.new ≤ steps.old + bound kinds start (items before) item }
        ensures fault { TellsFault (S.faults out.old) (S.faults out.new) (S.at_fault out.new)
            (S.written out.new) result };

    /// The law of skipped lines: one that is accepted leads to the same, and nothing is written for it.
    fn law_of_skipped_lines(&self, number: u64, roster: &Roster)
        ensures leads { (kinds : List Kind) (start : Self) (before : List Entry) →
            leads kinds start before self.now →
            IsNextEntry kinds roster.now before number Item.Skip Accepted.Nothing →
            leads kinds start
            (before ++ record { number = number; item = Item.Skip } ∷ []) self.now }
        ensures silent { (kinds : List Kind) (start : Self) (before : List Entry) →
            leads kinds start before self.now →
            IsNextEntry kinds roster.now before number Item.Skip Accepted.Nothing →
            text kinds start (before ++ record { number = number; item = Item.Skip } ∷ [])
            ≡ text kinds start before };

    /// No line leads anywhere else, and nothing is written for none.
    ghost starts: { (kinds : List Kind) (start : Self) → begins kinds start →
        leads kinds start [] start };

    ghost silent: { (kinds : List Kind) (start : Self) → text kinds start [] ≡ [] };

    /// Bytes that say the item are as it asks.
    ghost said: { (version : ℕ) (bytes : List ℕ) (item : Item) →
        Says version bytes item → asks bytes item };
}
